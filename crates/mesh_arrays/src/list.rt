//! The list of leaves.

ghost use Rattle.std.specs.Prelude.{◌≡◌, ◌≤◌, ℕ, [], IfOk, length, slice_index};
ghost use Rattle.mesh_defs.specs.ClosedSet.{leaves_of};
ghost use Rattle.mesh_laws.specs.Slots.{split_set};
ghost use Rattle.triangle_pool.specs.declared.pool.TheConstants.{MOST_LEAVES};
ghost use Rattle.mesh_arrays.specs.ListChange.{IsChange};
ghost use Rattle.mesh_arrays.specs.List.{IsLeafListOf, IsListBefore};
ghost use Rattle.mesh_arrays.specs.Walk.{IsWalkBegun};

use crate::marks::mark_changed;
use crate::patch::{patch_under, put_under};
use crate::walk::Walk;
use bintree_addr::{Slot, Tri};
use mesh_defs::NoMemory;
use std::alloc::Global;
use std::marker::Model;
use triangle_pool::Pool;

/// The leaves of a pool, depth first, with what the last patch left out and put in.
#[derive(Drop)]
pub struct LeafList {
    /// On the heap, so that a function which owns a list owns little: each exit of such a function drops it.
    walk: Box<Walk>,
}

impl Model for LeafList {
    ghost use Rattle.mesh_arrays.specs.List.{ListState, list_of};

    ghost Value = { ListState };

    ghost view = { λ l. list_of l.walk.value };
}

impl LeafList {
    /// The leaves of a pool, with room for so many.
    ///
    /// Memory: 18 bytes for each leaf that there is room for.
    pub fn new(alloc: Global, pool: &Pool, most: u32) -> Result<LeafList, NoMemory>
        requires root { slice_index pool.now.pairs 0 ≡ 1 }
        requires room { pool.now.most ≤ most }
        requires few { most ≤ MOST_LEAVES }
        ensures leaves { IfOk result (λ l. l.leaves ≡ leaves_of pool.now.n (split_set pool.now.pairs)) }
        ensures gone { IfOk result (λ l. l.gone ≡ []) }
        ensures come { IfOk result (λ l. l.come ≡ []) }
        ensures most { IfOk result (λ l. l.most ≡ most) }
    {
        let mut walk = Walk::new(alloc, most)?;
        let _leaves = pool.leaf_count();
        let levels = 2 * pool.n();
        put_under(&mut walk, pool, Slot(0), levels);
        put_under(&mut walk, pool, Slot(1), levels);
        walk.forget();
        Ok(LeafList {
            walk: Box::new(alloc, walk)?,
        })
    }

    /// The leaves, depth first.
    pub fn leaves(&self) -> &[Tri]
        ensures { result.now ≡ self.now.leaves }
    {
        self.walk.leaves()
    }

    /// The leaves that the last patch left out, depth first.
    pub fn gone(&self) -> &[Tri]
        ensures { result.now ≡ self.now.gone }
    {
        self.walk.gone()
    }

    /// The leaves that the last patch put in, depth first.
    pub fn come(&self) -> &[Tri]
        ensures { result.now ≡ self.now.come }
    {
        self.walk.come()
    }

    /// The leaves stay: nothing went, and nothing came.
    pub fn stay(&mut self)
        ensures value { self.new ≡ record self.old { gone = []; come = [] } }
        ensures change { IsChange self.old.leaves self.new.leaves self.new.gone self.new.come }
    {
        self.walk.forget();
    }

    /// The list is that of a pool, which was split and merged at these triangles alone since the list was made.
    ///
    /// Others may stand among them, too, and a triangle may stand there more than once. Takes no memory.
    /// Cost (not proved): a step for each level of these triangles and for each leaf that goes or comes; a copy of
    /// the leaves that stay, and of a byte for each slot.
    pub fn patch(&mut self, pool: &Pool, changed: &[Tri])
        requires root { slice_index pool.now.pairs 0 ≡ 1 }
        requires room { pool.now.most ≤ self.old.most }
        requires before { IsListBefore pool.now.n self.old.leaves (split_set pool.now.pairs) changed.now }
        ensures leaves { self.new.leaves ≡ leaves_of pool.now.n (split_set pool.now.pairs) }
        ensures change { IsChange self.old.leaves self.new.leaves self.new.gone self.new.come }
        ensures most { self.new.most ≡ self.old.most }
    {
        let walk: &mut Walk = &mut self.walk;
        walk.begin();
        mark_changed(walk, pool, changed);
        patch_halves(walk, pool);
    }

    /// The same of a pool of which it is not known where it was split and merged. Takes no memory.
    ///
    /// Cost (not proved): a step for each triangle of the pool.
    pub fn patch_all(&mut self, pool: &Pool)
        requires root { slice_index pool.now.pairs 0 ≡ 1 }
        requires room { pool.now.most ≤ self.old.most }
        requires before { IsLeafListOf pool.now.n self.old.leaves }
        ensures leaves { self.new.leaves ≡ leaves_of pool.now.n (split_set pool.now.pairs) }
        ensures change { IsChange self.old.leaves self.new.leaves self.new.gone self.new.come }
        ensures most { self.new.most ≡ self.old.most }
    {
        let walk: &mut Walk = &mut self.walk;
        walk.begin();
        walk.touch_all(true);
        patch_halves(walk, pool);
    }
}

/// Writes the leaves of a pool by those before.
fn patch_halves(walk: &mut Walk, pool: &Pool)
    requires root { slice_index pool.now.pairs 0 ≡ 1 }
    requires room { pool.now.most ≤ walk.old.most }
    requires before { IsWalkBegun pool.now.n pool.now.pairs walk.old }
    ensures leaves { walk.new.leaves ≡ leaves_of pool.now.n (split_set pool.now.pairs) }
    ensures change { IsChange walk.old.rest walk.new.leaves walk.new.gone walk.new.come }
    ensures most { walk.new.most ≡ walk.old.most }
{
    let _leaves = pool.leaf_count();
    let levels = 2 * pool.n();
    patch_under(walk, pool, Slot(0), levels);
    patch_under(walk, pool, Slot(1), levels);
}
