//! A mesh as linked triangles, in a pool of nodes that are all made at the start.

ghost use Rattle.std.specs.Prelude.{◌≡◌, ◌≢◌, ◌↔◌, ℕ, ◌+◌, ◌-◌, ◌*◌, ◌/◌, ◌%◌, ◌^◌, ◌<◌, ◌≤◌, ◌++◌, IsTrue, OnOk, IfOk};
ghost use Rattle.std.specs.Prelude.{IfSome, IsNone, false, true, List, [], length, map, slice_index, slice_set, ◌∷◌};
ghost use Rattle.std.specs.Prelude.{replicate};
ghost use Rattle.mesh_defs.specs.declared.counters.TheConstants.{MOST_CHANGES};
ghost use Rattle.mesh_defs.specs.Triangle.{level_of, corners_of, OnOneSide};
ghost use Rattle.mesh_defs.specs.ClosedSet.{IsClosed, leaves_of};
ghost use Rattle.mesh_defs.specs.declared.level.TheConstants.{GREATEST_LEVEL};
ghost use Rattle.arrayvec.specs.ArrayVec.{array_vec_len};
ghost use Rattle.mesh_laws.specs.Edge.{mate_of, owner};
ghost use Rattle.mesh_laws.specs.Net.{nowhere};
ghost use Rattle.mesh_laws.specs.LeafAcross.{IsLeafAcross};
ghost use Rattle.mesh_laws.specs.Slots.{address_at, has_children, IsLive, split_set, room_of, IsPool, IsSplit};
ghost use Rattle.mesh_laws.specs.Slots.{IsMergeReady, IsMerge, HasLeaf, IsMateLive, diamond_size};
ghost use Rattle.triangle_pool.specs.declared.pool.TheConstants.{MOST_LEAVES};
ghost use Rattle.triangle_pool.specs.Answer.{triangle_at, slot_corners, IsSlotAcross, numbers, AreChildren, IsBirth};
ghost use Rattle.triangle_pool.specs.Answer.{children_of};

use crate::forest::NOWHERE;
use crate::free::FreePairs;
use crate::nodes::Nodes;
use arrayvec::ArrayVec;
use bintree_addr::{Slot, Tri};
use mesh_defs::{MOST_TRIANGLES, NoMemory};
use std::alloc::Global;
use std::marker::Model;

/// The most leaves of a pool. `new` takes the memory of all: 46 MB at most.
pub const MOST_LEAVES: u32 = MOST_TRIANGLES;

/// The triangles of a mesh and those above them, each at a slot, with links to parent, children and neighbours.
///
/// A mesh of so many leaves wants a slot for each leaf and each triangle that is split; all are made by `new`, and no
/// other call takes memory or is refused. A triangle keeps its slot from the split that makes it to the merge that
/// takes it away.
/// Source: Duchaineau et al., "ROAMing Terrain", IEEE Visualization 1997, the parts on the triangle bintree and on
/// split and merge; that slots come in pairs of siblings is this project's own.
#[derive(Drop)]
pub struct Pool {
    nodes: Nodes,
    /// The greatest number of leaves.
    most: u32,
    /// The pairs of slots that are free: so many leaves may still be added.
    free: FreePairs,
    splits: u64,
    merges: u64,
}

impl Model for Pool {
    ghost use Rattle.triangle_pool.specs.Slots.{PoolState};
    ghost use Rattle.triangle_pool.specs.Links.{HasPairs};

    ghost Value = { PoolState };

    ghost view = { λ p. record {
      n = p.nodes.n;
      most = p.most;
      pairs = p.nodes.pairs;
      splits = p.splits;
      merges = p.merges;
    } };

    ghost invariant = { λ p. HasPairs p.most p.nodes.pairs p.free };
}

/// The children that a split made.
#[derive(Clone, Copy, Debug, Default)]
pub struct Born {
    /// The left and the right child of the triangle.
    pub first: (Slot, Slot),
    /// Those of its mate; none where it has no mate.
    pub second: Option<(Slot, Slot)>,
}

/// The diamond that a merge made leaves again, and the slots of their children.
#[derive(Debug, Drop)]
pub struct Gone {
    /// The triangle, which is a leaf again.
    pub kept: Slot,
    /// Its mate; none where it has none.
    pub other: Option<Slot>,
    /// The slots of the children, which are free now, each once.
    pub freed: ArrayVec<Slot, 4>,
}

impl Pool {
    /// The two halves of the square, at the slots 0 and 1, with room for so many leaves.
    ///
    /// Cost (not proved): 22 bytes a slot, two slots a leaf; all memory of the pool is taken here.
    pub fn new(alloc: Global, n: u32, leaves: u32) -> Result<Pool, NoMemory>
        requires n { (1 ≤ n) × (n ≤ GREATEST_LEVEL) }
        requires some { 2 ≤ leaves }
        requires few { leaves ≤ MOST_LEAVES }
        ensures n { IfOk result (λ p. p.n ≡ n) }
        ensures most { IfOk result (λ p. p.most ≡ leaves) }
        ensures first { IfOk result (λ p. slice_index p.pairs 0 ≡ 1) }
        ensures empty { IfOk result (λ p. (i : ℕ) → i ≢ 0 → slice_index p.pairs i ≡ 0) }
        ensures room { IfOk result (λ p. room_of p.pairs + 2 ≡ leaves) }
        ensures splits { IfOk result (λ p. p.splits ≡ 0) }
        ensures merges { IfOk result (λ p. p.merges ≡ 0) }
    {
        let pairs = leaves - 1;
        Ok(Pool {
            nodes: Nodes::new(alloc, n, pairs as usize)?,
            most: leaves,
            free: FreePairs::new(alloc, pairs)?,
            splits: 0,
            merges: 0,
        })
    }

    /// Whether the slot has a triangle.
    pub fn is_live(&self, s: Slot) -> bool
        ensures { IsTrue result ↔ IsLive self.now.pairs s.0 }
    {
        self.nodes.is_live(s.0)
    }

    /// The triangle at the slot.
    pub fn tri(&self, s: Slot) -> Tri
        requires live { IsLive self.now.pairs s.0 }
        ensures value { result ≡ triangle_at self.now s }
        ensures number { s.0 + 2 < 2 * self.now.most }
        ensures valid { IsPool self.now.n self.now.pairs }
    {
        let _n = self.nodes.n();
        self.nodes.tri(s.0)
    }

    /// The grid has the side `2 ^ n`.
    pub fn n(&self) -> u32
        ensures value { result ≡ self.now.n }
        ensures valid { IsPool self.now.n self.now.pairs }
    {
        self.nodes.n()
    }

    /// Whether the leaf can be split at once: the leaf across its base is of the same level, or there is none.
    pub fn may_split(&self, s: Slot) -> bool
        requires leaf { HasLeaf self.now.pairs s.0 }
        ensures { IsTrue result ↔ IsMateLive self.now.pairs (triangle_at self.now s) }
    {
        match self.base(s) {
            Some(across) => self.tri(across).level() == self.tri(s).level(),
            None => true,
        }
    }

    /// How many leaves may still be added.
    pub fn room(&self) -> u32
        ensures { result ≡ room_of self.now.pairs }
    {
        self.free.room()
    }

    /// Splits the leaf, and with it its mate, where it has one.
    ///
    /// `may_split` tells whether the leaf across the base is its mate, or there is none. Where it is a coarser leaf,
    /// that one is split first: a forced split.
    /// Cost (not proved): a few links, whatever the size of the mesh.
    pub fn split(&mut self, s: Slot) -> Born
        requires leaf { HasLeaf self.old.pairs s.0 }
        requires coarse { level_of (triangle_at self.old s) < 2 * self.old.n }
        requires level { IsMateLive self.old.pairs (triangle_at self.old s) }
        requires room_1 { 1 ≤ room_of self.old.pairs }
        requires room_2 { 1 ≤ mate_of (triangle_at self.old s) → 2 ≤ room_of self.old.pairs }
        requires count { self.old.splits < MOST_CHANGES }
        ensures n { self.new.n ≡ self.old.n }
        ensures most { self.new.most ≡ self.old.most }
        ensures split { IsSplit self.old.pairs self.new.pairs (triangle_at self.old s) }
        ensures born { IsBirth self.old.pairs self.new.pairs (triangle_at self.old s) result }
        ensures room { room_of self.new.pairs + diamond_size (triangle_at self.old s) ≡ room_of self.old.pairs }
        ensures splits { self.new.splits ≡ self.old.splits + diamond_size (triangle_at self.old s) }
        ensures merges { self.new.merges ≡ self.old.merges }
        ensures valid { IsPool self.new.n self.new.pairs }
    {
        let base = self.nodes.base(s.0);
        let k = self.free.take();
        if base == NOWHERE {
            self.splits += 1;
            self.nodes.split_alone(s.0, k);
            let _n = self.nodes.n();
            Born {
                first: pair(k),
                second: None,
            }
        } else {
            let j = self.free.take();
            self.splits += 2;
            self.nodes.split_both(s.0, base, k, j);
            let _n = self.nodes.n();
            Born {
                first: pair(k),
                second: Some(pair(j)),
            }
        }
    }
}

impl Pool {
    /// Makes the triangle and its mate leaves again, and frees their children.
    ///
    /// `merge_ready` tells whether it may.
    /// Cost (not proved): as `split`.
    pub fn merge(&mut self, s: Slot) -> Gone
        requires live { IsLive self.old.pairs s.0 }
        requires ready { IsMergeReady self.old.pairs (triangle_at self.old s) }
        requires count { self.old.merges < MOST_CHANGES }
        ensures n { self.new.n ≡ self.old.n }
        ensures most { self.new.most ≡ self.old.most }
        ensures merge { IsMerge self.old.pairs self.new.pairs (triangle_at self.old s) }
        ensures kept { result.kept ≡ s }
        ensures other { IfSome result.other (λ t. triangle_at self.old t ≡ mate_of (triangle_at self.old s)) }
        ensures alone { IsNone result.other ↔ mate_of (triangle_at self.old s) ≡ 0 }
        ensures freed { map (address_at self.old.pairs) (numbers result.freed.items)
            ≡ children_of (triangle_at self.old s) }
        ensures room { room_of self.new.pairs ≡ room_of self.old.pairs + diamond_size (triangle_at self.old s) }
        ensures splits { self.new.splits ≡ self.old.splits }
        ensures merges { self.new.merges ≡ self.old.merges + diamond_size (triangle_at self.old s) }
        ensures valid { IsPool self.new.n self.new.pairs }
    {
        let _n = self.nodes.n();
        let partner = self.nodes.partner(s.0);
        let k = self.nodes.children(s.0);
        let mut freed = ArrayVec::new();
        push_pair(&mut freed, k);
        if partner == NOWHERE {
            self.nodes.merge_alone(s.0, k);
            let _n = self.nodes.n();
            self.free.give_back(k);
            self.merges += 1;
            Gone {
                kept: s,
                other: None,
                freed,
            }
        } else {
            let j = self.nodes.children(partner);
            push_pair(&mut freed, j);
            self.nodes.merge_both(s.0, partner, k, j);
            let _n = self.nodes.n();
            self.free.give_back(k);
            self.free.give_back(j);
            self.merges += 2;
            Gone {
                kept: s,
                other: Some(Slot(partner)),
                freed,
            }
        }
    }

    /// Whether the triangle's diamond can be merged: it is split, and its children are leaves.
    pub fn merge_ready(&self, s: Slot) -> bool
        requires live { IsLive self.now.pairs s.0 }
        ensures { IsTrue result ↔ IsMergeReady self.now.pairs (triangle_at self.now s) }
    {
        if !self.nodes.has_two_leaves(s.0) {
            return false;
        }
        let partner = self.nodes.partner(s.0);
        partner == NOWHERE || self.nodes.has_two_leaves(partner)
    }

    /// The slot of the mate of a triangle that is split.
    pub fn partner(&self, s: Slot) -> Option<Slot>
        requires live { IsLive self.now.pairs s.0 }
        requires split { has_children self.now.pairs (triangle_at self.now s) ≡ true }
        ensures none { IsNone result ↔ mate_of (triangle_at self.now s) ≡ 0 }
        ensures some { IfSome result (λ t. triangle_at self.now t ≡ mate_of (triangle_at self.now s)) }
    {
        linked(self.nodes.partner(s.0))
    }

    /// The slot of the parent.
    pub fn parent(&self, s: Slot) -> Option<Slot>
        requires live { IsLive self.now.pairs s.0 }
        ensures none { IsNone result ↔ triangle_at self.now s < 4 }
        ensures some { IfSome result (λ t. triangle_at self.now t ≡ triangle_at self.now s / 2) }
    {
        linked(self.nodes.parent(s.0))
    }

    /// The slots of the left and the right child.
    pub fn children(&self, s: Slot) -> Option<(Slot, Slot)>
        requires live { IsLive self.now.pairs s.0 }
        ensures none { IsNone result ↔ has_children self.now.pairs (triangle_at self.now s) ≡ false }
        ensures some { IfSome result (λ p. AreChildren self.now.pairs (triangle_at self.now s) p) }
    {
        let k = self.nodes.children(s.0);
        if k == NOWHERE { None } else { Some(pair(k)) }
    }

    /// Whether the triangle is a leaf.
    pub fn is_leaf(&self, s: Slot) -> bool
        requires live { IsLive self.now.pairs s.0 }
        ensures { IsTrue result ↔ has_children self.now.pairs (triangle_at self.now s) ≡ false }
    {
        self.nodes.children(s.0) == NOWHERE
    }

    /// How many leaves the mesh has.
    pub fn leaf_count(&self) -> u32
        ensures value { result + room_of self.now.pairs ≡ self.now.most }
        ensures leaves { result ≡ length (leaves_of self.now.n (split_set self.now.pairs)) }
        ensures valid { IsPool self.now.n self.now.pairs }
    {
        let _n = self.nodes.n();
        self.most - self.free.room()
    }

    /// The slot of the leaf across the base.
    pub fn base(&self, s: Slot) -> Option<Slot>
        requires leaf { HasLeaf self.now.pairs s.0 }
        ensures none { IsNone result
            ↔ OnOneSide (2 ^ self.now.n) (slot_corners self.now s).v0 (slot_corners self.now s).v1 }
        ensures some { IfSome result
            (IsSlotAcross self.now s (slot_corners self.now s).v0 (slot_corners self.now s).v1) }
        ensures border { IsNone result ↔ mate_of (triangle_at self.now s) ≡ 0 }
        ensures owner { IfSome result (λ t. triangle_at self.now t
            ≡ owner (has_children self.now.pairs) (mate_of (triangle_at self.now s))) }
        ensures valid { IsPool self.now.n self.now.pairs }
    {
        let _n = self.nodes.n();
        linked(self.nodes.base(s.0))
    }

    /// The slot of the leaf across the left leg.
    pub fn left(&self, s: Slot) -> Option<Slot>
        requires leaf { HasLeaf self.now.pairs s.0 }
        ensures none { IsNone result
            ↔ OnOneSide (2 ^ self.now.n) (slot_corners self.now s).apex (slot_corners self.now s).v0 }
        ensures some { IfSome result
            (IsSlotAcross self.now s (slot_corners self.now s).apex (slot_corners self.now s).v0) }
        ensures valid { IsPool self.now.n self.now.pairs }
    {
        let _n = self.nodes.n();
        linked(self.nodes.left(s.0))
    }

    /// The slot of the leaf across the right leg.
    pub fn right(&self, s: Slot) -> Option<Slot>
        requires leaf { HasLeaf self.now.pairs s.0 }
        ensures none { IsNone result
            ↔ OnOneSide (2 ^ self.now.n) (slot_corners self.now s).v1 (slot_corners self.now s).apex }
        ensures some { IfSome result
            (IsSlotAcross self.now s (slot_corners self.now s).v1 (slot_corners self.now s).apex) }
        ensures valid { IsPool self.now.n self.now.pairs }
    {
        let _n = self.nodes.n();
        linked(self.nodes.right(s.0))
    }

    /// How many triangles were split so far.
    pub fn splits(&self) -> u64
        ensures { result ≡ self.now.splits }
    {
        self.splits
    }

    /// How many triangles were merged so far.
    pub fn merges(&self) -> u64
        ensures { result ≡ self.now.merges }
    {
        self.merges
    }
}

/// The slot of a link, if there is one.
fn linked(link: u32) -> Option<Slot>
    ensures none { IsNone result ↔ link ≡ nowhere }
    ensures some { IfSome result (λ t. (t.0 ≡ link) × (link ≢ nowhere)) }
{
    if link == NOWHERE {
        None
    } else {
        Some(Slot(link))
    }
}

/// Adds the two slots of a pair.
fn push_pair(freed: &mut ArrayVec<Slot, 4>, k: u32)
    requires small { k < 2 ^ 31 }
    requires fits { array_vec_len freed.old + 2 ≤ 4 }
    ensures items { numbers freed.new.items ≡ numbers freed.old.items ++ ((2 * k) ∷ ((2 * k + 1) ∷ [])) }
    ensures count { array_vec_len freed.new ≡ array_vec_len freed.old + 2 }
{
    freed.push(Slot(2 * k));
    freed.push(Slot(2 * k + 1));
}

/// The two slots of a pair.
fn pair(k: u32) -> (Slot, Slot)
    requires { k < 2 ^ 31 }
    ensures left { result.0.0 ≡ 2 * k }
    ensures right { result.1.0 ≡ 2 * k + 1 }
{
    (Slot(2 * k), Slot(2 * k + 1))
}
