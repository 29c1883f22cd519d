//! A mesh of one grid, by the triangles that are split in it.

use crate::error::worst_within;
use crate::find::find;
use crate::limit::Limit;
use crate::list::{are_addresses, are_numbers_of, list_set, split_above_all, split_above_numbers};
use crate::required::Required;
use crate::settle::{settle_anew, settle_more};
use address_flags::{end, is_set};
use bintree_addr::Tri;
use mesh_defs::NoMemory;
use pgm_grid::Grid;
use std::alloc::Global;
use std::collections::BinaryHeap;
use std::marker::Model;
use std::mem::swap;

/// A mesh, in room for every mesh of its grid: no vertex has a number, and no error is kept.
///
/// For meshes that go on: `more` and `restore` cost what they change, and not what the heights are. Room is reserved
/// and written as far as meshes need it: a byte for each splittable triangle, and eight for each triangle of a mesh.
#[derive(Drop)]
pub struct SplitSet {
    n: u32,
    /// For each address below the finest level, whether it is split.
    flags: Vec<bool>,
    /// Room for what is split in a call.
    log: Vec<Tri>,
    leaves: Vec<Tri>,
}

impl Model for SplitSet {
    ghost use Rattle.std.specs.Prelude.{vec_capacity};
    ghost use Rattle.fit_mesh.specs.Splits.{SplitMesh, IsSplitSet};

    ghost Value = { SplitMesh };

    ghost view = { λ s. record { n = s.n; leaves = s.leaves.items } };

    ghost invariant = { λ s. IsSplitSet s.n s.flags.items s.leaves.items (vec_capacity s.log)
        (vec_capacity s.leaves) };
}

impl SplitSet {
    ghost use Rattle.std.specs.Prelude.{◌≡◌, ℕ, ◌+◌, ◌*◌, ◌^◌, ◌<◌, ◌≤◌, ◌↔◌, ◌∷◌, [], Bool, IsTrue, IfOk, All, true, false, length};
    ghost use Rattle.std.specs.BinaryHeap.{heap_capacity};
    ghost use Rattle.mesh_defs.specs.Triangle.{level_of};
    ghost use Rattle.mesh_defs.specs.ClosedSet.{leaves_of};
    ghost use Rattle.mesh_defs.specs.Priority.{worst_of};
    ghost use Rattle.mesh_defs.specs.declared.level.TheConstants.{GREATEST_LEVEL};
    ghost use Rattle.mesh_laws.specs.Ancestors.{ancestors_of};
    ghost use Rattle.fit_laws.specs.Required.{IsLeastMeshWith};
    ghost use Rattle.fit_laws.specs.Error.{error_of};
    ghost use Rattle.fit_mesh.specs.Found.{IsFound};
    ghost use Rattle.fit_mesh.specs.Limit.{tolerance_of, error_within, IsComplete};
    ghost use Rattle.fit_mesh.specs.Required.{is_required, or_required, IsAskable};
    ghost use Rattle.fit_mesh.specs.Splits.{IsMeshListed, IsGrownFrom};

    /// Room for meshes of the grid of side 2^n; the mesh is the two halves of the square.
    pub fn make(alloc: Global, n: u32) -> Result<SplitSet, NoMemory>
        requires in_grid { (1 ≤ n) × (n ≤ GREATEST_LEVEL) }
        ensures n { IfOk result (λ s. s.n ≡ n) }
        ensures base { IfOk result (λ s. s.leaves ≡ 2 ∷ (3 ∷ [])) }
    {
        let flags = vec![in alloc; false; end(n) as usize]?;
        let log = Vec::with_capacity(alloc, end(n) as usize)?;
        let mut leaves = Vec::with_capacity(alloc, end(n) as usize)?;
        list_set(&flags, n, &mut leaves);
        Ok(SplitSet {
            n,
            flags,
            log,
            leaves,
        })
    }

    /// The mesh of the fewest triangles within a limit, in which all that is required is split, becomes the mesh. Takes
    /// no memory.
    ///
    /// The order of what is required, and how often it is listed, change nothing.
    /// Cost (not proved): the error of each triangle that is split, and of its children; some steps a level for each
    /// point that is required.
    pub fn fit(&mut self, grid: &Grid, limit: Limit, required: Required)
        requires grid { grid.now.n ≡ self.old.n }
        requires complete { IsComplete grid.now.n limit }
        requires askable { IsAskable grid.now.n required }
        ensures n { self.new.n ≡ self.old.n }

        // Conforming, no triangle above the tolerance, and all that is required is split; each such list splits
        // all that is split here, has at least as many triangles, and each of them lies in one of these.
        ensures least { let e = error_within grid.now.n grid.now.heights limit.entry in
            IsLeastMeshWith grid.now.n (tolerance_of limit.entry) e (is_required grid.now.n required.entry)
            self.new.leaves }
        ensures listed { IsMeshListed grid.now.n self.new.leaves }
    {
        settle_anew(grid, limit, required, &mut self.flags, &mut self.log);
        list_set(&self.flags, self.n, &mut self.leaves);
    }

    /// Goes on from the mesh: splits what is required, and of what comes with that whatever is off by more than the
    /// limit. Takes no memory.
    ///
    /// After `fit` or `more` for the same limit, or the same mesh restored, it is the mesh of `fit` for all that was
    /// required. Leaves that stay are not asked.
    /// Cost (not proved): the errors of the children of what is newly split, and a step for each triangle.
    pub fn more(&mut self, grid: &Grid, limit: Limit, required: Required)
        requires grid { grid.now.n ≡ self.old.n }
        requires complete { IsComplete grid.now.n limit }
        requires askable { IsAskable grid.now.n required }
        ensures n { self.new.n ≡ self.old.n }

        // Where the mesh was a least one with something required, it is that of this and what is required now.
        ensures least { let e = error_within grid.now.n grid.now.heights limit.entry in (earlier : ℕ → Bool) →
            IsLeastMeshWith grid.now.n (tolerance_of limit.entry) e earlier self.old.leaves →
            IsLeastMeshWith grid.now.n (tolerance_of limit.entry) e
            (or_required grid.now.n earlier required.entry) self.new.leaves }

        // Whatever the mesh was, just this is split: what it splits, what is required, and of what comes with that
        // whatever is off by more.
        ensures grown { let e = error_within grid.now.n grid.now.heights limit.entry in
            IsGrownFrom grid.now.n (tolerance_of limit.entry) e (ancestors_of self.old.leaves)
            (is_required grid.now.n required.entry) (ancestors_of self.new.leaves) }
        ensures listed { IsMeshListed grid.now.n self.new.leaves }
    {
        settle_more(grid, limit, required, &mut self.flags, &mut self.log);
        list_set(&self.flags, self.n, &mut self.leaves);
    }

    /// The mesh for a tolerance and a budget becomes the mesh; the answer is its greatest error.
    pub(crate) fn find(
        &mut self,
        grid: &Grid,
        tolerance: u32,
        budget: u32,
        heap: &mut BinaryHeap<(u32, u32)>,
    ) -> u32
        requires grid { grid.now.n ≡ self.old.n }
        requires some { 2 ≤ budget }
        requires capacity { budget < 2 ^ (2 * grid.now.n + 1) → 2 * budget ≤ heap_capacity heap.old }
        ensures n { self.new.n ≡ self.old.n }
        ensures capacity { heap_capacity heap.old ≤ heap_capacity heap.new }
        ensures found { let e = error_of grid.now.n grid.now.heights in (has : ℕ → Bool)
            × (self.new.leaves ≡ leaves_of grid.now.n has) × IsFound grid.now.n tolerance budget e has }
        ensures worst { result ≡ worst_of (error_of grid.now.n grid.now.heights) self.new.leaves }
    {
        let known = find(
            grid,
            tolerance,
            budget,
            heap,
            &mut self.flags,
            &mut self.log,
        );
        list_set(&self.flags, self.n, &mut self.leaves);
        match known {
            Some(worst) => worst,
            None => worst_within(grid, &self.leaves, tolerance),
        }
    }

    /// The mesh of these addresses becomes the mesh, and the answer is whether they are a mesh of the grid, listed depth
    /// first, as `leaves` lists it. Takes no memory.
    ///
    /// Cost (not proved): a step for each triangle, and a clearing of the flags.
    pub fn restore(&mut self, addresses: &[u32]) -> bool
        ensures n { self.new.n ≡ self.old.n }
        ensures mesh { IsTrue result ↔ IsMeshListed self.old.n addresses.now }
        ensures put { result ≡ true → self.new.leaves ≡ addresses.now }
        ensures kept { result ≡ false → self.new.leaves ≡ self.old.leaves }
    {
        let n = self.n;
        if !are_addresses(n, addresses) {
            return false;
        }
        split_above_numbers(&mut self.flags, &mut self.log, n, addresses);
        list_set(&self.flags, n, &mut self.log);
        if are_numbers_of(&self.log, addresses) {
            swap(&mut self.leaves, &mut self.log);
            return true;
        }
        split_above_all(&mut self.flags, &mut self.log, n, &self.leaves);
        false
    }

    /// The n of the grid.
    pub fn n(&self) -> u32
        ensures value { result ≡ self.now.n }
        ensures low { 1 ≤ result }
        ensures high { result ≤ GREATEST_LEVEL }
    {
        self.n
    }

    /// The triangles of the mesh, depth first: 2 before 3, and left child before right child.
    pub fn leaves(&self) -> &[Tri]
        ensures value { result.now ≡ self.now.leaves }
        ensures listed { IsMeshListed self.now.n self.now.leaves }
        ensures levels { All (λ a. level_of a ≤ 2 * self.now.n) result.now }
    {
        &self.leaves
    }

    /// How many triangles the mesh has.
    pub fn triangles(&self) -> u32
        ensures { result ≡ length self.now.leaves }
    {
        self.leaves.len() as u32
    }

    /// Whether the triangle is split.
    pub fn is_split(&self, t: Tri) -> bool
        ensures { result ≡ ancestors_of self.now.leaves t }
    {
        is_set(&self.flags, t)
    }
}
