//! The mesh, and the room that it is made in.

ghost use Rattle.std.specs.Prelude.{◌≡◌, ◌+◌, ◌*◌, ◌^◌, ◌<◌, ◌≤◌, ◌↔◌, ◌∷◌, [], All, IsTrue, IfOk};
ghost use Rattle.std.specs.Prelude.{length};
ghost use Rattle.mesh_defs.specs.HeightField.{side_of};
ghost use Rattle.mesh_defs.specs.Triangle.{IsSplittable};
ghost use Rattle.mesh_defs.specs.Tiling.{IsConforming};
ghost use Rattle.mesh_defs.specs.ClosedSet.{leaves_of, among};
ghost use Rattle.mesh_defs.specs.MeshText.{vertices_of};
ghost use Rattle.mesh_defs.specs.declared.level.TheConstants.{GREATEST_LEVEL};
ghost use Rattle.mesh_laws.specs.Ancestors.{ancestors_of};
ghost use Rattle.fit_laws.specs.PlaneHeight.{deviation_of};
ghost use Rattle.mesh_laws.specs.Least.{IsLeastMesh};
ghost use Rattle.obj_write.specs.Numbers.{numbers_of};
ghost use Rattle.fit_laws.specs.Error.{error_of};
ghost use Rattle.fit_laws.specs.Budget.{IsBudgetMesh};
ghost use Rattle.fit_laws.specs.Required.{IsLeastMeshWith};
ghost use Rattle.fit_laws.specs.Excess.{excess_of};
ghost use Rattle.fit_mesh.specs.Limit.{tolerance_of, error_within, IsComplete};
ghost use Rattle.fit_mesh.specs.Required.{is_required, IsAskable};

use crate::limit::{Limit, worst_under};
use crate::required::Required;
use crate::splits::SplitSet;
use address_flags::end;
use bintree_addr::Tri;
use mesh_defs::NoMemory;
use obj_write::VertexTable;
use pgm_grid::Grid;
use std::alloc::Global;
use std::collections::BinaryHeap;
use std::marker::Model;

/// The mesh of the last frame, with the numbers of its vertices, in room for every mesh of its grid.
///
/// At n = 11 it takes up to 92 MB, as far as meshes need it: a byte for each splittable triangle, four for each grid
/// point, and eight for each triangle of a mesh; and, where the budget is below all finest triangles, 16 bytes for each
/// of its triangles.
#[derive(Drop)]
pub struct Fit {
    /// The most triangles of a mesh.
    budget: u32,
    set: SplitSet,
    numbers: VertexTable,
    /// Room for the leaves that wait for a split.
    heap: BinaryHeap<(u32, u32)>,
}

impl Model for Fit {
    ghost use Rattle.std.specs.BinaryHeap.{heap_capacity};
    ghost use Rattle.fit_mesh.specs.Kept.{FitMesh, IsKeptForFit};

    ghost Value = { FitMesh };

    ghost view = { λ f. record { n = f.set.n; budget = f.budget; leaves = f.set.leaves } };

    ghost invariant = { λ f. IsKeptForFit f.set.n f.budget f.set.leaves f.numbers (heap_capacity f.heap) };
}

/// What a frame tells of its mesh.
#[derive(Clone, Copy, Debug, PartialEq, Eq)]
pub struct FitNote {
    /// How many triangles the mesh has.
    pub triangles: u32,
    /// How many vertices it has.
    pub vertices: u32,
    /// How far the surface is from the mesh at a grid point, at most, in units of height, times 2^n.
    pub deviation: u32,
}

impl Fit {
    /// Room for meshes of the grid of side 2^n, of at most `budget` triangles each; the mesh is the two halves
    /// of the square.
    ///
    /// A budget of 2 * 4^n, the number of finest triangles, or more is no bound.
    pub fn make(alloc: Global, n: u32, budget: u32) -> Result<Fit, NoMemory>
        requires in_grid { (1 ≤ n) × (n ≤ GREATEST_LEVEL) }
        requires some { 2 ≤ budget }
        ensures n { IfOk result (λ f. f.n ≡ n) }
        ensures budget { IfOk result (λ f. f.budget ≡ budget) }
        ensures base { IfOk result (λ f. f.leaves ≡ 2 ∷ (3 ∷ [])) }
    {
        let set = SplitSet::make(alloc, n)?;
        let mut numbers = VertexTable::new(alloc, n)?;
        numbers.number(set.leaves(), n);
        let heap = BinaryHeap::with_capacity(alloc, waiting_room(n, budget))?;
        Ok(Fit {
            budget,
            set,
            numbers,
            heap,
        })
    }

    /// The best mesh of a height field for a tolerance, in units of height, times 2^n, becomes the mesh: no
    /// triangle has an error above the tolerance, and there are as few as can be; or, where these are more than
    /// the budget, the greatest error is the least that a mesh of the budget can have, and for that there are as
    /// few as can be. Takes no memory.
    ///
    /// With a tolerance of 0 it is the mesh of the budget with the least error; with a budget that is no
    /// bound, the mesh of the fewest triangles for the tolerance.
    /// Cost (not proved): the error of each triangle that is split, and of its children; for a budget a few
    /// steps for each doubling of the number of leaves that wait; the cost of `VertexTable::number`.
    pub fn frame(&mut self, grid: &Grid, tolerance: u32) -> FitNote
        requires grid { grid.now.n ≡ self.old.n }
        ensures n { self.new.n ≡ self.old.n }
        ensures budget { self.new.budget ≡ self.old.budget }

        // Conforming, no triangle above the deviation; each such list splits all that is split here, has at
        // least as many triangles, and each of them lies in one of these.
        ensures least { let e = error_of grid.now.n grid.now.heights in
            IsLeastMesh grid.now.n result.deviation e self.new.leaves }

        // The same for the tolerance, where the mesh is within it.
        ensures fewest { let e = error_of grid.now.n grid.now.heights in
            result.deviation ≤ tolerance → IsLeastMesh grid.now.n tolerance e self.new.leaves }

        // Or else no conforming list within the budget has a lower greatest error.
        ensures best { let e = error_of grid.now.n grid.now.heights in
            tolerance < result.deviation →
            IsBudgetMesh grid.now.n self.old.budget e self.new.leaves }

        // Depth first: the list is that of the leaves of what was split.
        ensures order { leaves_of grid.now.n (ancestors_of self.new.leaves) ≡ self.new.leaves }
        ensures deviation { result.deviation
            ≡ deviation_of grid.now.n grid.now.heights self.new.leaves }
        ensures triangles { result.triangles ≡ length self.new.leaves }
        ensures vertices { result.vertices ≡ length (vertices_of grid.now.n self.new.leaves) }
        ensures within { length self.new.leaves ≤ self.old.budget }
    {
        let worst = self.set.find(grid, tolerance, self.budget, &mut self.heap);
        told(&self.set, &mut self.numbers, worst)
    }

    /// The mesh of the fewest triangles for a tolerance, in units of height, times 2^n, in which these triangles are
    /// split, becomes the mesh. So the midpoint of the base of each of them is a vertex. Takes no memory.
    ///
    /// With nothing required it is the mesh of `frame` for a budget that is no bound. The budget is not looked at:
    /// what is required may take more triangles. Their order, and how often one is listed, change nothing.
    /// Cost (not proved): that of `frame` for such a budget, and a step for each required triangle and for each that
    /// it forces.
    pub fn frame_with(&mut self, grid: &Grid, tolerance: u32, required: &[Tri]) -> FitNote
        requires grid { grid.now.n ≡ self.old.n }
        requires splittable { All (λ a. IsSplittable grid.now.n a) required.now }
        ensures n { self.new.n ≡ self.old.n }
        ensures budget { self.new.budget ≡ self.old.budget }

        // Conforming, no triangle above the tolerance, and all that is required is split; each such list splits
        // all that is split here, has at least as many triangles, and each of them lies in one of these.
        ensures least { let e = error_of grid.now.n grid.now.heights in
            IsLeastMeshWith grid.now.n tolerance e (among required.now) self.new.leaves }

        // Depth first: the list is that of the leaves of what was split.
        ensures order { leaves_of grid.now.n (ancestors_of self.new.leaves) ≡ self.new.leaves }
        ensures deviation { result.deviation
            ≡ deviation_of grid.now.n grid.now.heights self.new.leaves }
        ensures triangles { result.triangles ≡ length self.new.leaves }
        ensures vertices { result.vertices ≡ length (vertices_of grid.now.n self.new.leaves) }
    {
        let required = Required::Triangles(required);
        self.frame_for(grid, Limit::Common(tolerance), required)
    }

    /// The mesh of the fewest triangles within the tolerances of the grid points, in which these triangles are split,
    /// becomes the mesh: at no point that a triangle holds is the surface farther from its plane than the point's own
    /// tolerance. Takes no memory.
    ///
    /// Tolerances are by grid point, in row order as heights are, in units of height, times 2^n. One of `u32::MAX` is
    /// met by every height, so such a point does not count: where there are no data, at sea, or outside an area. With
    /// one tolerance for all points it is the mesh of `frame_with` (`fit_laws`). The deviation of the note is
    /// over all grid points, those that do not count too.
    /// Cost (not proved): that of `frame_with`, but a product more for each grid point of a triangle that is asked.
    pub fn frame_within(&mut self, grid: &Grid, tolerances: &[u32], required: &[Tri]) -> FitNote
        requires grid { grid.now.n ≡ self.old.n }
        requires complete { length tolerances.now ≡ side_of grid.now.n * side_of grid.now.n }
        requires splittable { All (λ a. IsSplittable grid.now.n a) required.now }
        ensures n { self.new.n ≡ self.old.n }
        ensures budget { self.new.budget ≡ self.old.budget }

        // Conforming, no point off by more than its tolerance, and all that is required is split; each such list
        // splits all that is split here, has at least as many triangles, and each of them lies in one of these.
        ensures least { let e = excess_of grid.now.n grid.now.heights tolerances.now in
            IsLeastMeshWith grid.now.n 0 e (among required.now) self.new.leaves }

        // Depth first: the list is that of the leaves of what was split.
        ensures order { leaves_of grid.now.n (ancestors_of self.new.leaves) ≡ self.new.leaves }
        ensures deviation { result.deviation
            ≡ deviation_of grid.now.n grid.now.heights self.new.leaves }
        ensures triangles { result.triangles ≡ length self.new.leaves }
        ensures vertices { result.vertices ≡ length (vertices_of grid.now.n self.new.leaves) }
    {
        let required = Required::Triangles(required);
        self.frame_for(grid, Limit::Own(tolerances), required)
    }

    /// The mesh of the fewest triangles within a limit, in which all that is required is split, becomes the mesh: what
    /// `frame_with` and `frame_within` say of limits and of triangles, and of required points too. Takes no memory.
    pub fn frame_for(&mut self, grid: &Grid, limit: Limit, required: Required) -> FitNote
        requires grid { grid.now.n ≡ self.old.n }
        requires complete { IsComplete grid.now.n limit }
        requires askable { IsAskable grid.now.n required }
        ensures n { self.new.n ≡ self.old.n }
        ensures budget { self.new.budget ≡ self.old.budget }
        ensures least { let e = error_within grid.now.n grid.now.heights limit.entry in
            IsLeastMeshWith grid.now.n (tolerance_of limit.entry) e (is_required grid.now.n required.entry)
            self.new.leaves }
        ensures order { leaves_of grid.now.n (ancestors_of self.new.leaves) ≡ self.new.leaves }
        ensures deviation { result.deviation
            ≡ deviation_of grid.now.n grid.now.heights self.new.leaves }
        ensures triangles { result.triangles ≡ length self.new.leaves }
        ensures vertices { result.vertices ≡ length (vertices_of grid.now.n self.new.leaves) }
    {
        self.set.fit(grid, limit, required);
        let worst = worst_under(grid, self.set.leaves(), limit);
        told(&self.set, &mut self.numbers, worst)
    }

    /// The triangles of the mesh, depth first: 2 before 3, and left child before right child.
    pub fn leaves(&self) -> &[Tri]
        ensures value { result.now ≡ self.now.leaves }
        ensures conforming { IsConforming self.now.n self.now.leaves }
    {
        self.set.leaves()
    }

    /// The numbers of the vertices of the mesh.
    pub fn numbers(&self) -> &VertexTable
        ensures value { result.now ≡ numbers_of self.now.n self.now.leaves }
    {
        &self.numbers
    }
}

/// Numbers the vertices of a mesh of this greatest error, and tells of it.
fn told(set: &SplitSet, numbers: &mut VertexTable, worst: u32) -> FitNote
    requires numbers { length numbers.old ≡ side_of set.now.n * side_of set.now.n }
    ensures deviation { result.deviation ≡ worst }
    ensures triangles { result.triangles ≡ length set.now.leaves }
    ensures vertices { result.vertices ≡ length (vertices_of set.now.n set.now.leaves) }
    ensures numbers { numbers.new ≡ numbers_of set.now.n set.now.leaves }
    ensures places { length numbers.new ≡ length numbers.old }
{
    FitNote {
        triangles: set.triangles(),
        vertices: numbers.number(set.leaves(), set.n()),
        deviation: worst,
    }
}

/// Whether each of the triangles may be split in a grid with this n, as `Fit::frame_with` asks.
pub fn are_splittable(n: u32, triangles: &[Tri]) -> bool
    requires in_grid { n ≤ GREATEST_LEVEL }
    ensures { IsTrue result ↔ All (λ a. IsSplittable n a) triangles.now }
{
    for t in triangles {
        let _number = t.number();
        if t.level() >= 2 * n {
            return false;
        }
    }
    true
}

/// How many leaves may wait at a time; none where the budget is no bound.
fn waiting_room(n: u32, budget: u32) -> usize
    requires in_grid { (1 ≤ n) × (n ≤ GREATEST_LEVEL) }
    ensures bound { budget < 2 ^ (2 * n + 1) → result ≡ 2 * budget }
    ensures no_bound { 2 ^ (2 * n + 1) ≤ budget → result ≡ 0 }
{
    if budget < end(n) {
        2 * budget as usize
    } else {
        0
    }
}
