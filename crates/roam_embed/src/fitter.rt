//! A fitter: the heights of a grid, and a mesh of them that goes on.

ghost use Rattle.std.specs.Prelude.{◌≡◌, ◌≢◌, ℕ, ◌∷◌, [], IfOk, IfErr};
ghost use Rattle.roam_embed.specs.Grid.{IsGridAnswer};
ghost use Rattle.roam_embed.specs.Fitter.{IsFitterOpened, IsMeshFitted, IsMeshRefined};
ghost use Rattle.roam_embed.specs.Fitter.{IsMeshRestored, IsFitterDeviationTold};
ghost use Rattle.roam_embed.specs.Listed.{AreIndicesOf, AreNumbersTold};
ghost use Rattle.roam_embed.specs.Border.{border_of};

use crate::answer::Answer;
use crate::asked::{are_places, are_tolerances, limit_of, put_scaled};
use crate::border::list_border;
use crate::make::level_of_count;
use crate::mesh::{put_addresses, put_indices, put_numbers};
use crate::notes::Deviation;
use fit_laws::error_laws;
use fit_mesh::{Required, SplitSet, worst_error};
use frame_loop::{Grid, NoMemory};
use std::alloc::Global;
use std::marker::Model;

/// The heights of a grid, and a mesh of it.
#[derive(Drop)]
pub struct Fitter {
    grid: Grid,
    set: SplitSet,
    /// Room for a number of each grid point: its own tolerance, or the place of a vertex.
    room: Vec<u32>,
}

impl Model for Fitter {
    ghost use Rattle.std.specs.Prelude.{vec_capacity};
    ghost use Rattle.roam_embed.specs.FitterState.{FitterState, IsFitterKept};

    ghost Value = { FitterState };

    ghost view = { λ f. record { grid = f.grid; leaves = f.set.leaves } };

    ghost invariant = { λ f. IsFitterKept f.grid.n f.set.n (vec_capacity f.room) };
}

/// A fitter of these heights, in file order: rows from the top, each from left to right. They are copied.
///
/// The mesh is the two halves of the square. All memory is taken here: no other call takes any.
pub fn open_fitter(alloc: Global, heights: &[u16]) -> Result<Fitter, Answer>
    ensures opened { IfOk result (λ f. IsFitterOpened heights.now f) }
    ensures fits { IfOk result (λ f. IsGridAnswer heights.now Answer.Done) }
    ensures refused { IfErr result (λ answer. IsGridAnswer heights.now answer) }
    ensures cause { IfErr result (λ answer. answer ≢ Answer.Done) }
{
    let n = match level_of_count(heights.len()) {
        Some(n) => n,
        None => return Err(Answer::BadGrid),
    };
    match Fitter::make(alloc, n, heights) {
        Ok(fitter) => Ok(fitter),
        Err(_) => Err(Answer::NoMemory),
    }
}

/// The mesh of the fewest triangles within the tolerance in which each required grid point is a vertex becomes the mesh,
/// and how many triangles it has is told.
///
/// Required are places in the heights, in any order and as often as one likes. Tolerances are in thousandths of a unit of
/// height: one for all points, or, where there are any, one of each point; of these the greatest number says that the
/// point does not count.
/// Cost (not proved): that of `SplitSet::fit`, and a step for each point that has its own tolerance.
pub fn fit_points(
    f: &mut Fitter,
    thousandths: u32,
    tolerances: &[u32],
    required: &[u32],
    told: &mut u32,
) -> Answer
    ensures { IsMeshFitted f.old f.new thousandths tolerances.now required.now told.old told.new result }
{
    let n = f.grid.n();
    if !are_places(n, required) {
        return Answer::OutsideGrid;
    }
    if !are_tolerances(n, thousandths, tolerances) {
        return Answer::BadTolerance;
    }
    f.fit(thousandths, tolerances, required);
    *told = f.set.triangles();
    Answer::Done
}

/// The same, going on from the mesh, which keeps what it splits: where that was the answer of `fit_points` or this call
/// for the same tolerances, or the same mesh restored, it is that of `fit_points` for all that was required.
///
/// Cost (not proved): that of `SplitSet::more`, and a step for each point that has its own tolerance.
pub fn refine_points(
    f: &mut Fitter,
    thousandths: u32,
    tolerances: &[u32],
    required: &[u32],
    told: &mut u32,
) -> Answer
    ensures { IsMeshRefined f.old f.new thousandths tolerances.now required.now told.old told.new result }
{
    let n = f.grid.n();
    if !are_places(n, required) {
        return Answer::OutsideGrid;
    }
    if !are_tolerances(n, thousandths, tolerances) {
        return Answer::BadTolerance;
    }
    f.more(thousandths, tolerances, required);
    *told = f.set.triangles();
    Answer::Done
}

/// The mesh of these addresses, as `tell_fitter_leaves` wrote them for a grid of this side, becomes the mesh.
pub fn restore_mesh(f: &mut Fitter, addresses: &[u32]) -> Answer
    ensures { IsMeshRestored f.old f.new addresses.now result }
{
    if f.set.restore(addresses) {
        Answer::Done
    } else {
        Answer::BadMesh
    }
}

/// Writes three indices of heights for each triangle of the mesh, depth first, and how many triangles there are.
pub fn tell_fitter_indices(f: &Fitter, out: &mut [u32], triangles: &mut usize) -> Answer
    ensures { AreIndicesOf f.now.grid.n f.now.leaves out.old out.new triangles.old triangles.new result }
{
    put_indices(f.grid.n(), f.set.leaves(), out, triangles)
}

/// Writes the addresses of the triangles of the mesh, depth first, and how many there are.
pub fn tell_fitter_leaves(f: &Fitter, out: &mut [u32], triangles: &mut usize) -> Answer
    ensures { AreNumbersTold f.now.leaves out.old out.new triangles.old triangles.new result }
{
    put_addresses(f.set.leaves(), out, triangles)
}

/// Writes the places of the vertices on the border that are no corners of the square, rising, and how many there are.
///
/// Cost (not proved): some steps a level for each grid point on the border.
pub fn tell_border(f: &mut Fitter, out: &mut [u32], count: &mut usize) -> Answer
    ensures same { f.new ≡ f.old }
    ensures told { AreNumbersTold (border_of f.old.grid.n f.old.leaves) out.old out.new count.old count.new result }
{
    list_border(&f.set, &mut f.room);
    put_numbers(&f.room, out, count)
}

/// Tells how far the surface is from the mesh at a grid point, at most.
///
/// Cost (not proved): a step for each grid point that a triangle holds, for each triangle.
pub fn tell_fitter_deviation(f: &Fitter, out: &mut Deviation) -> Answer
    ensures { IsFitterDeviationTold f.now out.new result }
{
    error_laws();
    *out = Deviation {
        off: u64::from(worst_error(&f.grid, f.set.leaves())),
        over: 1 << f.grid.n(),
    };
    Answer::Done
}

impl Fitter {
    ghost use Rattle.std.specs.Prelude.{◌≡◌, ℕ, ◌∷◌, [], ◌||◌, Bool, IfOk, length};
    ghost use Rattle.mesh_laws.specs.Ancestors.{ancestors_of};
    ghost use Rattle.fit_laws.specs.Required.{IsLeastMeshWith};
    ghost use Rattle.fit_mesh.specs.Required.{is_centred_at};
    ghost use Rattle.fit_mesh.specs.Splits.{IsMeshListed, IsGrownFrom};
    ghost use Rattle.roam_embed.specs.Grid.{IsPointCount};
    ghost use Rattle.roam_embed.specs.Asked.{scaled, AreTolerances, ArePlaces, tolerance_for, error_for};

    /// The heights.
    pub(crate) fn grid(&self) -> &Grid
        ensures { result.now ≡ self.now.grid }
    {
        &self.grid
    }

    /// The mesh.
    pub(crate) fn set(&self) -> &SplitSet
        ensures n { result.now.n ≡ self.now.grid.n }
        ensures leaves { result.now.leaves ≡ self.now.leaves }
    {
        &self.set
    }

    /// The mesh of the fewest triangles within the tolerances in which each required point is a vertex becomes the mesh.
    pub(crate) fn fit(&mut self, thousandths: u32, tolerances: &[u32], required: &[u32])
        requires places { ArePlaces self.old.grid.n required.now }
        requires tolerances { AreTolerances self.old.grid.n thousandths tolerances.now }
        ensures grid { self.new.grid ≡ self.old.grid }
        ensures least { let n = self.old.grid.n in let own = scaled n tolerances.now in
            IsLeastMeshWith n (tolerance_for n thousandths own) (error_for n self.old.grid.heights own)
            (is_centred_at n required.now) self.new.leaves }
        ensures listed { IsMeshListed self.old.grid.n self.new.leaves }
    {
        let n = self.grid.n();
        put_scaled(n, tolerances, &mut self.room);
        let limit = limit_of(n, thousandths, &self.room);
        self.set.fit(&self.grid, limit, Required::Points(required));
    }

    /// The same, going on from the mesh.
    fn more(&mut self, thousandths: u32, tolerances: &[u32], required: &[u32])
        requires places { ArePlaces self.old.grid.n required.now }
        requires tolerances { AreTolerances self.old.grid.n thousandths tolerances.now }
        ensures grid { self.new.grid ≡ self.old.grid }
        ensures least { let n = self.old.grid.n in let own = scaled n tolerances.now in (earlier : ℕ → Bool) →
            IsLeastMeshWith n (tolerance_for n thousandths own) (error_for n self.old.grid.heights own) earlier
            self.old.leaves →
            IsLeastMeshWith n (tolerance_for n thousandths own) (error_for n self.old.grid.heights own)
            (λ a. earlier a || is_centred_at n required.now a) self.new.leaves }
        ensures grown { let n = self.old.grid.n in let own = scaled n tolerances.now in
            IsGrownFrom n (tolerance_for n thousandths own) (error_for n self.old.grid.heights own)
            (ancestors_of self.old.leaves) (is_centred_at n required.now) (ancestors_of self.new.leaves) }
        ensures listed { IsMeshListed self.old.grid.n self.new.leaves }
    {
        let n = self.grid.n();
        put_scaled(n, tolerances, &mut self.room);
        let limit = limit_of(n, thousandths, &self.room);
        self.set.more(&self.grid, limit, Required::Points(required));
    }

    /// A fitter of a grid of these heights.
    pub(crate) fn make(alloc: Global, n: u32, heights: &[u16]) -> Result<Fitter, NoMemory>
        requires count { IsPointCount (length heights.now) n }
        ensures grid { IfOk result (λ f. f.grid ≡ record { n = n; maxval = 65535; heights = heights.now }) }
        ensures leaves { IfOk result (λ f. f.leaves ≡ 2 ∷ (3 ∷ [])) }
    {
        let grid = Grid::from_heights(n, u16::MAX, heights.to_vec(alloc)?);
        let set = SplitSet::make(alloc, n)?;
        let room = Vec::with_capacity(alloc, heights.len())?;
        Ok(Fitter { grid, set, room })
    }
}
