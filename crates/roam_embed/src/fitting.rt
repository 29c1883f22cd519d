//! The mesh of the heights alone, for a tolerance and a budget.

ghost use Rattle.std.specs.Prelude.{◌≡◌, ◌*◌, ◌^◌, ◌<◌, ◌≤◌, ◌++◌, ℕ, List, length, drop};
ghost use Rattle.mesh_defs.specs.declared.level.TheConstants.{GREATEST_LEVEL};
ghost use Rattle.mesh_arrays.specs.Indices.{indices_of};
ghost use Rattle.roam_embed.specs.Fitting.{fit_tolerance_of, most_triangles, IsFit, IsFitTold};

use crate::answer::Answer;
use crate::notes::Fitted;
use address_flags::end;
use fit_mesh::Fit;
use frame_loop::{Engine, Grid};
use mesh_arrays::write_indices;
use mesh_defs::GREATEST_ERROR;
use mesh_laws::{conformity_laws, set_leaf_laws};
use std::alloc::Global;

/// The greatest tolerance, in thousandths of a unit of height: no mesh is off by more.
pub const GREATEST_TOLERANCE: u32 = GREATEST_ERROR;

/// Writes three indices of heights for each triangle of the mesh for a tolerance, whatever the view, and tells of it.
///
/// The tolerance is in thousandths of a unit of height. No mesh within it has fewer triangles; where these are more
/// than the budget, it is the mesh of the budget that is off by the least. There has to be room for any mesh of the
/// budget.
/// Cost (not proved): that of `Fit::make` and `Fit::frame`. Takes about 22 bytes for each grid point, and 16 more
/// for each triangle of a budget below that of all finest triangles, and gives them back.
pub fn tell_fit(
    alloc: Global,
    engine: &Engine,
    thousandths: u32,
    budget: u32,
    out: &mut [u32],
    told: &mut Fitted,
) -> Answer
    ensures { IsFitTold engine.now.state.grid thousandths budget out.old out.new told.old told.new result }
{
    let grid = engine.grid();
    if budget < 2 {
        return Answer::BadBudget;
    }
    if out.len() / 3 < most_triangles(grid.n(), budget) {
        return Answer::NoRoom;
    }
    if thousandths > GREATEST_TOLERANCE {
        return Answer::BadTolerance;
    }
    match Fit::make(alloc, grid.n(), budget) {
        Ok(mut fit) => {
            *told = fit_into(&mut fit, grid, thousandths, out);
            Answer::Done
        }
        Err(_) => Answer::NoMemory,
    }
}

/// Makes the mesh and writes its indices.
fn fit_into(fit: &mut Fit, grid: &Grid, thousandths: u32, out: &mut [u32]) -> Fitted
    requires grid { grid.now.n ≡ fit.old.n }
    requires room { 3 * most_triangles grid.now.n fit.old.budget ≤ length out.old }
    requires low { thousandths ≤ GREATEST_TOLERANCE }
    ensures { (leaves : List ℕ) × IsFit grid.now thousandths fit.old.budget leaves result
        × (out.new ≡ indices_of grid.now.n leaves ++ drop (3 * length leaves) out.old) }
{
    conformity_laws();
    set_leaf_laws();
    let n = grid.n();
    let note = fit.frame(grid, tolerance(n, thousandths));
    write_indices(n, fit.leaves(), out);
    Fitted {
        off: u64::from(note.deviation),
        over: 1 << n,
        triangles: note.triangles,
        vertices: note.vertices,
    }
}

/// A tolerance in thousandths of a unit of height, times 2^n, rounded down.
pub(crate) fn tolerance(n: u32, thousandths: u32) -> u32
    requires in_grid { n ≤ GREATEST_LEVEL }
    requires low { thousandths ≤ GREATEST_TOLERANCE }
    ensures { result ≡ fit_tolerance_of n thousandths }
{
    ((u64::from(thousandths) << n) / 1000) as u32
}

/// The most triangles that a mesh of the budget can have.
fn most_triangles(n: u32, budget: u32) -> usize
    requires in_grid { (1 ≤ n) × (n ≤ GREATEST_LEVEL) }
    ensures { result ≡ most_triangles n budget }
{
    budget.min(end(n)) as usize
}
