//! The mesh of heights alone with required points, in one call.

ghost use Rattle.std.specs.Prelude.{◌≡◌, ◌⊎◌, ◌*◌, ◌^◌, ◌<◌, ◌≤◌, ◌↔◌, ◌++◌, length, drop};
ghost use Rattle.mesh_defs.specs.MeshText.{vertices_of};
ghost use Rattle.fit_laws.specs.PlaneHeight.{deviation_of};
ghost use Rattle.mesh_arrays.specs.Indices.{indices_of};
ghost use Rattle.roam_embed.specs.FitWith.{IsFitWithTold};

use crate::answer::Answer;
use crate::asked::{are_places, are_tolerances};
use crate::fitter::Fitter;
use crate::make::level_of_count;
use crate::notes::Fitted;
use fit_laws::error_laws;
use fit_mesh::worst_error;
use mesh_arrays::write_indices;
use obj_write::VertexTable;
use std::alloc::Global;

/// Writes three indices of heights for each triangle of the mesh of the fewest triangles within the tolerance in which
/// each required grid point is a vertex, and tells of it.
///
/// Of tolerances and required points as `fit_points`. There has to be room for the mesh that is found.
/// Cost (not proved): that of `open_fitter` and `fit_points`, and a step for each grid point that a triangle holds. Takes
/// up to 26 bytes for each grid point, as far as the mesh needs it, and gives them back.
pub fn tell_fit_with(
    alloc: Global,
    heights: &[u16],
    thousandths: u32,
    tolerances: &[u32],
    required: &[u32],
    out: &mut [u32],
    told: &mut Fitted,
) -> Answer
    ensures { IsFitWithTold heights.now thousandths tolerances.now required.now out.old out.new
        told.old told.new result }
{
    let n = match level_of_count(heights.len()) {
        Some(n) => n,
        None => return Answer::BadGrid,
    };
    if !are_places(n, required) {
        return Answer::OutsideGrid;
    }
    if !are_tolerances(n, thousandths, tolerances) {
        return Answer::BadTolerance;
    }
    match Fitter::make(alloc, n, heights) {
        Ok(mut fitter) => {
            fitter.fit(thousandths, tolerances, required);
            tell_fitted(alloc, &fitter, out, told)
        }
        Err(_) => Answer::NoMemory,
    }
}

/// Writes the indices of a fitter's mesh, and tells of it.
pub(crate) fn tell_fitted(
    alloc: Global,
    fitter: &Fitter,
    out: &mut [u32],
    told: &mut Fitted,
) -> Answer
    ensures others { (result ≡ Answer.Done) ⊎ ((result ≡ Answer.NoRoom) ⊎ (result ≡ Answer.NoMemory)) }
    ensures no_room { result ≡ Answer.NoRoom → length out.old < 3 * length fitter.now.leaves }
    ensures written { result ≡ Answer.Done → out.new
        ≡ indices_of fitter.now.grid.n fitter.now.leaves ++ drop (3 * length fitter.now.leaves) out.old }
    ensures off { result ≡ Answer.Done → told.new.off
        ≡ deviation_of fitter.now.grid.n fitter.now.grid.heights fitter.now.leaves }
    ensures over { result ≡ Answer.Done → told.new.over ≡ 2 ^ fitter.now.grid.n }
    ensures triangles { result ≡ Answer.Done → told.new.triangles ≡ length fitter.now.leaves }
    ensures vertices { result ≡ Answer.Done → told.new.vertices
        ≡ length (vertices_of fitter.now.grid.n fitter.now.leaves) }
    ensures unwritten { (result ≡ Answer.Done → ⊥) → out.new ≡ out.old }
    ensures untold { (result ≡ Answer.Done → ⊥) → told.new ≡ told.old }
{
    error_laws();
    let set = fitter.set();
    let n = set.n();
    let leaves = set.leaves();
    if out.len() / 3 < leaves.len() {
        return Answer::NoRoom;
    }
    match VertexTable::new(alloc, n) {
        Ok(mut numbers) => {
            write_indices(n, leaves, out);
            *told = Fitted {
                off: u64::from(worst_error(fitter.grid(), leaves)),
                over: 1 << n,
                triangles: set.triangles(),
                vertices: numbers.number(leaves, n),
            };
            Answer::Done
        }
        Err(_) => Answer::NoMemory,
    }
}
