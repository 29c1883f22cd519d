//! The mesh of triangles of any shape for heights alone, in one call.

ghost use Rattle.std.specs.Prelude.{◌≡◌, ◌⊎◌, ◌*◌, ◌/◌, ◌<◌, ◌++◌, IfOk, IfSome, length, drop};
ghost use Rattle.tin_mesh.specs.Tin.{IsTin};
ghost use Rattle.roam_embed.specs.Tins.{IsTinWritten, IsFewestWritten, IsTinTold};

use crate::answer::Answer;
use crate::asked::are_tolerances;
use crate::fitted::tell_fitted;
use crate::fitter::Fitter;
use crate::make::level_of_count;
use crate::mesh::put_numbers;
use crate::notes::Fitted;
use mesh_defs::NoMemory;
use obj_write::VertexTable;
use std::alloc::Global;
use tin_mesh::{Tin, make_tin};

/// Writes three indices of heights for each triangle of a mesh of triangles of any shape within an error, in thousandths
/// of a unit of height, and tells of it.
///
/// It has no more triangles than the mesh of the fewest right triangles within the error, and mostly a third to a fifth as
/// many; where the search finds nothing that is judged to be right, that mesh is the answer. Efforts are 1 to 9; 0 counts as
/// 1, and more than 9 as 9. There has to be room for the mesh that is found.
/// Cost (not proved): that of `tell_fit_with`, and of `tin_mesh::make_tin`.
pub fn tell_tin(
    alloc: Global,
    heights: &[u16],
    thousandths: u32,
    effort: u32,
    out: &mut [u32],
    told: &mut Fitted,
) -> Answer
    ensures { IsTinTold heights.now thousandths out.old out.new told.old told.new result }
{
    let n = match level_of_count(heights.len()) {
        Some(n) => n,
        None => return Answer::BadGrid,
    };
    if !are_tolerances(n, thousandths, &[]) {
        return Answer::BadTolerance;
    }
    match Fitter::make(alloc, n, heights) {
        Ok(mut fitter) => {
            fitter.fit(thousandths, &[], &[]);
            tell_shaped(alloc, &fitter, thousandths, effort.max(1), out, told)
        }
        Err(_) => Answer::NoMemory,
    }
}

/// Writes what the search finds from the fitter's mesh, or that mesh, and tells of it.
fn tell_shaped(
    alloc: Global,
    fitter: &Fitter,
    thousandths: u32,
    effort: u32,
    out: &mut [u32],
    told: &mut Fitted,
) -> Answer
    ensures others { (result ≡ Answer.Done) ⊎ ((result ≡ Answer.NoRoom) ⊎ (result ≡ Answer.NoMemory)) }
    ensures no_room { result ≡ Answer.NoRoom → length out.old < 3 * length fitter.now.leaves }
    ensures written { result ≡ Answer.Done →
        IsTinWritten fitter.now.grid thousandths (length fitter.now.leaves) out.old out.new told.new
        ⊎ IsFewestWritten fitter.now.grid fitter.now.leaves out.old out.new told.new }
    ensures unwritten { (result ≡ Answer.Done → ⊥) → out.new ≡ out.old }
    ensures untold { (result ≡ Answer.Done → ⊥) → told.new ≡ told.old }
{
    match shaped(alloc, fitter, thousandths, effort) {
        Ok(Some(tin)) => write_tin(&tin, out, told),
        Ok(None) => tell_fitted(alloc, fitter, out, told),
        Err(_) => Answer::NoMemory,
    }
}

/// What the search finds from the fitter's mesh.
fn shaped(
    alloc: Global,
    fitter: &Fitter,
    thousandths: u32,
    effort: u32,
) -> Result<Option<Tin>, NoMemory>
    ensures { IfOk result (λ found. IfSome found
        (IsTin fitter.now.grid thousandths (length fitter.now.leaves))) }
{
    let set = fitter.set();
    let leaves = set.leaves();
    let mut numbers = VertexTable::new(alloc, set.n())?;
    numbers.number(leaves, set.n());
    make_tin(
        alloc,
        fitter.grid(),
        leaves,
        numbers.numbers(),
        thousandths,
        effort,
    )
}

/// Writes the places of a mesh, and tells of it.
fn write_tin(tin: &Tin, out: &mut [u32], told: &mut Fitted) -> Answer
    ensures others { (result ≡ Answer.Done) ⊎ (result ≡ Answer.NoRoom) }
    ensures no_room { result ≡ Answer.NoRoom → length out.old < length tin.now.places }
    ensures written { result ≡ Answer.Done →
        out.new ≡ tin.now.places ++ drop (length tin.now.places) out.old }
    ensures off { result ≡ Answer.Done → told.new.off ≡ tin.now.deviation.gap }
    ensures over { result ≡ Answer.Done → told.new.over ≡ tin.now.deviation.area }
    ensures triangles { result ≡ Answer.Done → told.new.triangles ≡ length tin.now.corners / 3 }
    ensures vertices { result ≡ Answer.Done → told.new.vertices ≡ length tin.now.points }
    ensures unwritten { (result ≡ Answer.Done → ⊥) → out.new ≡ out.old }
    ensures untold { (result ≡ Answer.Done → ⊥) → told.new ≡ told.old }
{
    let mut count = 0;
    let answer = put_numbers(tin.places(), out, &mut count);
    if answer == Answer::Done {
        let deviation = tin.deviation();
        *told = Fitted {
            off: deviation.gap,
            over: u64::from(deviation.area),
            triangles: tin.triangle_count(),
            vertices: tin.vertex_count(),
        };
    }
    answer
}
