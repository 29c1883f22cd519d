//! Fitters: the heights of a grid, and a mesh of them that goes on.

ghost use Rattle.std.specs.Prelude.{◌≡◌, ⊤, None, Some, pos};
ghost use Rattle.roam_embed.specs.FitterState.{FitterState};
ghost use Rattle.roam_embed.specs.Grid.{IsGridAnswer};
ghost use Rattle.roam_embed.specs.Fitter.{IsFitterOpened, IsMeshFitted, IsMeshRefined};
ghost use Rattle.roam_embed.specs.Fitter.{IsMeshRestored, IsFitterDeviationTold};
ghost use Rattle.roam_embed.specs.Listed.{AreIndicesOf, AreNumbersTold};
ghost use Rattle.roam_embed.specs.Border.{border_of};
ghost use Rattle.roam_embed.specs.FitWith.{IsFitWithTold};
ghost use Rattle.roam_embed.specs.Tins.{IsTinTold};
ghost use Rattle.roam_c.specs.declared.kept.Kept.{Kept};
ghost use Rattle.roam_c.specs.Handle.{IsNumberOfSome, OnKept, OnOther};

use crate::handle::{Handle, close, fill, on};
use roam_embed::{
    Deviation, Fitted, fit_points, open_fitter, refine_points, restore_mesh, tell_border,
    tell_fit_with, tell_fitter_deviation, tell_fitter_indices, tell_fitter_leaves, tell_tin,
};
use std::alloc::Global;

/// Makes a fitter of these heights, and lets go of what the handle had. After a refusal the handle is as before.
#[unsafe(no_mangle)]
pub extern "C" fn roam_fitter_open(alloc: Global, f: &mut Handle, heights: &[u16]) -> i32
    ensures cause { IsNumberOfSome result (IsGridAnswer heights.now) }
    ensures opened { result ≡ pos 0 → (now : FitterState) × (f.new.value ≡ Some (Kept.Fitter now))
        × IsFitterOpened heights.now now }
    ensures kept { (result ≡ pos 0 → ⊥) → f.new.value ≡ f.old.value }
{
    fill!(Fitter, f, alloc, open_fitter(alloc, heights))
}

/// Lets go of the fitter. The handle is empty then.
#[unsafe(no_mangle)]
pub extern "C" fn roam_fitter_close(alloc: Global, f: &mut Handle) -> i32
    ensures full { (was : FitterState) → f.old.value ≡ Some (Kept.Fitter was) →
        (f.new.value ≡ None) × (result ≡ pos 0) }
    ensures empty { OnOther Kept.Fitter f.old.value f.new.value result ⊤ }
{
    close!(Fitter, f, alloc)
}

/// The mesh of the fewest triangles within the tolerance in which each required grid point is a vertex becomes the mesh,
/// and how many triangles it has is written.
#[unsafe(no_mangle)]
pub extern "C" fn roam_fitter_fit(
    alloc: Global,
    f: &mut Handle,
    thousandths: u32,
    tolerances: &[u32],
    required: &[u32],
    triangles: &mut u32,
) -> i32
    ensures full { OnKept Kept.Fitter f.old.value f.new.value result (λ was now answer.
        IsMeshFitted was now thousandths tolerances.now required.now triangles.old triangles.new answer) }
    ensures empty { OnOther Kept.Fitter f.old.value f.new.value result (triangles.new ≡ triangles.old) }
{
    on!(
        Fitter,
        f,
        alloc,
        |fitter| fit_points(fitter, thousandths, tolerances, required, triangles)
    )
}

/// The same, going on from the mesh, which keeps what it splits.
#[unsafe(no_mangle)]
pub extern "C" fn roam_fitter_more(
    alloc: Global,
    f: &mut Handle,
    thousandths: u32,
    tolerances: &[u32],
    required: &[u32],
    triangles: &mut u32,
) -> i32
    ensures full { OnKept Kept.Fitter f.old.value f.new.value result (λ was now answer.
        IsMeshRefined was now thousandths tolerances.now required.now triangles.old triangles.new answer) }
    ensures empty { OnOther Kept.Fitter f.old.value f.new.value result (triangles.new ≡ triangles.old) }
{
    on!(
        Fitter,
        f,
        alloc,
        |fitter| refine_points(fitter, thousandths, tolerances, required, triangles)
    )
}

/// Writes three indices of heights for each triangle (apex, v0, v1), depth first, and how many triangles there are.
#[unsafe(no_mangle)]
pub extern "C" fn roam_fitter_indices(
    alloc: Global,
    f: &mut Handle,
    out: &mut [u32],
    triangles: &mut usize,
) -> i32
    ensures full { OnKept Kept.Fitter f.old.value f.new.value result (λ was now answer. (now ≡ was)
        × AreIndicesOf was.grid.n was.leaves out.old out.new triangles.old triangles.new answer) }
    ensures empty { OnOther Kept.Fitter f.old.value f.new.value result
        ((out.new ≡ out.old) × (triangles.new ≡ triangles.old)) }
{
    on!(
        Fitter,
        f,
        alloc,
        |fitter| tell_fitter_indices(fitter, out, triangles)
    )
}

/// Writes the addresses of the triangles, depth first, and how many there are.
#[unsafe(no_mangle)]
pub extern "C" fn roam_fitter_leaves(
    alloc: Global,
    f: &mut Handle,
    out: &mut [u32],
    triangles: &mut usize,
) -> i32
    ensures full { OnKept Kept.Fitter f.old.value f.new.value result (λ was now answer. (now ≡ was)
        × AreNumbersTold was.leaves out.old out.new triangles.old triangles.new answer) }
    ensures empty { OnOther Kept.Fitter f.old.value f.new.value result
        ((out.new ≡ out.old) × (triangles.new ≡ triangles.old)) }
{
    on!(
        Fitter,
        f,
        alloc,
        |fitter| tell_fitter_leaves(fitter, out, triangles)
    )
}

/// Writes the places of the vertices on the border that are no corners of the square, rising, and how many there are.
#[unsafe(no_mangle)]
pub extern "C" fn roam_fitter_border(
    alloc: Global,
    f: &mut Handle,
    out: &mut [u32],
    count: &mut usize,
) -> i32
    ensures full { OnKept Kept.Fitter f.old.value f.new.value result (λ was now answer. (now ≡ was)
        × AreNumbersTold (border_of was.grid.n was.leaves) out.old out.new count.old count.new answer) }
    ensures empty { OnOther Kept.Fitter f.old.value f.new.value result
        ((out.new ≡ out.old) × (count.new ≡ count.old)) }
{
    on!(Fitter, f, alloc, |fitter| tell_border(fitter, out, count))
}

/// Tells how far the surface is from the mesh at a grid point, at most.
#[unsafe(no_mangle)]
pub extern "C" fn roam_fitter_deviation(alloc: Global, f: &mut Handle, out: &mut Deviation) -> i32
    ensures full { OnKept Kept.Fitter f.old.value f.new.value result (λ was now answer.
        (now ≡ was) × IsFitterDeviationTold was out.new answer) }
    ensures empty { OnOther Kept.Fitter f.old.value f.new.value result (out.new ≡ out.old) }
{
    on!(
        Fitter,
        f,
        alloc,
        |fitter| tell_fitter_deviation(fitter, out)
    )
}

/// The mesh of these addresses becomes the mesh.
#[unsafe(no_mangle)]
pub extern "C" fn roam_fitter_restore(alloc: Global, f: &mut Handle, leaves: &[u32]) -> i32
    ensures full { OnKept Kept.Fitter f.old.value f.new.value result (λ was now answer.
        IsMeshRestored was now leaves.now answer) }
    ensures empty { OnOther Kept.Fitter f.old.value f.new.value result ⊤ }
{
    on!(Fitter, f, alloc, |fitter| restore_mesh(fitter, leaves))
}

/// Writes three indices of heights for each triangle of the mesh of the fewest triangles within the tolerance in which
/// each required grid point is a vertex, and tells of it. It needs no handle.
#[unsafe(no_mangle)]
pub extern "C" fn roam_fit_with(
    alloc: Global,
    heights: &[u16],
    thousandths: u32,
    tolerances: &[u32],
    required: &[u32],
    out: &mut [u32],
    told: &mut Fitted,
) -> i32
    ensures { IsNumberOfSome result (λ answer. IsFitWithTold heights.now thousandths tolerances.now required.now
        out.old out.new told.old told.new answer) }
{
    tell_fit_with(alloc, heights, thousandths, tolerances, required, out, told).number()
}

/// Writes three indices of heights for each triangle of a mesh of triangles of any shape within an error, and tells of it. It
/// needs no handle.
#[unsafe(no_mangle)]
pub extern "C" fn roam_tin(
    alloc: Global,
    heights: &[u16],
    thousandths: u32,
    effort: u32,
    out: &mut [u32],
    told: &mut Fitted,
) -> i32
    ensures { IsNumberOfSome result (λ answer. IsTinTold heights.now thousandths out.old out.new
        told.old told.new answer) }
{
    tell_tin(alloc, heights, thousandths, effort, out, told).number()
}
