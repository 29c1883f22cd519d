//! The mesh by its own vertices, as a strip, and how far the surface is from it.

ghost use Rattle.std.specs.Prelude.{◌≡◌};
ghost use Rattle.roam_embed.specs.Shapes.{ArePositionsTold, IsCompactTold, IsStripTold, IsDeviationTold};
ghost use Rattle.roam_c.specs.Handle.{OnFull, OnEmpty};

use crate::handle::{Handle, on};
use roam_embed::{Deviation, tell_compact, tell_deviation, tell_positions, tell_strip};
use std::alloc::Global;

/// Writes x, y and z of each vertex of the mesh, and how many vertices there are.
#[unsafe(no_mangle)]
pub extern "C" fn roam_positions(
    alloc: Global,
    h: &mut Handle,
    out: &mut [u32],
    vertices: &mut usize,
) -> i32
    ensures full { OnFull h.old.value h.new.value result (λ was now answer.
        (now ≡ was) × ArePositionsTold was out.old out.new vertices.old vertices.new answer) }
    ensures empty { OnEmpty h.old.value h.new.value result
        ((out.new ≡ out.old) × (vertices.new ≡ vertices.old)) }
{
    on!(
        Engine,
        h,
        alloc,
        |engine| tell_positions(engine, out, vertices)
    )
}

/// Writes the vertices of each triangle, by their places among those of `roam_positions`, and how many triangles
/// there are.
#[unsafe(no_mangle)]
pub extern "C" fn roam_compact(
    alloc: Global,
    h: &mut Handle,
    out: &mut [u32],
    triangles: &mut usize,
) -> i32
    ensures full { OnFull h.old.value h.new.value result (λ was now answer.
        (now ≡ was) × IsCompactTold was out.old out.new triangles.old triangles.new answer) }
    ensures empty { OnEmpty h.old.value h.new.value result
        ((out.new ≡ out.old) × (triangles.new ≡ triangles.old)) }
{
    on!(
        Engine,
        h,
        alloc,
        |engine| tell_compact(engine, out, triangles)
    )
}

/// Writes three indices of heights for each triangle in the order of one strip, and how many triangles there are.
#[unsafe(no_mangle)]
pub extern "C" fn roam_strip(
    alloc: Global,
    h: &mut Handle,
    out: &mut [u32],
    triangles: &mut usize,
) -> i32
    ensures full { OnFull h.old.value h.new.value result (λ was now answer.
        (now ≡ was) × IsStripTold was out.old out.new triangles.old triangles.new answer) }
    ensures empty { OnEmpty h.old.value h.new.value result
        ((out.new ≡ out.old) × (triangles.new ≡ triangles.old)) }
{
    on!(
        Engine,
        h,
        alloc,
        |engine| tell_strip(alloc, engine, out, triangles)
    )
}

/// Tells how far the surface is from the mesh at a grid point, at most.
#[unsafe(no_mangle)]
pub extern "C" fn roam_deviation(alloc: Global, h: &mut Handle, out: &mut Deviation) -> i32
    ensures full { OnFull h.old.value h.new.value result (λ was now answer.
        (now ≡ was) × IsDeviationTold was out.new answer) }
    ensures empty { OnEmpty h.old.value h.new.value result (out.new ≡ out.old) }
{
    on!(Engine, h, alloc, |engine| tell_deviation(engine, out))
}
