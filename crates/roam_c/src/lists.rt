//! The triangles of the mesh, written into arrays of the caller.

ghost use Rattle.std.specs.Prelude.{◌≡◌};
ghost use Rattle.mesh_arrays.specs.Changes.{IsDepthFirst, IsAloneWritten};
ghost use Rattle.roam_embed.specs.Calls.{AreIndicesTold, AreLeavesTold};
ghost use Rattle.roam_embed.specs.Changed.{AreChangesTold};
ghost use Rattle.roam_c.specs.Handle.{OnFull, OnEmpty};

use crate::handle::{Handle, on};
use mesh_arrays::{Changes, list_changes};
use roam_embed::{tell_changes, tell_indices, tell_leaves};
use std::alloc::Global;

/// Writes three indices of heights for each triangle (apex, v0, v1), depth first, and how many triangles there are.
#[unsafe(no_mangle)]
pub extern "C" fn roam_indices(
    alloc: Global,
    h: &mut Handle,
    out: &mut [u32],
    triangles: &mut usize,
) -> i32
    ensures full { OnFull h.old.value h.new.value result (λ was now answer.
        (now ≡ was) × AreIndicesTold was out.old out.new triangles.old triangles.new answer) }
    ensures empty { OnEmpty h.old.value h.new.value result
        ((out.new ≡ out.old) × (triangles.new ≡ triangles.old)) }
{
    on!(
        Engine,
        h,
        alloc,
        |engine| tell_indices(engine, out, triangles)
    )
}

/// Writes the addresses of the triangles, depth first, and how many there are.
#[unsafe(no_mangle)]
pub extern "C" fn roam_leaves(
    alloc: Global,
    h: &mut Handle,
    out: &mut [u32],
    triangles: &mut usize,
) -> i32
    ensures full { OnFull h.old.value h.new.value result (λ was now answer.
        (now ≡ was) × AreLeavesTold was out.old out.new triangles.old triangles.new answer) }
    ensures empty { OnEmpty h.old.value h.new.value result
        ((out.new ≡ out.old) × (triangles.new ≡ triangles.old)) }
{
    on!(
        Engine,
        h,
        alloc,
        |engine| tell_leaves(engine, out, triangles)
    )
}

/// Writes the addresses of the triangles that the last frame took out and put in, each depth first, and how many they
/// are.
#[unsafe(no_mangle)]
pub extern "C" fn roam_changed(
    alloc: Global,
    h: &mut Handle,
    gone: &mut [u32],
    come: &mut [u32],
    out: &mut Changes,
) -> i32
    ensures full { OnFull h.old.value h.new.value result (λ was now answer.
        (now ≡ was) × AreChangesTold was gone.old gone.new come.old come.new out.old out.new answer) }
    ensures empty { OnEmpty h.old.value h.new.value result
        ((gone.new ≡ gone.old) × (come.new ≡ come.old) × (out.new ≡ out.old)) }
{
    on!(
        Engine,
        h,
        alloc,
        |engine| tell_changes(engine, gone, come, out)
    )
}

/// Writes which triangles are in one of two lists of addresses alone, and how many they are. It needs no handle.
#[unsafe(no_mangle)]
pub extern "C" fn roam_changes(
    before: &[u32],
    after: &[u32],
    gone: &mut [u32],
    come: &mut [u32],
    out: &mut Changes,
)
    ensures gone { IsDepthFirst before.now → IsDepthFirst after.now →
        IsAloneWritten before.now after.now gone.old gone.new out.new.gone }
    ensures come { IsDepthFirst before.now → IsDepthFirst after.now →
        IsAloneWritten after.now before.now come.old come.new out.new.come }
{
    *out = list_changes(before, after, gone, come);
}
