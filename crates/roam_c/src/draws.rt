//! What a renderer draws of a world's mesh.

ghost use Rattle.std.specs.Prelude.{◌≡◌};
ghost use Rattle.world_embed.specs.WorldDraws.{AreDrawsTold};
ghost use Rattle.roam_c.specs.declared.kept.Kept.{Kept};
ghost use Rattle.roam_c.specs.Handle.{OnKept, OnOther};

use crate::handle::{Handle, on};
use std::alloc::Global;
use world_embed::{Draw, tell_world_draws};

/// Writes the draws of the mesh, three indices for each triangle, and how many there are of both.
#[unsafe(no_mangle)]
pub extern "C" fn roam_world_draws(
    alloc: Global,
    w: &mut Handle,
    out: &mut [Draw],
    draws: &mut usize,
    indices: &mut [u32],
    triangles: &mut usize,
) -> i32
    ensures full { OnKept Kept.World w.old.value w.new.value result (λ was now answer. (now ≡ was)
        × AreDrawsTold was out.old out.new draws.old draws.new indices.old indices.new
        triangles.old triangles.new answer) }
    ensures empty { OnOther Kept.World w.old.value w.new.value result
        ((out.new ≡ out.old) × (draws.new ≡ draws.old) × (indices.new ≡ indices.old)
        × (triangles.new ≡ triangles.old)) }
{
    on!(
        World,
        w,
        alloc,
        |world| tell_world_draws(world, out, draws, indices, triangles)
    )
}
