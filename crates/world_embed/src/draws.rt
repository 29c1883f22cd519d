//! The draws of a world's mesh, written into a caller's arrays.

ghost use Rattle.world_embed.specs.WorldDraws.{AreDrawsTold};

use roam_embed::Answer;
use world_loop::{Draw, World};

/// Writes the draws of the mesh, three indices for each triangle, and how many there are of both.
///
/// Where there is no room, how many there are is told all the same. Not there is a page that the mesh needs.
/// Cost (not proved): that of `World::draws`; takes no memory.
pub fn tell_world_draws(
    world: &World,
    out: &mut [Draw],
    draws: &mut usize,
    indices: &mut [u32],
    triangles: &mut usize,
) -> Answer
    ensures { AreDrawsTold world.now out.old out.new draws.old draws.new indices.old indices.new
        triangles.old triangles.new result }
{
    let Some(count) = world.draw_count() else {
        return Answer::NotThere;
    };
    let leaves = world.leaves().len();
    *draws = count;
    *triangles = leaves;
    if out.len() < count || indices.len() / 3 < leaves {
        return Answer::NoRoom;
    }
    world.draws(out, indices);
    Answer::Done
}
