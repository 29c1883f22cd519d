//! What the last frame changed, written into a caller's arrays.

ghost use Rattle.roam_embed.specs.Changed.{AreChangesTold};

use crate::answer::Answer;
use frame_loop::Engine;
use mesh_arrays::{Changes, write_addresses};

/// Writes the addresses of the triangles that the last frame took out of the mesh and of those that it put in, each
/// depth first, and how many they are: none before the first frame.
///
/// Cost (not proved): a step for each of them.
pub fn tell_changes(
    engine: &Engine,
    gone: &mut [u32],
    come: &mut [u32],
    told: &mut Changes,
) -> Answer
    ensures { AreChangesTold engine.now gone.old gone.new come.old come.new
        told.old told.new result }
{
    let changes = engine.changes();
    if gone.len() < changes.gone.len() || come.len() < changes.come.len() {
        return Answer::NoRoom;
    }
    write_addresses(changes.gone, gone);
    write_addresses(changes.come, come);
    *told = Changes {
        gone: changes.gone.len(),
        come: changes.come.len(),
    };
    Answer::Done
}
