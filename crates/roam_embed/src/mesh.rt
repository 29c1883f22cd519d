//! The triangles of the mesh, written into a caller's array.

ghost use Rattle.std.specs.Prelude.{◌*◌, ◌≤◌, All};
ghost use Rattle.mesh_defs.specs.Triangle.{level_of};
ghost use Rattle.mesh_defs.specs.declared.level.TheConstants.{GREATEST_LEVEL};
ghost use Rattle.roam_embed.specs.Calls.{AreIndicesTold, AreLeavesTold};
ghost use Rattle.roam_embed.specs.Listed.{AreIndicesOf, AreNumbersTold};

use crate::answer::Answer;
use bintree_addr::Tri;
use frame_loop::Engine;
use mesh_arrays::{write_addresses, write_indices};

/// Writes three indices of heights for each triangle (apex, v0, v1), depth first, and how many triangles there are.
///
/// An index is the place of a point in the heights that the engine was made of, so that one array of all points
/// serves each frame.
pub fn tell_indices(engine: &Engine, out: &mut [u32], triangles: &mut usize) -> Answer
    ensures { AreIndicesTold engine.now out.old out.new triangles.old triangles.new result }
{
    put_indices(engine.grid().n(), engine.view().leaves, out, triangles)
}

/// Writes the addresses of the triangles, depth first, and how many there are.
pub fn tell_leaves(engine: &Engine, out: &mut [u32], triangles: &mut usize) -> Answer
    ensures { AreLeavesTold engine.now out.old out.new triangles.old triangles.new result }
{
    put_addresses(engine.view().leaves, out, triangles)
}

/// Writes three indices of heights for each of these triangles, and how many they are.
pub(crate) fn put_indices(n: u32, leaves: &[Tri], out: &mut [u32], triangles: &mut usize) -> Answer
    requires in_grid { (1 ≤ n) × (n ≤ GREATEST_LEVEL) }
    requires levels { All (λ a. level_of a ≤ 2 * n) leaves.now }
    ensures { AreIndicesOf n leaves.now out.old out.new triangles.old triangles.new result }
{
    if out.len() / 3 < leaves.len() {
        return Answer::NoRoom;
    }
    write_indices(n, leaves, out);
    *triangles = leaves.len();
    Answer::Done
}

/// Writes the addresses of these triangles, and how many they are.
pub fn put_addresses(leaves: &[Tri], out: &mut [u32], triangles: &mut usize) -> Answer
    ensures { AreNumbersTold leaves.now out.old out.new triangles.old triangles.new result }
{
    if out.len() < leaves.len() {
        return Answer::NoRoom;
    }
    write_addresses(leaves, out);
    *triangles = leaves.len();
    Answer::Done
}

/// Writes these numbers, and how many they are.
pub(crate) fn put_numbers(numbers: &[u32], out: &mut [u32], count: &mut usize) -> Answer
    ensures { AreNumbersTold numbers.now out.old out.new count.old count.new result }
{
    if out.len() < numbers.len() {
        return Answer::NoRoom;
    }
    out[..numbers.len()].copy_from_slice(numbers);
    *count = numbers.len();
    Answer::Done
}
