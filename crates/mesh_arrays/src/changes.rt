//! Which triangles one of two meshes has alone.

ghost use Rattle.std.specs.Prelude.{◌≡◌, ℕ, ◌<◌, ◌≤◌, ◌&&◌, ◌==◌, nat_lt, All, length, slice_index, slice_set};
ghost use Rattle.mesh_arrays.specs.Changes.{IsTriangle, IsDepthFirst, IsAloneWritten, end_of};

use bintree_addr::Tri;

/// How many triangles went, and how many came.
#[repr(C)]
#[derive(Clone, Copy, Debug, PartialEq, Eq)]
pub struct Changes {
    /// How many triangles of the mesh before are not in the mesh after.
    pub gone: usize,
    /// How many triangles of the mesh after are not in the mesh before.
    pub come: usize,
}

/// Writes the triangles of each mesh that the other has not, and answers how many they are. Those for which there is
/// no room are counted all the same.
///
/// Both meshes are lists of addresses, depth first, as `write_addresses` writes them. Of other lists nothing is
/// promised.
/// Cost (not proved): twice a step for each triangle of both.
pub fn list_changes(before: &[u32], after: &[u32], gone: &mut [u32], come: &mut [u32]) -> Changes
    ensures gone { IsDepthFirst before.now → IsDepthFirst after.now →
        IsAloneWritten before.now after.now gone.old gone.new result.gone }
    ensures come { IsDepthFirst before.now → IsDepthFirst after.now →
        IsAloneWritten after.now before.now come.old come.new result.come }
{
    Changes {
        gone: list_alone(before, after, gone),
        come: list_alone(after, before, come),
    }
}

/// Writes what these have and those have not, as far as there is room, and answers how many they are.
fn list_alone(these: &[u32], those: &[u32], out: &mut [u32]) -> usize
    ensures { IsDepthFirst these.now → IsDepthFirst those.now →
        IsAloneWritten these.now those.now out.old out.new result }
{
    let mut passed = 0;
    let mut count = 0;
    for t in these {
        passed = pass(those, passed, *t);
        if stands_at(those, passed, *t) {
            continue;
        }
        write_at(out, count, *t);
        count += 1;
    }
    count
}

/// The first place from here on whose triangle does not end before this one.
fn pass(those: &[u32], from: usize, t: u32) -> usize
    requires { from ≤ length those.now }
    ensures on { from ≤ result }
    ensures within { result ≤ length those.now }
    ensures before { All IsTriangle those.now → IsTriangle t → (k : ℕ) → from ≤ k → k < result →
        end_of (slice_index those.now k) < end_of t }
    ensures here { All IsTriangle those.now → IsTriangle t → result < length those.now →
        end_of t ≤ end_of (slice_index those.now result) }
{
    let mut at = from;
    while at < those.len() && end_of(those[at]) < end_of(t) {
        at += 1;
    }
    at
}

/// Whether this triangle stands at a place.
fn stands_at(those: &[u32], at: usize, t: u32) -> bool
    ensures { result ≡ (nat_lt at (length those.now) && (slice_index those.now at == t)) }
{
    at < those.len() && those[at] == t
}

/// Writes a number at a place, if there is one.
fn write_at(out: &mut [u32], at: usize, number: u32)
    ensures { out.new ≡ slice_set out.old at number }
{
    if at < out.len() {
        out[at] = number;
    }
}

/// The first triangle of the deepest level behind this one, as a number.
fn end_of(a: u32) -> u32
    ensures { IsTriangle a → result ≡ end_of a }
{
    match Tri::at(a) {
        Some(t) => (a + 1) << (28 - t.level()),
        None => 0,
    }
}
