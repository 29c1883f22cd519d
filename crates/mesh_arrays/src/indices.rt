//! Triangles as indices and as addresses.

ghost use Rattle.std.specs.Prelude.{◌≡◌, ◌+◌, ◌-◌, ◌*◌, ◌^◌, ◌≤◌, ◌++◌, All, length, take, drop};
ghost use Rattle.mesh_defs.specs.HeightField.{place_of};
ghost use Rattle.mesh_defs.specs.Triangle.{level_of};
ghost use Rattle.mesh_defs.specs.declared.level.TheConstants.{GREATEST_LEVEL};
ghost use Rattle.bintree_laws.specs.Corners.{IsWithin};
ghost use Rattle.mesh_arrays.specs.Indices.{indices_at, indices_of};

use bintree_addr::{Corners, Point, Tri};

/// Writes three indices for each triangle (apex, v0, v1) into the first places.
///
/// An index is the place of a grid point in file order: rows from the top, each from left to right.
/// Cost (not proved): a step a level for each triangle.
pub fn write_indices(n: u32, triangles: &[Tri], out: &mut [u32])
    requires in_grid { (1 ≤ n) × (n ≤ GREATEST_LEVEL) }
    requires levels { All (λ a. level_of a ≤ 2 * n) triangles.now }
    requires room { 3 * length triangles.now ≤ length out.old }
    ensures { out.new ≡ indices_of n triangles.now ++ drop (3 * length triangles.now) out.old }
{
    let mut at = 0;
    for t in triangles {
        write_corners(n, t.corners(n), out, at);
        at += 3;
    }
}

/// Writes the places of three corners.
///
/// Those of apex, v0 and v1, from this place of the array on.
pub fn write_corners(n: u32, corners: Corners, out: &mut [u32], at: usize)
    requires in_grid { n ≤ GREATEST_LEVEL }
    requires within { IsWithin (2 ^ n) corners }
    requires room { at + 3 ≤ length out.old }
    ensures { out.new ≡ take at out.old ++ indices_at n corners ++ drop (at + 3) out.old }
{
    out[at] = place(n, corners.apex);
    out[at + 1] = place(n, corners.v0);
    out[at + 2] = place(n, corners.v1);
}

/// The place of a grid point in file order.
#[tactic(auto, using(bintree_laws::proofs::CornerLemmas::side_small))]
fn place(n: u32, point: Point) -> u32
    requires in_grid { n ≤ GREATEST_LEVEL }
    requires column { point.x ≤ 2 ^ n }
    requires row { point.y ≤ 2 ^ n }
    ensures { result ≡ place_of n point.x point.y }
{
    let last = 1 << n;
    (last - point.y) * (last + 1) + point.x
}

/// Writes the address of each triangle into the first places.
pub fn write_addresses(triangles: &[Tri], out: &mut [u32])
    requires room { length triangles.now ≤ length out.old }
    ensures { out.new ≡ triangles.now ++ drop (length triangles.now) out.old }
{
    for (k, t) in triangles.iter().enumerate() {
        out[k] = t.number();
    }
}
