//! The corners of a triangle as numbers.

ghost use Rattle.std.specs.Prelude.{◌≡◌, ◌+◌, ◌*◌, ◌^◌, ◌<◌, ◌≤◌};
ghost use Rattle.mesh_defs.specs.HeightField.{place_of, side_of};
ghost use Rattle.mesh_defs.specs.Triangle.{level_of};
ghost use Rattle.mesh_defs.specs.declared.level.TheConstants.{GREATEST_LEVEL};
ghost use Rattle.draw_buffer.specs.Corners.{grid_indices};

use bintree_addr::{Point, Tri};

/// A number for each corner of a triangle, counterclockwise: twelve bytes, as a graphics card reads them.
#[repr(C)]
#[derive(Clone, Copy, Debug, PartialEq, Eq)]
pub struct Indices {
    /// The corner of the right angle.
    pub apex: u32,
    /// The end of the base that follows the apex.
    pub v0: u32,
    /// The other end of the base.
    pub v1: u32,
}

/// The places of a triangle's corners in the list of heights.
///
/// Cost (not proved): a step a level.
#[tactic(auto, unfolding(crate::specs::Corners::grid_indices))]
pub fn grid_indices(n: u32, t: Tri) -> Indices
    requires in_grid { (1 ≤ n) × (n ≤ GREATEST_LEVEL) }
    requires level { level_of t ≤ 2 * n }
    ensures value { result ≡ grid_indices n t }
    ensures apex { result.apex < side_of n * side_of n }
    ensures v0 { result.v0 < side_of n * side_of n }
    ensures v1 { result.v1 < side_of n * side_of n }
{
    let corners = t.corners(n);
    Indices {
        apex: place(n, corners.apex),
        v0: place(n, corners.v0),
        v1: place(n, corners.v1),
    }
}

/// The place of a grid point in file order: rows from the top, each from left to right.
#[tactic(auto, using(bintree_laws::proofs::CornerLemmas::side_small))]
fn place(n: u32, point: Point) -> u32
    requires in_grid { n ≤ GREATEST_LEVEL }
    requires column { point.x ≤ 2 ^ n }
    requires row { point.y ≤ 2 ^ n }
    ensures value { result ≡ place_of n point.x point.y }
    ensures within { result < side_of n * side_of n }
{
    let last = 1 << n;
    (last - point.y) * (last + 1) + point.x
}
