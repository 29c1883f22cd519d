//! The judge of a mesh: each test in turn, and the first place that is wrong.

ghost use Rattle.std.specs.Prelude.{◌≡◌, ℕ, ◌+◌, ◌*◌, ◌/◌, ◌^◌, ◌<◌, ◌≤◌, ◌↔◌, IsTrue, IsNone, IfSome, IfNone, length, slice_index};
ghost use Rattle.mesh_cover.specs.Mesh.{IsTiling};
ghost use Rattle.mesh_cover.specs.Conforming.{corner_in, height_in, is_marked, IsCorner, IsTurned, IsJoined, IsConforming, IsFirst, IsFault};

use crate::fault::Fault;
use crate::seams::{corner_at, is_corner, is_joined, turns_left};
use crate::sides::{clear, first_bare, first_doubled};
use mesh_defs::Point;

/// The first corner that is no vertex in the rectangle.
fn first_off(right: u32, top: u32, points: &[Point], corners: &[u32]) -> Option<usize>
    ensures none { IfNone result ((h : ℕ) → h < length corners.now → IsCorner right top points.now corners.now h) }
    ensures some { IfSome result (IsFirst (IsCorner right top points.now corners.now) (length corners.now)) }
{
    for h in 0..corners.len() {
        if !is_corner(right, top, points, corners, h) {
            return Some(h);
        }
    }
    None
}

/// The first triangle that does not turn left.
fn first_flipped(points: &[Point], corners: &[u32]) -> Option<usize>
    requires few { length corners.now ≤ 50331648 }
    requires corners { (h : ℕ) → h < length corners.now → IsCorner 16384 16384 points.now corners.now h }
    ensures none { IfNone result ((t : ℕ) → t < length corners.now / 3 → IsTurned points.now corners.now t) }
    ensures some { IfSome result (IsFirst (IsTurned points.now corners.now) (length corners.now / 3)) }
{
    for t in 0..corners.len() / 3 {
        let a = corner_at(points, corners, t * 3);
        let b = corner_at(points, corners, t * 3 + 1);
        let c = corner_at(points, corners, t * 3 + 2);
        if !turns_left(a, b, c) {
            return Some(t);
        }
    }
    None
}

/// The first edge that is not joined.
fn first_unpaired(
    right: u32,
    top: u32,
    points: &[Point],
    heights: &[u16],
    corners: &[u32],
    across: &[u32],
) -> Option<usize>
    requires threes { length corners.now ≡ length corners.now / 3 * 3 }
    requires few { length corners.now ≤ 50331648 }
    requires across { length across.now ≡ length corners.now }
    requires vertices { (k : ℕ) → k < length corners.now → slice_index corners.now k < length points.now }
    requires heights { length heights.now ≡ length points.now }
    ensures none { IfNone result ((h : ℕ) → h < length corners.now → IsJoined right top (length corners.now / 3)
        (corner_in points.now corners.now) (height_in heights.now corners.now) (slice_index across.now) h) }
    ensures some { IfSome result (IsFirst (IsJoined right top (length corners.now / 3)
        (corner_in points.now corners.now) (height_in heights.now corners.now) (slice_index across.now)) (length corners.now)) }
{
    for h in 0..corners.len() {
        if !is_joined(right, top, points, heights, corners, across, h) {
            return Some(h);
        }
    }
    None
}

/// The first place where a mesh over a rectangle of grid points is not conforming; none where it is.
///
/// Vertices have a point and a height each; corners are numbers of vertices, three a triangle, named counterclockwise;
/// `across` has the partner of each edge, which is the edge itself on a side of the rectangle. Two vertices with the same point
/// and height count as one. Columns run from 0 to `right` and rows from 0 to the length of `rows`, which is room for a mark of each.
/// Cost (not proved): some forty steps for each triangle, and one for each row.
pub fn first_fault(
    right: u32,
    points: &[Point],
    heights: &[u16],
    corners: &[u32],
    across: &[u32],
    rows: &mut [bool],
) -> Option<Fault>
    requires columns { 0 < right }
    requires reach { right ≤ 16384 }
    requires rows { 0 < length rows.old }
    requires height { length rows.old ≤ 16384 }
    requires threes { length corners.now ≡ length corners.now / 3 * 3 }
    requires few { length corners.now ≤ 50331648 }
    requires across { length across.now ≡ length corners.now }
    requires heights { length heights.now ≡ length points.now }
    ensures none { IsNone result ↔ IsConforming right (length rows.old) points.now heights.now corners.now across.now }
    ensures some { IfSome result (IsFault right (length rows.old) points.now heights.now corners.now across.now) }
    ensures tiles { IsNone result →
        IsTiling right (length rows.old) (length corners.now / 3) (corner_in points.now corners.now) }
{
    let top = rows.len() as u32;
    if let Some(h) = first_off(right, top, points, corners) {
        return Some(Fault::OffGrid(h as u32));
    }
    if let Some(t) = first_flipped(points, corners) {
        return Some(Fault::Flipped(t as u32));
    }
    if let Some(h) = first_unpaired(right, top, points, heights, corners, across) {
        return Some(Fault::Unpaired(h as u32));
    }
    clear(rows);
    if let Some(h) = first_doubled(right, top, points, corners, across, rows) {
        return Some(Fault::Doubled(h as u32));
    }
    if let Some(y) = first_bare(rows) {
        return Some(Fault::Bare(y as u32));
    }
    None
}
