//! The plane of a triangle along a row, and how far a row of heights is from it.

ghost use Rattle.std.specs.Prelude.{◌≡◌, ◌+◌, ◌*◌, ◌^◌, ◌<◌, ◌≤◌, ℕ, length, max};
ghost use Rattle.mesh_defs.specs.declared.point.Point.{Point};
ghost use Rattle.mesh_defs.specs.declared.level.TheConstants.{GREATEST_LEVEL};
ghost use Rattle.bintree_laws.specs.Corners.{IsWithin};
ghost use Rattle.mesh_measure.specs.Columns.{IsGreatestAlong};
ghost use Rattle.mesh_measure.specs.Line.{line_at, high_on, low_on, AreHeights, IsSmall, IsRowLineOf, excess_on, off_on};

use crate::shape::Facet;

/// Twice the area of a triangle times the height of its plane at a column: a sum from which another is taken, and
/// what a column farther right adds to each.
#[derive(Clone, Copy)]
pub(crate) struct Line {
    pub(crate) high: u64,
    pub(crate) low: u64,
    pub(crate) rise: u64,
    pub(crate) fall: u64,
}

/// The same over the grid, from point (0, 0) on: what a column farther right adds to each sum, and what a row higher.
#[derive(Clone, Copy)]
pub(crate) struct Plane {
    pub(crate) high: u64,
    pub(crate) low: u64,
    pub(crate) rise: u64,
    pub(crate) fall: u64,
    pub(crate) up: u64,
    pub(crate) down: u64,
}

/// The plane of a triangle.
pub(crate) fn plane_of(facet: Facet) -> Plane
    requires in_grid { IsWithin (2 ^ GREATEST_LEVEL) facet.corners }
    ensures line { (f : Point → ℕ) (y : ℕ) → AreHeights f facet →
        IsRowLineOf facet.corners f y (line_at result y) }
    ensures small { IsSmall result }
{
    let (a, p, q) = (facet.corners.apex, facet.corners.v0, facet.corners.v1);
    Plane {
        high: weigh(facet, p.x * q.y, q.x * a.y, a.x * p.y),
        low: weigh(facet, p.y * q.x, q.y * a.x, a.y * p.x),
        rise: weigh_coordinates(facet, p.y, q.y, a.y),
        fall: weigh_coordinates(facet, q.y, a.y, p.y),
        up: weigh_coordinates(facet, q.x, a.x, p.x),
        down: weigh_coordinates(facet, p.x, q.x, a.x),
    }
}

/// Its line in a row, from a column on.
#[inline(always)]
pub(crate) fn line_in(plane: Plane, x: u32, y: u32) -> Line
    requires small { IsSmall plane }
    requires x_in_grid { x ≤ 16385 }
    requires y_in_grid { y ≤ 16384 }
    ensures high { result.high ≡ high_on (line_at plane y) x }
    ensures low { result.low ≡ low_on (line_at plane y) x }
    ensures rise { result.rise ≡ plane.rise }
    ensures fall { result.fall ≡ plane.fall }
{
    Line {
        high: plane.high + u64::from(y) * plane.up + u64::from(x) * plane.rise,
        low: plane.low + u64::from(y) * plane.down + u64::from(x) * plane.fall,
        rise: plane.rise,
        fall: plane.fall,
    }
}

/// The heights at the corners, each as often as it says here.
#[inline(always)]
fn weigh(facet: Facet, apex: u32, v0: u32, v1: u32) -> u64
    ensures value { result ≡ apex * facet.apex + v0 * facet.v0 + v1 * facet.v1 }
    ensures small { (most : ℕ) → apex ≤ most → v0 ≤ most → v1 ≤ most → result ≤ 196608 * most }
{
    u64::from(apex) * u64::from(facet.apex)
        + u64::from(v0) * u64::from(facet.v0)
        + u64::from(v1) * u64::from(facet.v1)
}

/// The same, as often as coordinates of grid points.
#[inline(always)]
pub(crate) fn weigh_coordinates(facet: Facet, apex: u32, v0: u32, v1: u32) -> u64
    requires apex_in_grid { apex ≤ 2 ^ GREATEST_LEVEL }
    requires v0_in_grid { v0 ≤ 2 ^ GREATEST_LEVEL }
    requires v1_in_grid { v1 ≤ 2 ^ GREATEST_LEVEL }
    ensures value { result ≡ apex * facet.apex + v0 * facet.v0 + v1 * facet.v1 }
    ensures small { result ≤ 3221225472 }
{
    weigh(facet, apex, v0, v1)
}

/// How far the heights, times 2^n, are from a plane at most, a column each: the plane rises by a step a column, modulo
/// 2^32.
///
/// Without products, so that a compiler takes several columns at a time.
#[inline(always)]
pub(crate) fn greatest_off(heights: &[u16], n: u32, at: u32, step: u32) -> u32
    requires in_grid { n ≤ GREATEST_LEVEL }
    ensures { IsGreatestAlong (length heights.now) (off_on n at step heights.now) result }
{
    let mut plane = at;
    let mut most = 0;
    for h in heights {
        most = farther(most, (u32::from(*h) << n).abs_diff(plane));
        plane = plane.wrapping_add(step);
    }
    most
}

/// The greater of two distances.
pub(crate) fn farther(i: u32, j: u32) -> u32
    ensures { result ≡ max i j }
{
    i.max(j)
}

/// How far the heights are from the line at most, a column each, beyond their own tolerances: the side times the gap,
/// less twice the area times the tolerance.
pub(crate) fn greatest_excess(
    heights: &[u16],
    tolerances: &[u32],
    area: u64,
    side: u64,
    line: Line,
) -> u64
    requires count { length tolerances.now ≡ length heights.now }
    requires area { area ≤ 805306368 }
    requires side { side ≤ 16384 }
    requires high { high_on line (length heights.now) ≤ 281474976710656 }
    requires low { low_on line (length heights.now) ≤ 281474976710656 }
    ensures { IsGreatestAlong (length heights.now)
        (excess_on area side line heights.now tolerances.now) result }
{
    let mut high = line.high;
    let mut low = line.low;
    let mut most = 0;
    for (place, h) in heights.iter().enumerate() {
        let gap = (area * u64::from(*h) + low).abs_diff(high);
        let allowed = area * u64::from(tolerances[place]);
        most = greater(most, (side * gap).saturating_sub(allowed));
        high += line.rise;
        low += line.fall;
    }
    most
}

/// The greater of two numbers.
pub(crate) fn greater(i: u64, j: u64) -> u64
    ensures { result ≡ max i j }
{
    i.max(j)
}
