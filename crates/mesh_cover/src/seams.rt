//! The tests of one corner, one triangle and one edge.

ghost use Rattle.std.specs.Prelude.{◌≡◌, ℕ, ◌+◌, ◌*◌, ◌/◌, ◌^◌, ◌<◌, ◌≤◌, ◌↔◌, IsTrue, length, slice_index};
ghost use Rattle.mesh_cover.specs.Cover.{IsCounterclockwise};
ghost use Rattle.mesh_cover.specs.Mesh.{next_corner, IsOnSide, IsWithin};
ghost use Rattle.mesh_cover.specs.Conforming.{corner_in, height_in, IsCorner, IsJoined};

use mesh_defs::Point;

/// A product of two coordinates.
fn product(x: u32, y: u32) -> u64
    requires x { x ≤ 16384 }
    requires y { y ≤ 16384 }
    ensures value { result ≡ x * y }
    ensures small { result ≤ 268435456 }
{
    u64::from(x) * u64::from(y)
}

/// Whether three points turn left.
pub(crate) fn turns_left(a: Point, b: Point, c: Point) -> bool
    requires a { IsWithin 16384 16384 a }
    requires b { IsWithin 16384 16384 b }
    requires c { IsWithin 16384 16384 c }
    ensures { IsTrue result ↔ IsCounterclockwise a b c }
{
    let high = product(b.x, c.y) + product(c.x, a.y) + product(a.x, b.y);
    let low = product(b.y, c.x) + product(c.y, a.x) + product(a.y, b.x);
    low < high
}

/// Whether an edge lies on a side of the rectangle; on the right one it goes up.
fn is_on_side(right: u32, top: u32, p: Point, q: Point) -> bool
    ensures { IsTrue result ↔ IsOnSide right top p q }
{
    (p.y == 0 && q.y == 0)
        || (p.y == top && q.y == top)
        || (p.x == 0 && q.x == 0)
        || (p.x == right && q.x == right && p.y < q.y)
}

/// Whether a corner is a vertex, in the rectangle.
pub(crate) fn is_corner(right: u32, top: u32, points: &[Point], corners: &[u32], h: usize) -> bool
    requires { h < length corners.now }
    ensures { IsTrue result ↔ IsCorner right top points.now corners.now h }
{
    let vertex = corners[h] as usize;
    vertex < points.len() && points[vertex].x <= right && points[vertex].y <= top
}

/// The point of a corner.
pub(crate) fn corner_at(points: &[Point], corners: &[u32], h: usize) -> Point
    requires within { h < length corners.now }
    requires vertex { slice_index corners.now h < length points.now }
    ensures { result ≡ corner_in points.now corners.now h }
{
    points[corners[h] as usize]
}

/// The next corner of the same triangle.
pub(crate) fn next(h: usize, count: usize) -> usize
    requires within { h < count * 3 }
    requires fits { count * 3 < 2 ^ 32 }
    ensures value { result ≡ next_corner h }
    ensures within { result < count * 3 }
{
    h / 3 * 3 + (h + 1) % 3
}

/// Whether two corners have the same point and height.
fn is_same(points: &[Point], heights: &[u16], corners: &[u32], g: usize, h: usize) -> bool
    requires first { g < length corners.now }
    requires second { h < length corners.now }
    requires vertices { (k : ℕ) → k < length corners.now → slice_index corners.now k < length points.now }
    requires heights { length heights.now ≡ length points.now }
    ensures { IsTrue result ↔ ((corner_in points.now corners.now g ≡ corner_in points.now corners.now h)
        × (height_in heights.now corners.now g ≡ height_in heights.now corners.now h)) }
{
    let p = corner_at(points, corners, g);
    let q = corner_at(points, corners, h);
    let level = heights[corners[g] as usize] == heights[corners[h] as usize];
    p.x == q.x && p.y == q.y && level
}

/// Whether an edge has a partner that leads back and is the same edge the other way round, its heights too; or lies on a side.
pub(crate) fn is_joined(
    right: u32,
    top: u32,
    points: &[Point],
    heights: &[u16],
    corners: &[u32],
    across: &[u32],
    h: usize,
) -> bool
    requires within { h < length corners.now }
    requires threes { length corners.now ≡ length corners.now / 3 * 3 }
    requires few { length corners.now ≤ 50331648 }
    requires across { length across.now ≡ length corners.now }
    requires vertices { (k : ℕ) → k < length corners.now → slice_index corners.now k < length points.now }
    requires heights { length heights.now ≡ length points.now }
    ensures { IsTrue result ↔ IsJoined right top (length corners.now / 3) (corner_in points.now corners.now)
        (height_in heights.now corners.now) (slice_index across.now) h }
{
    let count = corners.len() / 3;
    let partner = across[h] as usize;
    if partner >= corners.len() || across[partner] as usize != h {
        return false;
    }
    let end = next(h, count);
    if partner == h {
        return is_on_side(
            right,
            top,
            corner_at(points, corners, h),
            corner_at(points, corners, end),
        );
    }
    is_same(points, heights, corners, h, next(partner, count))
        && is_same(points, heights, corners, end, partner)
}
