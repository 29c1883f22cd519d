//! The plane of a triangle by steps of whole numbers: 2^n times its height, modulo 2^32.

ghost use Rattle.std.specs.Prelude.{◌≡◌, ℕ, ◌+◌, ◌*◌, ◌/◌, ◌%◌, ◌^◌, ◌≤◌};
ghost use Rattle.mesh_defs.specs.Triangle.{level_of, corners_of};
ghost use Rattle.mesh_defs.specs.declared.level.TheConstants.{GREATEST_LEVEL};
ghost use Rattle.mesh_measure.specs.Facet.{IsFacet};
ghost use Rattle.mesh_measure.specs.Slope.{height_by, AreSlopesOf};

use crate::line::weigh_coordinates;
use crate::shape::Facet;
use bintree_addr::{Point, Tri};
use pgm_grid::Grid;

/// The height of the plane at point (0, 0), and what a column farther right and a row higher add: all times 2^n, modulo
/// 2^32.
#[derive(Clone, Copy)]
pub(crate) struct Slopes {
    pub(crate) at: u32,
    pub(crate) right: u32,
    pub(crate) up: u32,
}

/// Those of a triangle.
pub(crate) fn slopes_of(grid: &Grid, facet: Facet, t: Tri) -> Slopes
    requires level { level_of t ≤ 2 * grid.now.n }
    requires facet { IsFacet grid.now.n grid.now.heights facet }
    requires corners { facet.corners ≡ corners_of grid.now.n t }
    ensures { AreSlopesOf grid.now.n grid.now.heights t result }
{
    let _address = t.number();
    let n = grid.n();
    let (a, p, q) = (facet.corners.apex, facet.corners.v0, facet.corners.v1);
    let rise = weigh_coordinates(facet, p.y, q.y, a.y);
    let fall = weigh_coordinates(facet, q.y, a.y, p.y);
    let right = step(rise, fall, n, facet.log_area);
    let gain = weigh_coordinates(facet, q.x, a.x, p.x);
    let loss = weigh_coordinates(facet, p.x, q.x, a.x);
    let up = step(gain, loss, n, facet.log_area);
    Slopes {
        at: start(raised(facet.apex, n), a, right, up),
        right,
        up,
    }
}

/// 2^n times the difference of two sums over twice the area, of which it is a multiple, modulo 2^32.
#[inline(always)]
fn step(more: u64, less: u64, n: u32, log_area: u32) -> u32
    requires in_grid { n ≤ GREATEST_LEVEL }
    requires area { log_area ≤ 28 }
    requires more { more ≤ 3221225472 }
    requires less { less ≤ 3221225472 }
    ensures { (i j : ℕ) → 2 ^ log_area * i + 2 ^ n * less ≡ 2 ^ log_area * j + 2 ^ n * more →
        (result + j) % 2 ^ 32 ≡ i % 2 ^ 32 }
{
    if less <= more {
        return over_area(more - less, n, log_area);
    }
    0u32.wrapping_sub(over_area(less - more, n, log_area))
}

/// 2^n times a number over twice the area, modulo 2^32.
#[inline(always)]
fn over_area(number: u64, n: u32, log_area: u32) -> u32
    requires in_grid { n ≤ GREATEST_LEVEL }
    requires area { log_area ≤ 28 }
    requires small { number ≤ 3221225472 }
    ensures { result ≡ 2 ^ n * number / 2 ^ log_area % 2 ^ 32 }
{
    (((number << n) >> log_area) % 4_294_967_296) as u32
}

/// 2^n times a height.
#[inline(always)]
fn raised(height: u16, n: u32) -> u32
    requires in_grid { n ≤ GREATEST_LEVEL }
    ensures { result ≡ 2 ^ n * height }
{
    u32::from(height) << n
}

/// The height at point (0, 0), by that at another point.
#[inline(always)]
fn start(height: u32, point: Point, right: u32, up: u32) -> u32
    ensures { (result + point.x * right + point.y * up) % 2 ^ 32 ≡ height }
{
    height
        .wrapping_sub(point.x.wrapping_mul(right))
        .wrapping_sub(point.y.wrapping_mul(up))
}

/// The height at a point.
#[inline(always)]
pub(crate) fn height_at(slopes: Slopes, x: u32, y: u32) -> u32
    ensures { result ≡ height_by slopes x y }
{
    slopes
        .at
        .wrapping_add(x.wrapping_mul(slopes.right))
        .wrapping_add(y.wrapping_mul(slopes.up))
}
