//! A triangle as it lies in space, and the height of its plane.

ghost use Rattle.std.specs.Prelude.{◌≡◌, ◌+◌, ◌-◌, ◌*◌, ◌^◌, ◌<◌, ◌≤◌, ℕ, true, pos};
ghost use Rattle.mesh_defs.specs.Triangle.{level_of, corners_of};
ghost use Rattle.mesh_defs.specs.BoundingBox.{point, holds_point, least_of_3, greatest_of_3};
ghost use Rattle.mesh_defs.specs.declared.level.TheConstants.{GREATEST_LEVEL};
ghost use Rattle.fit_laws.specs.PlaneHeight.{plane_height};
ghost use Rattle.mesh_measure.specs.Areas.{AreSmall, sum_of_weighted};
ghost use Rattle.mesh_measure.specs.Facet.{IsFacet, AreBounds};

use crate::areas::{Across, Areas};
use crate::shape::{BoundedFacet, Bounds, Facet};
use bintree_addr::{Corners, Point, Tri};
use pgm_grid::Grid;
use wedgie_tree::Wedges;

/// The corners of a triangle of the grid.
///
/// Cost (not proved): that of `Tri::corners`; those of children follow from their parent's by `child_corners`.
pub fn corners_in(grid: &Grid, t: Tri) -> Corners
    requires level { level_of t ≤ 2 * grid.now.n }
    ensures { result ≡ corners_of grid.now.n t }
{
    t.corners(grid.n())
}

/// The triangle with its heights.
pub(crate) fn facet_of(grid: &Grid, t: Tri) -> Facet
    requires level { level_of t ≤ 2 * grid.now.n }
    ensures valid { IsFacet grid.now.n grid.now.heights result }
    ensures corners { result.corners ≡ corners_of grid.now.n t }
{
    facet_at(grid, t, corners_in(grid, t))
}

/// The same, where its corners are known.
#[inline(always)]
pub(crate) fn facet_at(grid: &Grid, t: Tri, corners: Corners) -> Facet
    requires level { level_of t ≤ 2 * grid.now.n }
    requires corners { corners ≡ corners_of grid.now.n t }
    ensures valid { IsFacet grid.now.n grid.now.heights result }
    ensures corners { result.corners ≡ corners_of grid.now.n t }
{
    let _level = grid.n();
    Facet {
        corners,
        apex: grid.height(corners.apex.x, corners.apex.y),
        v0: grid.height(corners.v0.x, corners.v0.y),
        v1: grid.height(corners.v1.x, corners.v1.y),
        area: u64::from(Across::of(corners.apex, corners.v0, corners.v1).area()),
        log_area: 2 * grid.n() - t.level(),
    }
}

/// The same with the rectangle around it.
#[inline(always)]
pub(crate) fn bounded_at(grid: &Grid, t: Tri, corners: Corners) -> BoundedFacet
    requires level { level_of t ≤ 2 * grid.now.n }
    requires corners { corners ≡ corners_of grid.now.n t }
    ensures valid { IsFacet grid.now.n grid.now.heights result.facet }
    ensures corners { result.facet.corners ≡ corners_of grid.now.n t }
    ensures bounds { AreBounds result.facet.corners result.bounds }
    ensures right_in_grid { result.bounds.right ≤ 2 ^ grid.now.n }
    ensures high_in_grid { result.bounds.high ≤ 2 ^ grid.now.n }
{
    let facet = facet_at(grid, t, corners);
    let bounds = bounds_of(facet.corners);
    BoundedFacet { facet, bounds }
}

/// The heights at the corners, each as often as twice the area across from it.
pub(crate) fn weighted(facet: Facet, areas: Areas) -> u64
    requires small { AreSmall areas }
    ensures value { result ≡ sum_of_weighted areas facet.apex facet.v0 facet.v1 }
    ensures small { result ≤ 211106232532992 }
{
    u64::from(areas.apex.area()) * u64::from(facet.apex)
        + u64::from(areas.v0.area()) * u64::from(facet.v0)
        + u64::from(areas.v1.area()) * u64::from(facet.v1)
}

/// The rectangle around the corners.
pub(crate) fn bounds_of(corners: Corners) -> Bounds
    ensures { AreBounds corners result }
{
    Bounds {
        left: least_of(corners.apex.x, corners.v0.x, corners.v1.x),
        right: greatest_of(corners.apex.x, corners.v0.x, corners.v1.x),
        low: least_of(corners.apex.y, corners.v0.y, corners.v1.y),
        high: greatest_of(corners.apex.y, corners.v0.y, corners.v1.y),
    }
}

/// The least of three numbers.
fn least_of(i: u32, j: u32, k: u32) -> u32
    ensures { result ≡ least_of_3 i j k }
{
    i.min(j.min(k))
}

/// The greatest of three numbers.
fn greatest_of(i: u32, j: u32, k: u32) -> u32
    ensures { result ≡ greatest_of_3 i j k }
{
    i.max(j.max(k))
}

/// 2^n.
#[tactic(auto, using(bintree_laws::proofs::CornerLemmas::side_small))]
pub(crate) fn side(n: u32) -> u64
    requires { n ≤ GREATEST_LEVEL }
    ensures value { result ≡ 2 ^ n }
    ensures small { result ≤ 16384 }
{
    1 << n
}

/// 2^n times the height of the triangle's plane at a point of the triangle, in units of height: a whole number, since
/// the length of a leg or of the base along an axis of the grid divides 2^n.
///
/// Cost (not proved): that of `Tri::corners`.
pub fn plane_height(w: &Wedges, t: Tri, x: u32, y: u32) -> i64
    requires level { level_of t ≤ 2 * w.now.n }
    requires x_in_grid { x ≤ 2 ^ w.now.n }
    requires y_in_grid { y ≤ 2 ^ w.now.n }
    requires held { holds_point w.now.n t (point x y) ≡ true }
    ensures value { result ≡ pos (plane_height w.now.n w.now.heights t (point x y)) }
    ensures small { plane_height w.now.n w.now.heights t (point x y) < 2 ^ 53 }
{
    // An address is at least 2, so the triangle has an area.
    let _address = t.number();
    let facet = facet_of(w.grid(), t);
    let areas = Areas::of(facet.corners, Point { x, y });
    let height = side(w.grid().n()) * weighted(facet, areas) / facet.area;
    height as i64
}
