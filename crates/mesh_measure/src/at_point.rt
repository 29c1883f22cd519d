//! How far the surface is from a triangle's plane at one grid point, and a point where it is too far.

ghost use Rattle.std.specs.Prelude.{◌≡◌, ℕ, ◌+◌, ◌*◌, ◌^◌, ◌<◌, ◌≤◌, ◌↔◌, IsSome, IsTrue, IfSome, IfNone, true};
ghost use Rattle.mesh_defs.specs.Triangle.{level_of};
ghost use Rattle.mesh_defs.specs.BoundingBox.{point, holds_point, greatest};
ghost use Rattle.fit_laws.specs.PlaneHeight.{off_plane, offs_in};
ghost use Rattle.mesh_measure.specs.Above.{IsAbove};

use crate::areas::Areas;
use crate::facet::{bounds_of, facet_of, side};
use crate::points::{exceeds, gap};
use bintree_addr::{Point, Tri};
use pgm_grid::Grid;

/// How far the surface is from the triangle's plane at a grid point, up or down, in units of height, times 2^n; none
/// where the triangle does not hold the point.
///
/// Cost (not proved): that of `Tri::corners`.
pub fn off_point(grid: &Grid, t: Tri, x: u32, y: u32) -> Option<u64>
    requires level { level_of t ≤ 2 * grid.now.n }
    requires x_in_grid { x ≤ 2 ^ grid.now.n }
    requires y_in_grid { y ≤ 2 ^ grid.now.n }
    ensures held { IsSome result ↔ (holds_point grid.now.n t (point x y) ≡ true) }
    ensures value { IfSome result (λ off. off ≡ off_plane grid.now.n grid.now.heights t (point x y)) }
{
    let _address = t.number();
    let facet = facet_of(grid, t);
    let areas = Areas::of(facet.corners, Point { x, y });
    if !areas.is_held() {
        return None;
    }
    let gap = gap(grid, facet, areas, x, y);
    Some(side(grid.n()) * gap / facet.area)
}

/// A grid point of the triangle where the surface is farther from its plane than the tolerance, in units of height,
/// times 2^n; none where the triangle's error is not above it.
///
/// Cost (not proved): that of `exceeds`, and where that is so, some thirty steps for each point of the rectangle
/// around the triangle up to the one that is found.
pub fn point_above(grid: &Grid, t: Tri, tolerance: u32) -> Option<Point>
    requires level { level_of t ≤ 2 * grid.now.n }
    ensures found { IfSome result (IsAbove grid.now.n grid.now.heights t tolerance) }
    ensures none { IfNone result (greatest (offs_in grid.now.n grid.now.heights t) ≤ tolerance) }
{
    let _address = t.number();
    if !exceeds(grid, t, tolerance) {
        return None;
    }
    let bounds = bounds_of(t.corners(grid.n()));
    for y in bounds.low..bounds.high + 1 {
        if let Some(x) = row_above(grid, t, tolerance, y, bounds.left, bounds.right) {
            return Some(Point { x, y });
        }
    }
    None
}

/// The first column of such a point in a row, from column `left` to column `right`.
fn row_above(grid: &Grid, t: Tri, tolerance: u32, y: u32, left: u32, right: u32) -> Option<u32>
    requires level { level_of t ≤ 2 * grid.now.n }
    requires y_in_grid { y ≤ 2 ^ grid.now.n }
    requires right_in_grid { right ≤ 2 ^ grid.now.n }
    ensures found { IfSome result (λ x. IsAbove grid.now.n grid.now.heights t tolerance (point x y)) }
    ensures none { IfNone result ((x : ℕ) → left ≤ x → x ≤ right →
        IsAbove grid.now.n grid.now.heights t tolerance (point x y) → ⊥) }
{
    let _level = grid.n();
    for x in left..right + 1 {
        if is_above(grid, t, tolerance, x, y) {
            return Some(x);
        }
    }
    None
}

/// Whether the point is such a one.
fn is_above(grid: &Grid, t: Tri, tolerance: u32, x: u32, y: u32) -> bool
    requires level { level_of t ≤ 2 * grid.now.n }
    requires x_in_grid { x ≤ 2 ^ grid.now.n }
    requires y_in_grid { y ≤ 2 ^ grid.now.n }
    ensures { IsTrue result ↔ IsAbove grid.now.n grid.now.heights t tolerance (point x y) }
{
    match off_point(grid, t, x, y) {
        None => false,
        Some(off) => off > u64::from(tolerance),
    }
}
