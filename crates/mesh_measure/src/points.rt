//! How far the surface is from a triangle's plane, over all grid points of the triangle.

ghost use Rattle.std.specs.Prelude.{◌≡◌, ◌+◌, ◌-◌, ◌*◌, ◌/◌, ◌^◌, ◌<◌, ◌≤◌, ◌⊎◌, ◌↔◌, ℕ, IsTrue, IfSome, IfNone, true};
ghost use Rattle.std.specs.Prelude.{length, slice_index};
ghost use Rattle.mesh_defs.specs.declared.point.Point.{Point};
ghost use Rattle.mesh_defs.specs.Triangle.{level_of, corners_of};
ghost use Rattle.mesh_defs.specs.HeightField.{height_at};
ghost use Rattle.mesh_defs.specs.Thickness.{height_of};
ghost use Rattle.mesh_defs.specs.BoundingBox.{point, greatest};
ghost use Rattle.fit_laws.specs.PlaneHeight.{off_plane, offs_in};
ghost use Rattle.mesh_measure.specs.Areas.{AreAcross, AreSmall};
ghost use Rattle.mesh_measure.specs.Facet.{IsFacet};
ghost use Rattle.mesh_measure.specs.Most.{gap_of, IsMost, IsMostUntil, IsInRow, IsInBounds};
ghost use Rattle.mesh_measure.specs.Line.{IsPlaneOf};
ghost use Rattle.mesh_measure.specs.Row.{IsHeldRow};
ghost use Rattle.mesh_measure.specs.Slope.{AreSlopesOf};

use crate::areas::Areas;
use crate::columns::Columns;
use crate::edges::held_columns;
use crate::facet::{bounded_at, corners_in, weighted};
use crate::line::{Plane, farther, greatest_off, line_in};
use crate::shape::{Bounds, Facet, HeldRow};
use crate::slope::{Slopes, height_at, slopes_of};
use bintree_addr::{Corners, Tri};
use pgm_grid::Grid;

/// How far the surface is from the plane at a point, times twice the triangle's area.
pub(crate) fn gap(grid: &Grid, facet: Facet, areas: Areas, x: u32, y: u32) -> u64
    requires x_in_grid { x ≤ 2 ^ grid.now.n }
    requires y_in_grid { y ≤ 2 ^ grid.now.n }
    requires facet { IsFacet grid.now.n grid.now.heights facet }
    requires areas { AreAcross facet.corners (point x y) areas }
    requires small { AreSmall areas }
    ensures value { result ≡ gap_of facet.corners (height_of grid.now.n grid.now.heights) (point x y) }
    ensures small { result ≤ 281474976710656 }
{
    let surface = facet.area * u64::from(grid.height(x, y));
    surface.abs_diff(weighted(facet, areas))
}

/// How far the surface is from the triangle's plane at the midpoint of the base, or 0 where there is none: most
/// triangles are farthest off about there.
fn off_middle(grid: &Grid, facet: Facet, t: Tri) -> u32
    requires level { level_of t ≤ 2 * grid.now.n }
    requires facet { IsFacet grid.now.n grid.now.heights facet }
    requires corners { facet.corners ≡ corners_of grid.now.n t }
    ensures { result ≤ greatest (offs_in grid.now.n grid.now.heights t) }
{
    let n = grid.n();
    let _address = t.number();
    if t.level() >= 2 * n {
        return 0;
    }
    let (p, q) = (facet.corners.v0, facet.corners.v1);
    let middle = u32::from(grid.height((p.x + q.x) / 2, (p.y + q.y) / 2));
    let ends = u32::from(facet.v0) + u32::from(facet.v1);
    (2 * middle).abs_diff(ends) << (n - 1)
}

/// The heights of these columns of a row.
#[inline(always)]
pub(crate) fn row_of(grid: &Grid, y: u32, columns: Columns) -> &[u16]
    requires y_in_grid { y ≤ 2 ^ grid.now.n }
    requires ordered { columns.from ≤ columns.end }
    requires end_in_grid { columns.end ≤ 2 ^ grid.now.n + 1 }
    ensures count { length result.now ≡ columns.end - columns.from }
    ensures heights { (k : ℕ) → k < length result.now →
        slice_index result.now k ≡ height_at grid.now.n grid.now.heights (columns.from + k) y }
{
    let side = grid.side();
    let start = (side - 1 - y as usize) * side;
    &grid.heights()[start + columns.from as usize..start + columns.end as usize]
}

/// What the triangle holds of a row, from column `left` to column `right`; none where that is nothing.
#[inline(always)]
pub(crate) fn held_row(
    grid: &Grid,
    facet: Facet,
    plane: Plane,
    y: u32,
    left: u32,
    right: u32,
) -> Option<HeldRow>
    requires y_in_grid { y ≤ 2 ^ grid.now.n }
    requires right_in_grid { right ≤ 2 ^ grid.now.n }
    requires facet { IsFacet grid.now.n grid.now.heights facet }
    requires plane { IsPlaneOf facet.corners (height_of grid.now.n grid.now.heights) plane }
    ensures none { IfNone result ((r : Point) → IsInRow facet.corners y left (right + 1) r → ⊥) }
    ensures some { IfSome result
        (IsHeldRow facet.corners (height_of grid.now.n grid.now.heights) y left right) }
{
    let _level = grid.n();
    let all = Columns {
        from: left,
        end: right + 1,
    };
    let columns = held_columns(facet.corners, y, all);
    if columns.end <= columns.from {
        return None;
    }
    let line = line_in(plane, columns.from, y);
    Some(HeldRow { columns, line })
}

/// How far the surface is from the triangle's plane at most in a row, from column `left` to column `right`.
#[inline(always)]
fn row_off(grid: &Grid, facet: Facet, slopes: Slopes, t: Tri, y: u32, left: u32, right: u32) -> u32
    requires level { level_of t ≤ 2 * grid.now.n }
    requires y_in_grid { y ≤ 2 ^ grid.now.n }
    requires right_in_grid { right ≤ 2 ^ grid.now.n }
    requires facet { IsFacet grid.now.n grid.now.heights facet }
    requires corners { facet.corners ≡ corners_of grid.now.n t }
    requires slopes { AreSlopesOf grid.now.n grid.now.heights t slopes }
    ensures { IsMost (IsInRow facet.corners y left (right + 1)) (off_plane grid.now.n grid.now.heights t) result }
{
    let n = grid.n();
    let all = Columns {
        from: left,
        end: right + 1,
    };
    let columns = held_columns(facet.corners, y, all);
    if columns.end <= columns.from {
        return 0;
    }
    let at = height_at(slopes, columns.from, y);
    greatest_off(row_of(grid, y, columns), n, at, slopes.right)
}

/// How far the surface is from the triangle's plane at most, or in the first row that shows it to be above the limit.
fn most_until(grid: &Grid, facet: Facet, t: Tri, bounds: Bounds, limit: u32) -> u32
    requires level { level_of t ≤ 2 * grid.now.n }
    requires facet { IsFacet grid.now.n grid.now.heights facet }
    requires corners { facet.corners ≡ corners_of grid.now.n t }
    requires right_in_grid { bounds.right ≤ 2 ^ grid.now.n }
    requires high_in_grid { bounds.high ≤ 2 ^ grid.now.n }
    requires ordered { bounds.low ≤ bounds.high }
    ensures { IsMostUntil (IsInBounds facet.corners bounds) (off_plane grid.now.n grid.now.heights t) limit result }
{
    let slopes = slopes_of(grid, facet, t);
    let mut most = 0;
    for y in bounds.low..bounds.high + 1 {
        let row = row_off(grid, facet, slopes, t, y, bounds.left, bounds.right);
        most = farther(most, row);
        if most > limit {
            return most;
        }
    }
    most
}

/// The error of a triangle: how far the surface is from its plane at most, up or down, over all grid points that the
/// triangle holds, in units of height, times 2^n.
///
/// Cost (not proved): a step for each grid point of the triangle and some twenty for each of its rows, and those of
/// `Tri::corners`.
pub fn off_triangle(grid: &Grid, t: Tri) -> u32
    requires level { level_of t ≤ 2 * grid.now.n }
    ensures { result ≡ greatest (offs_in grid.now.n grid.now.heights t) }
{
    off_triangle_at(grid, t, corners_in(grid, t))
}

/// The same, where its corners are known.
pub fn off_triangle_at(grid: &Grid, t: Tri, corners: Corners) -> u32
    requires level { level_of t ≤ 2 * grid.now.n }
    requires corners { corners ≡ corners_of grid.now.n t }
    ensures { result ≡ greatest (offs_in grid.now.n grid.now.heights t) }
{
    let _address = t.number();
    let around = bounded_at(grid, t, corners);
    most_until(grid, around.facet, t, around.bounds, u32::MAX)
}

/// Whether a triangle's error is above the tolerance, in units of height, times 2^n.
///
/// Ends at the first row that shows it, and looks at the midpoint of the base first.
/// Cost (not proved): at most that of `off_triangle`.
pub fn exceeds(grid: &Grid, t: Tri, tolerance: u32) -> bool
    requires level { level_of t ≤ 2 * grid.now.n }
    ensures { IsTrue result ↔ (tolerance < greatest (offs_in grid.now.n grid.now.heights t)) }
{
    exceeds_at(grid, t, corners_in(grid, t), tolerance)
}

/// The same, where its corners are known.
pub fn exceeds_at(grid: &Grid, t: Tri, corners: Corners, tolerance: u32) -> bool
    requires level { level_of t ≤ 2 * grid.now.n }
    requires corners { corners ≡ corners_of grid.now.n t }
    ensures { IsTrue result ↔ (tolerance < greatest (offs_in grid.now.n grid.now.heights t)) }
{
    let _address = t.number();
    let around = bounded_at(grid, t, corners);
    off_middle(grid, around.facet, t) > tolerance
        || most_until(grid, around.facet, t, around.bounds, tolerance) > tolerance
}
