//! Whether the surface is farther from a triangle's plane than the tolerances of its grid points.

ghost use Rattle.std.specs.Prelude.{◌≡◌, ◌+◌, ◌-◌, ◌*◌, ◌^◌, ◌<◌, ◌≤◌, ◌↔◌, ℕ, IsTrue, length, slice_index};
ghost use Rattle.mesh_defs.specs.Triangle.{level_of, corners_of};
ghost use Rattle.mesh_defs.specs.HeightField.{height_at, side_of};
ghost use Rattle.mesh_defs.specs.Thickness.{height_of};
ghost use Rattle.mesh_defs.specs.BoundingBox.{greatest};
ghost use Rattle.fit_laws.specs.PlaneHeight.{excesses_in};
ghost use Rattle.mesh_measure.specs.Facet.{IsFacet};
ghost use Rattle.mesh_measure.specs.Line.{IsPlaneOf};
ghost use Rattle.mesh_measure.specs.Most.{gap_beyond, IsMost, IsMostUntil, IsInRow, IsInBounds};

use crate::columns::Columns;
use crate::facet::{bounded_at, corners_in, side};
use crate::line::{Plane, greater, greatest_excess, plane_of};
use crate::points::{held_row, row_of};
use crate::shape::{Bounds, Facet};
use bintree_addr::{Corners, Tri};
use pgm_grid::Grid;

/// The tolerances of these columns of a row.
fn tolerances_of<'a>(grid: &Grid, tolerances: &'a [u32], y: u32, columns: Columns) -> &'a [u32]
    requires y_in_grid { y ≤ 2 ^ grid.now.n }
    requires ordered { columns.from ≤ columns.end }
    requires end_in_grid { columns.end ≤ 2 ^ grid.now.n + 1 }
    requires complete { length tolerances.now ≡ side_of grid.now.n * side_of grid.now.n }
    ensures count { length result.now ≡ columns.end - columns.from }
    ensures tolerances { (k : ℕ) → k < length result.now →
        slice_index result.now k ≡ height_at grid.now.n tolerances.now (columns.from + k) y }
{
    let side = grid.side();
    let start = (side - 1 - y as usize) * side;
    &tolerances[start + columns.from as usize..start + columns.end as usize]
}

/// The greatest gap in a row beyond the points' own tolerances.
fn row_excess(
    grid: &Grid,
    tolerances: &[u32],
    facet: Facet,
    plane: Plane,
    y: u32,
    left: u32,
    right: u32,
) -> u64
    requires y_in_grid { y ≤ 2 ^ grid.now.n }
    requires right_in_grid { right ≤ 2 ^ grid.now.n }
    requires facet { IsFacet grid.now.n grid.now.heights facet }
    requires plane { IsPlaneOf facet.corners (height_of grid.now.n grid.now.heights) plane }
    requires complete { length tolerances.now ≡ side_of grid.now.n * side_of grid.now.n }
    ensures { IsMost (IsInRow facet.corners y left (right + 1))
        (gap_beyond (2 ^ grid.now.n) facet.corners (height_of grid.now.n grid.now.heights)
        (height_of grid.now.n tolerances.now)) result }
{
    let side = side(grid.n());
    match held_row(grid, facet, plane, y, left, right) {
        None => 0,
        Some(row) => {
            let heights = row_of(grid, y, row.columns);
            let allowed = tolerances_of(grid, tolerances, y, row.columns);
            greatest_excess(heights, allowed, facet.area, side, row.line)
        }
    }
}

/// The greatest gap of the triangle beyond its points' own tolerances, or the first one found above 0.
fn excess_until(grid: &Grid, tolerances: &[u32], facet: Facet, bounds: Bounds) -> u64
    requires facet { IsFacet grid.now.n grid.now.heights facet }
    requires right_in_grid { bounds.right ≤ 2 ^ grid.now.n }
    requires high_in_grid { bounds.high ≤ 2 ^ grid.now.n }
    requires ordered { bounds.low ≤ bounds.high }
    requires complete { length tolerances.now ≡ side_of grid.now.n * side_of grid.now.n }
    ensures { IsMostUntil (IsInBounds facet.corners bounds)
        (gap_beyond (2 ^ grid.now.n) facet.corners (height_of grid.now.n grid.now.heights)
        (height_of grid.now.n tolerances.now)) 0 result }
{
    let plane = plane_of(facet);
    let mut most = 0;
    for y in bounds.low..bounds.high + 1 {
        let row = row_excess(grid, tolerances, facet, plane, y, bounds.left, bounds.right);
        most = greater(most, row);
        if most > 0 {
            return most;
        }
    }
    most
}

/// Whether the surface is farther from a triangle's plane than the point's own tolerance, at a grid point that the
/// triangle holds. Tolerances are by grid point, in row order as heights are, in units of height, times 2^n.
///
/// A tolerance of `u32::MAX` is met by every height: such a point does not count.
/// Ends at the first row that shows it.
/// Cost (not proved): at most that of `off_triangle`, and a product more for each grid point.
pub fn exceeds_own(grid: &Grid, t: Tri, tolerances: &[u32]) -> bool
    requires level { level_of t ≤ 2 * grid.now.n }
    requires complete { length tolerances.now ≡ side_of grid.now.n * side_of grid.now.n }
    ensures { IsTrue result
        ↔ (0 < greatest (excesses_in grid.now.n grid.now.heights tolerances.now t)) }
{
    exceeds_own_at(grid, t, corners_in(grid, t), tolerances)
}

/// The same, where its corners are known.
pub fn exceeds_own_at(grid: &Grid, t: Tri, corners: Corners, tolerances: &[u32]) -> bool
    requires level { level_of t ≤ 2 * grid.now.n }
    requires corners { corners ≡ corners_of grid.now.n t }
    requires complete { length tolerances.now ≡ side_of grid.now.n * side_of grid.now.n }
    ensures { IsTrue result
        ↔ (0 < greatest (excesses_in grid.now.n grid.now.heights tolerances.now t)) }
{
    let _address = t.number();
    let around = bounded_at(grid, t, corners);
    excess_until(grid, tolerances, around.facet, around.bounds) > 0
}
