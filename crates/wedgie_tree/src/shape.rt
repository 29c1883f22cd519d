//! Heights and boxes by corners.

ghost use Rattle.std.specs.Prelude.{pos, ◌≡◌, ◌+◌, ◌*◌, ◌^◌, ◌<◌, ◌≤◌};
ghost use Rattle.mesh_defs.specs.HeightField.{HeightField};
ghost use Rattle.mesh_defs.specs.declared.level.TheConstants.{GREATEST_LEVEL};
ghost use Rattle.mesh_defs.specs.Thickness.{height_of, deviation};
ghost use Rattle.mesh_defs.specs.BoundingBox.{least_of_3, greatest_of_3};
ghost use Rattle.bintree_laws.specs.Corners.{IsWithin, IsInSquare};
ghost use Rattle.wedgie_tree.specs.declared.wedges.TheConstants.{GREATEST_SPACING};

use bintree_addr::{Corners, Cuboid, Point, point_between};
use pgm_grid::Grid;

/// The height at a point of the grid.
pub fn height_at(grid: &Grid, point: Point) -> u16
    requires in_grid { IsInSquare (2 ^ grid.now.n) point }
    ensures value { result ≡ height_of grid.now.n grid.now.heights point }
    ensures bounded { result ≤ grid.now.maxval }
{
    grid.height(point.x, point.y)
}

/// How far the surface at the middle of the base is from the middle of the base's ends, in half units
/// of height.
pub fn deviation_of(grid: &Grid, corners: Corners) -> u32
    requires within { IsWithin (2 ^ grid.now.n) corners }
    ensures { result ≡ deviation grid.now.n grid.now.heights corners }
{
    // The grid is small, so the sums of corners fit.
    let _small = grid.n();
    let middle = point_between(corners.v0, corners.v1);
    let surface = 2 * u32::from(height_at(grid, middle));
    let base = u32::from(height_at(grid, corners.v0)) + u32::from(height_at(grid, corners.v1));
    surface.abs_diff(base)
}

/// The box around the surface over these corners, in world units, where the heights are from low to high.
pub fn box_around(corners: Corners, spacing: u32, low: u16, high: u16) -> Cuboid
    requires within { IsWithin (2 ^ GREATEST_LEVEL) corners }
    requires spacing_high { spacing ≤ GREATEST_SPACING }
    requires ordered { low ≤ high }
    ensures x0 { result.x0 ≡ pos (spacing * least_of_3 corners.apex.x corners.v0.x corners.v1.x) }
    ensures x1 { result.x1 ≡ pos (spacing * greatest_of_3 corners.apex.x corners.v0.x corners.v1.x) }
    ensures y0 { result.y0 ≡ pos (spacing * least_of_3 corners.apex.y corners.v0.y corners.v1.y) }
    ensures y1 { result.y1 ≡ pos (spacing * greatest_of_3 corners.apex.y corners.v0.y corners.v1.y) }
    ensures z0 { result.z0 ≡ pos low }
    ensures z1 { result.z1 ≡ pos high }
    ensures x_small { spacing * greatest_of_3 corners.apex.x corners.v0.x corners.v1.x ≤ 2 ^ 24 }
    ensures y_small { spacing * greatest_of_3 corners.apex.y corners.v0.y corners.v1.y ≤ 2 ^ 24 }
{
    let x0 = spacing * least(corners.apex.x, corners.v0.x, corners.v1.x);
    let x1 = spacing * greatest(corners.apex.x, corners.v0.x, corners.v1.x);
    let y0 = spacing * least(corners.apex.y, corners.v0.y, corners.v1.y);
    let y1 = spacing * greatest(corners.apex.y, corners.v0.y, corners.v1.y);
    Cuboid {
        x0: i64::from(x0),
        x1: i64::from(x1),
        y0: i64::from(y0),
        y1: i64::from(y1),
        z0: i64::from(low),
        z1: i64::from(high),
    }
}

/// The least of three numbers.
pub fn least(i: u32, j: u32, k: u32) -> u32
    ensures { result ≡ least_of_3 i j k }
{
    i.min(j.min(k))
}

/// The greatest of three numbers.
pub fn greatest(i: u32, j: u32, k: u32) -> u32
    ensures { result ≡ greatest_of_3 i j k }
{
    i.max(j.max(k))
}
