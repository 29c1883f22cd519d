//! A triangle's wedge by its corners' and its centre's heights and those of its children.

ghost use Rattle.std.specs.Prelude.{◌≡◌, ◌+◌, ◌*◌, ◌^◌, ◌≤◌, max, if◌then◌else◌};
ghost use Rattle.mesh_defs.specs.Thickness.{height_of};
ghost use Rattle.bintree_laws.specs.Corners.{IsWithin, IsInSquare};
ghost use Rattle.page_laws.specs.Pages.{half_corners};
ghost use Rattle.page_laws.specs.Loaded.{bend};
ghost use Rattle.page_wedges.specs.Page.{joined_in};
ghost use Rattle.page_wedges.specs.declared.join.TheConstants.{THICKEST};

use bintree_addr::{Corners, Point, point_between};
use page_laws::KnownWedge;
use pgm_grid::Grid;

/// The greatest thickness of a triangle in the largest terrain: twice the greatest height for each of its 28 levels.
pub const THICKEST: u32 = 131_070 * 28;

/// The height at a point of the grid.
fn height_at(grid: &Grid, point: Point) -> u16
    requires in_grid { IsInSquare (2 ^ grid.now.n) point }
    ensures value { result ≡ height_of grid.now.n grid.now.heights point }
{
    grid.height(point.x, point.y)
}

/// How far the surface is from the middle of a base, in half units of height.
fn bend_of(grid: &Grid, corners: Corners) -> u32
    requires within { IsWithin (2 ^ grid.now.n) corners }
    ensures value { result ≡ bend (height_of grid.now.n grid.now.heights) corners }
    ensures bounded { result ≤ 131070 }
{
    // The grid is small, so the sums of corners fit.
    let _small = grid.n();
    let middle = point_between(corners.v0, corners.v1);
    let surface = 2 * u32::from(height_at(grid, middle));
    let base = u32::from(height_at(grid, corners.v0)) + u32::from(height_at(grid, corners.v1));
    surface.abs_diff(base)
}

/// The wedge of a triangle with these corners by those of its children.
pub fn joined(grid: &Grid, corners: Corners, left: KnownWedge, right: KnownWedge) -> KnownWedge
    requires within { IsWithin (2 ^ grid.now.n) corners }
    requires left_small { left.thickness ≤ THICKEST + 131070 }
    requires right_small { right.thickness ≤ THICKEST + 131070 }
    ensures value { result ≡ joined_in grid.now corners left right }
    ensures bounded { result.thickness ≤ max left.thickness right.thickness + 131070 }
{
    KnownWedge {
        thickness: left.thickness.max(right.thickness) + bend_of(grid, corners),
        low: left.low.min(right.low),
        high: left.high.max(right.high),
    }
}

/// The corners of a half of a square with this last column and row.
pub fn half_square(side: u32, turned: bool, upper: bool) -> Corners
    ensures value { result ≡ half_corners side turned (if upper then 1 else 0) }
{
    let lower_left = Point { x: 0, y: 0 };
    let lower_right = Point { x: side, y: 0 };
    let upper_left = Point { x: 0, y: side };
    let upper_right = Point { x: side, y: side };
    let (apex, v0, v1) = match (turned, upper) {
        (false, false) => (lower_left, lower_right, upper_left),
        (false, true) => (upper_right, upper_left, lower_right),
        (true, false) => (lower_right, upper_right, lower_left),
        (true, true) => (upper_left, lower_left, upper_right),
    };
    Corners { apex, v0, v1 }
}
