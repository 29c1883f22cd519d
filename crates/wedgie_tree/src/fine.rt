//! Wedges of the last levels, which the table leaves out: from the heights of their points alone.

ghost use Rattle.std.specs.Prelude.{◌≡◌, ◌+◌, ◌*◌, ◌^◌, ◌<◌, ◌≤◌, length, slice_index};
ghost use Rattle.mesh_defs.specs.Triangle.{level_of, corners_of};
ghost use Rattle.mesh_defs.specs.HeightField.{place_of};
ghost use Rattle.mesh_defs.specs.Thickness.{deviation};
ghost use Rattle.bintree_laws.specs.Corners.{IsInSquare};
ghost use Rattle.wedgie_tree.specs.Places.{IsAt};
ghost use Rattle.wedgie_tree.specs.Table.{IsWedge};
ghost use Rattle.wedgie_tree.specs.declared.table.TheConstants.{LEFT_OUT};

use crate::laws::wedge_laws;
use crate::wedge::Wedge;
use bintree_addr::{Corners, Point, Tri, corner_laws, level_laws};
use pgm_grid::Grid;

/// Where the heights of a triangle's corners stand in the list of heights.
///
/// A place is linear in column and row, so that of a base's midpoint is half the sum of its ends' places.
#[derive(Clone, Copy, Debug)]
pub(crate) struct Places {
    pub(crate) apex: usize,
    pub(crate) v0: usize,
    pub(crate) v1: usize,
}

/// The place of a point of the grid.
#[inline(always)]
fn place(grid: &Grid, point: Point) -> usize
    requires in_grid { IsInSquare (2 ^ grid.now.n) point }
    ensures { result ≡ place_of grid.now.n point.x point.y }
{
    let side = grid.side();
    (side - 1 - point.y as usize) * side + point.x as usize
}

/// The places of the corners of a triangle.
#[inline(always)]
pub(crate) fn places_at(grid: &Grid, tri: Tri, corners: Corners) -> Places
    requires of_tri { corners ≡ corners_of grid.now.n tri }
    ensures { IsAt grid.now.n (corners_of grid.now.n tri) result }
{
    corner_laws();
    Places {
        apex: place(grid, corners.apex),
        v0: place(grid, corners.v0),
        v1: place(grid, corners.v1),
    }
}

/// The places of the left child.
#[inline(always)]
pub(crate) fn left_of(grid: &Grid, tri: Tri, places: Places) -> Places
    requires splittable { level_of tri < 2 * grid.now.n }
    requires at { IsAt grid.now.n (corners_of grid.now.n tri) places }
    ensures { IsAt grid.now.n (corners_of grid.now.n (2 * tri)) result }
{
    let _few = grid.points();
    Places {
        apex: (places.v0 + places.v1) / 2,
        v0: places.apex,
        v1: places.v0,
    }
}

/// The places of the right child.
#[inline(always)]
pub(crate) fn right_of(grid: &Grid, tri: Tri, places: Places) -> Places
    requires splittable { level_of tri < 2 * grid.now.n }
    requires at { IsAt grid.now.n (corners_of grid.now.n tri) places }
    ensures { IsAt grid.now.n (corners_of grid.now.n (2 * tri + 1)) result }
{
    let _few = grid.points();
    Places {
        apex: (places.v0 + places.v1) / 2,
        v0: places.v1,
        v1: places.apex,
    }
}

/// The height at a place.
#[inline(always)]
fn height_in(grid: &Grid, place: usize) -> u16
    requires { place < length grid.now.heights }
    ensures { result ≡ slice_index grid.now.heights place }
{
    grid.heights()[place]
}

/// How far the surface at the middle of the base is from the middle of the base's ends, in half units of height.
#[inline(always)]
fn deviation_at(grid: &Grid, tri: Tri, places: Places) -> u32
    requires splittable { level_of tri < 2 * grid.now.n }
    requires at { IsAt grid.now.n (corners_of grid.now.n tri) places }
    ensures { result ≡ deviation grid.now.n grid.now.heights (corners_of grid.now.n tri) }
{
    let _few = grid.points();
    let surface = 2 * u32::from(height_in(grid, (places.v0 + places.v1) / 2));
    let base = u32::from(height_in(grid, places.v0)) + u32::from(height_in(grid, places.v1));
    surface.abs_diff(base)
}

/// The wedge of a splittable triangle by those of its children.
#[inline(always)]
pub(crate) fn over(grid: &Grid, tri: Tri, places: Places, left: Wedge, right: Wedge) -> Wedge
    requires splittable { level_of tri < 2 * grid.now.n }
    requires at { IsAt grid.now.n (corners_of grid.now.n tri) places }
    requires of_left { IsWedge grid.now (2 * tri) left }
    requires of_right { IsWedge grid.now (2 * tri + 1) right }
    ensures { IsWedge grid.now tri result }
{
    wedge_laws();
    let _bounded = grid.maxval();
    Wedge {
        thickness: left.thickness.max(right.thickness) + deviation_at(grid, tri, places),
        low: left.low.min(right.low),
        high: left.high.max(right.high),
    }
}

/// The wedge of a finest triangle, which holds no points but its corners.
#[inline(always)]
fn wedge_0(grid: &Grid, tri: Tri, places: Places) -> Wedge
    requires finest { level_of tri ≡ 2 * grid.now.n }
    requires at { IsAt grid.now.n (corners_of grid.now.n tri) places }
    ensures { IsWedge grid.now tri result }
{
    wedge_laws();
    let _valid = grid.points();
    let apex = height_in(grid, places.apex);
    let v0 = height_in(grid, places.v0);
    let v1 = height_in(grid, places.v1);
    Wedge {
        thickness: 0,
        low: apex.min(v0.min(v1)),
        high: apex.max(v0.max(v1)),
    }
}

/// The wedge of a triangle with one level below it.
#[inline(always)]
fn wedge_1(grid: &Grid, tri: Tri, places: Places) -> Wedge
    requires level { level_of tri + 1 ≡ 2 * grid.now.n }
    requires at { IsAt grid.now.n (corners_of grid.now.n tri) places }
    ensures { IsWedge grid.now tri result }
{
    let _small = grid.n();
    let left = wedge_0(grid, tri.left(), left_of(grid, tri, places));
    let right = wedge_0(grid, tri.right(), right_of(grid, tri, places));
    over(grid, tri, places, left, right)
}

/// The wedge of a triangle with two levels below it.
#[inline(always)]
fn wedge_2(grid: &Grid, tri: Tri, places: Places) -> Wedge
    requires level { level_of tri + 2 ≡ 2 * grid.now.n }
    requires at { IsAt grid.now.n (corners_of grid.now.n tri) places }
    ensures { IsWedge grid.now tri result }
{
    let _small = grid.n();
    let left = wedge_1(grid, tri.left(), left_of(grid, tri, places));
    let right = wedge_1(grid, tri.right(), right_of(grid, tri, places));
    over(grid, tri, places, left, right)
}

/// The wedge of a triangle with three levels below it.
#[inline(always)]
fn wedge_3(grid: &Grid, tri: Tri, places: Places) -> Wedge
    requires level { level_of tri + 3 ≡ 2 * grid.now.n }
    requires at { IsAt grid.now.n (corners_of grid.now.n tri) places }
    ensures { IsWedge grid.now tri result }
{
    let _small = grid.n();
    let left = wedge_2(grid, tri.left(), left_of(grid, tri, places));
    let right = wedge_2(grid, tri.right(), right_of(grid, tri, places));
    over(grid, tri, places, left, right)
}

/// The wedge of a triangle with four levels below it.
#[inline(always)]
fn wedge_4(grid: &Grid, tri: Tri, places: Places) -> Wedge
    requires level { level_of tri + 4 ≡ 2 * grid.now.n }
    requires at { IsAt grid.now.n (corners_of grid.now.n tri) places }
    ensures { IsWedge grid.now tri result }
{
    let _small = grid.n();
    let left = wedge_3(grid, tri.left(), left_of(grid, tri, places));
    let right = wedge_3(grid, tri.right(), right_of(grid, tri, places));
    over(grid, tri, places, left, right)
}

/// The wedge of a triangle of the last levels, whose corners have these places, from the heights of the points that
/// it holds.
///
/// Cost (not proved): at most 15 heights and 15 joins.
pub(crate) fn fine_wedge_at(grid: &Grid, tri: Tri, places: Places) -> Wedge
    requires level { level_of tri ≤ 2 * grid.now.n }
    requires fine { 2 * grid.now.n ≤ level_of tri + LEFT_OUT }
    requires at { IsAt grid.now.n (corners_of grid.now.n tri) places }
    ensures { IsWedge grid.now tri result }
{
    match 2 * grid.n() - tri.level() {
        0 => wedge_0(grid, tri, places),
        1 => wedge_1(grid, tri, places),
        2 => wedge_2(grid, tri, places),
        3 => wedge_3(grid, tri, places),
        _ => wedge_4(grid, tri, places),
    }
}

/// The same, where the corners are known.
pub(crate) fn fine_wedge(grid: &Grid, tri: Tri, corners: Corners) -> Wedge
    requires level { level_of tri ≤ 2 * grid.now.n }
    requires fine { 2 * grid.now.n ≤ level_of tri + LEFT_OUT }
    requires of_tri { corners ≡ corners_of grid.now.n tri }
    ensures { IsWedge grid.now tri result }
{
    fine_wedge_at(grid, tri, places_at(grid, tri, corners))
}
