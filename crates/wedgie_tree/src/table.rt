//! Filling the table of wedges, and mending it where heights changed, from the finest triangles up.

ghost use Rattle.std.specs.Prelude.{◌≡◌, ℕ, ◌+◌, ◌-◌, ◌*◌, ◌^◌, ◌<◌, ◌≤◌, length};
ghost use Rattle.mesh_defs.specs.Triangle.{level_of, corners_of};
ghost use Rattle.mesh_defs.specs.declared.level.TheConstants.{GREATEST_LEVEL};
ghost use Rattle.wedgie_tree.specs.Places.{IsAt};
ghost use Rattle.wedgie_tree.specs.Table.{kept_levels, IsWedge, HasEntry, AllUnder, IsTable, IsRightOff};

use crate::Area;
use crate::fine::{Places, fine_wedge, fine_wedge_at, left_of, over, places_at, right_of};
use crate::laws::wedge_laws;
use crate::shape::deviation_of;
use crate::wedge::Wedge;
use bintree_addr::{Corners, Tri, child_corners, corner_laws, level_laws};
use pgm_grid::Grid;

/// How many of the last splittable levels have no place in the table, at most: a wedge there is made from its
/// heights, which costs less than a read of memory that is far away.
///
/// Each further level halves the table and doubles the heights that a wedge is made from.
pub const LEFT_OUT: u32 = 4;

/// The number of levels that the table has.
pub fn levels(n: u32) -> u32
    requires { n ≤ GREATEST_LEVEL }
    ensures { result ≡ kept_levels n }
{
    (2 * n).saturating_sub(LEFT_OUT)
}

/// The number of places in the table: one for each address of its levels, and two unused ones.
pub fn places(n: u32) -> usize
    requires { n ≤ GREATEST_LEVEL }
    ensures { result ≡ 2 ^ (kept_levels n + 1) }
{
    1 << (levels(n) + 1)
}

/// The wedge of a triangle of a kept level, which stands in the table.
pub fn entry(grid: &Grid, table: &[Wedge], tri: Tri) -> Wedge
    requires table { IsTable grid.now table.now }
    requires kept { level_of tri < kept_levels grid.now.n }
    ensures { IsWedge grid.now tri result }
{
    level_laws();
    table[tri.number() as usize]
}

/// The wedge of a splittable triangle by those of its children.
pub fn joined(grid: &Grid, tri: Tri, corners: Corners, left: Wedge, right: Wedge) -> Wedge
    requires splittable { level_of tri < 2 * grid.now.n }
    requires of_tri { corners ≡ corners_of grid.now.n tri }
    requires of_left { IsWedge grid.now (2 * tri) left }
    requires of_right { IsWedge grid.now (2 * tri + 1) right }
    ensures { IsWedge grid.now tri result }
{
    corner_laws();
    wedge_laws();
    // The heights are bounded, so the thickness fits.
    let _bounded = grid.maxval();
    Wedge {
        thickness: left.thickness.max(right.thickness) + deviation_of(grid, corners),
        low: left.low.min(right.low),
        high: left.high.max(right.high),
    }
}

/// Mends the entries of a triangle and of all its descendants, and answers its own wedge.
///
/// Entries that are right stay right. A triangle of the last levels has no entry.
/// Cost (not proved): a step for each descendant that meets the area, and for each child of one. The
/// recursion is as deep as there are levels.
pub fn mend_under(table: &mut [Wedge], grid: &Grid, area: Area, tri: Tri, corners: Corners) -> Wedge
    requires room { length table.old ≡ 2 ^ (kept_levels grid.now.n + 1) }
    requires level { level_of tri ≤ 2 * grid.now.n }
    requires of_tri { corners ≡ corners_of grid.now.n tri }
    requires clear { IsRightOff grid.now area table.old }
    ensures value { IsWedge grid.now tri result }
    ensures under { AllUnder (kept_levels grid.now.n - level_of tri) (HasEntry grid.now table.new) tri }
    ensures others { (a : ℕ) → HasEntry grid.now table.old a → HasEntry grid.now table.new a }
    ensures clear { IsRightOff grid.now area table.new }
{
    corner_laws();
    level_laws();
    if tri.level() >= levels(grid.n()) {
        return fine_wedge(grid, tri, corners);
    }
    if !area.meets(corners) {
        return table[tri.number() as usize];
    }
    let left = mend_under(table, grid, area, tri.left(), child_corners(corners, false));
    let right = mend_under(table, grid, area, tri.right(), child_corners(corners, true));
    let wedge = joined(grid, tri, corners, left, right);
    table[tri.number() as usize] = wedge;
    wedge
}

/// Mends the entries of all triangles that hold a point of the area; the others are right.
pub fn mend(table: &mut [Wedge], grid: &Grid, area: Area)
    requires room { length table.old ≡ 2 ^ (kept_levels grid.now.n + 1) }
    requires clear { IsRightOff grid.now area table.old }
    ensures { IsTable grid.now table.new }
{
    corner_laws();
    level_laws();
    let n = grid.n();
    let below_diagonal = base(2);
    let above_diagonal = base(3);
    mend_under(table, grid, area, below_diagonal, below_diagonal.corners(n));
    mend_under(table, grid, area, above_diagonal, above_diagonal.corners(n));
}

/// Fills the entries of a triangle, whose corners have these places, and of all its descendants, and answers its own
/// wedge.
///
/// `mend_under` over an area that each triangle meets does the same, and asks each of them.
fn fill_under(table: &mut [Wedge], grid: &Grid, tri: Tri, places: Places) -> Wedge
    requires room { length table.old ≡ 2 ^ (kept_levels grid.now.n + 1) }
    requires level { level_of tri ≤ 2 * grid.now.n }
    requires at { IsAt grid.now.n (corners_of grid.now.n tri) places }
    ensures value { IsWedge grid.now tri result }
    ensures under { AllUnder (kept_levels grid.now.n - level_of tri) (HasEntry grid.now table.new) tri }
    ensures others { (a : ℕ) → HasEntry grid.now table.old a → HasEntry grid.now table.new a }
{
    level_laws();
    if levels(grid.n()) <= tri.level() {
        return fine_wedge_at(grid, tri, places);
    }
    let left = fill_under(table, grid, tri.left(), left_of(grid, tri, places));
    let right = fill_under(table, grid, tri.right(), right_of(grid, tri, places));
    let wedge = over(grid, tri, places, left, right);
    table[tri.number() as usize] = wedge;
    wedge
}

/// Fills the whole table.
pub fn fill(table: &mut [Wedge], grid: &Grid)
    requires { length table.old ≡ 2 ^ (kept_levels grid.now.n + 1) }
    ensures { IsTable grid.now table.new }
{
    level_laws();
    let n = grid.n();
    let below_diagonal = base(2);
    let above_diagonal = base(3);
    let lower = places_at(grid, below_diagonal, below_diagonal.corners(n));
    let upper = places_at(grid, above_diagonal, above_diagonal.corners(n));
    fill_under(table, grid, below_diagonal, lower);
    fill_under(table, grid, above_diagonal, upper);
}

/// One of the halves of the square, 2 or 3.
fn base(number: u32) -> Tri
    requires low { 2 ≤ number }
    requires high { number < 4 }
    ensures value { result ≡ number }
    ensures level { level_of result ≡ 0 }
{
    level_laws();
    Tri::at(number).unwrap()
}
