//! The error of a triangle, asked of the grid.

ghost use Rattle.std.specs.Prelude.{◌≡◌, ◌*◌, ◌≤◌, All, IsTrue, max};
ghost use Rattle.mesh_defs.specs.Triangle.{level_of, corners_of};
ghost use Rattle.mesh_defs.specs.Priority.{worst_of};
ghost use Rattle.fit_laws.specs.Error.{error_of};

use bintree_addr::{Corners, Tri};
use mesh_measure::{corners_in, off_point, off_triangle_at};
use pgm_grid::Grid;

/// The error of the triangle, in units of height, times 2^n: of a finest one, which holds its corners alone, none.
pub fn error(grid: &Grid, t: Tri) -> u32
    requires level { level_of t ≤ 2 * grid.now.n }
    ensures { result ≡ error_of grid.now.n grid.now.heights t }
{
    let _address = t.number();
    if t.level() >= 2 * grid.n() {
        return 0;
    }
    error_at(grid, t, corners_in(grid, t))
}

/// The same of a triangle whose corners are known.
pub(crate) fn error_at(grid: &Grid, t: Tri, corners: Corners) -> u32
    requires level { level_of t ≤ 2 * grid.now.n }
    requires corners { corners ≡ corners_of grid.now.n t }
    ensures { result ≡ error_of grid.now.n grid.now.heights t }
{
    off_triangle_at(grid, t, corners)
}

/// The greatest error of a triangle of the list.
pub fn worst_error(grid: &Grid, leaves: &[Tri]) -> u32
    requires levels { All (λ a. level_of a ≤ 2 * grid.now.n) leaves.now }
    ensures { result ≡ worst_of (error_of grid.now.n grid.now.heights) leaves.now }
{
    let mut worst = 0;
    for leaf in leaves {
        worst = greater(worst, error(grid, *leaf));
    }
    worst
}

/// The same where none is above a bound: mostly an error is the bound, and then no other is looked at.
pub fn worst_within(grid: &Grid, leaves: &[Tri], bound: u32) -> u32
    requires levels { All (λ a. level_of a ≤ 2 * grid.now.n) leaves.now }
    requires bound { worst_of (error_of grid.now.n grid.now.heights) leaves.now ≤ bound }
    ensures { result ≡ worst_of (error_of grid.now.n grid.now.heights) leaves.now }
{
    if is_reached(grid, leaves, bound) {
        return bound;
    }
    worst_error(grid, leaves)
}

/// Whether the surface is off by this much at the midpoint of the base of a triangle of the list.
///
/// There it is off by a multiple of 2^(n - 1): half a sum of heights, times 2^n.
fn is_reached(grid: &Grid, leaves: &[Tri], off: u32) -> bool
    requires levels { All (λ a. level_of a ≤ 2 * grid.now.n) leaves.now }
    ensures { IsTrue result → off ≤ worst_of (error_of grid.now.n grid.now.heights) leaves.now }
{
    if off.trailing_zeros() + 1 < grid.n() {
        return false;
    }
    for leaf in leaves {
        if off_middle(grid, *leaf) == u64::from(off) {
            return true;
        }
    }
    false
}

/// How far the surface is from the triangle's plane at the midpoint of its base, or 0 where the triangle has none.
fn off_middle(grid: &Grid, t: Tri) -> u64
    requires level { level_of t ≤ 2 * grid.now.n }
    ensures { result ≤ error_of grid.now.n grid.now.heights t }
{
    let _address = t.number();
    if t.level() >= 2 * grid.n() {
        return 0;
    }
    let centre = t.centre(grid.n());
    match off_point(grid, t, centre.x, centre.y) {
        None => 0,
        Some(off) => off,
    }
}

/// The greater of two errors.
pub fn greater(some: u32, other: u32) -> u32
    ensures { result ≡ max some other }
{
    some.max(other)
}
