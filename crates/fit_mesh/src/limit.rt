//! By how much a mesh may be off, and whether a triangle is off by more.

ghost use Rattle.std.specs.Prelude.{◌≡◌, ◌*◌, ◌<◌, ◌≤◌, ◌↔◌, All, IsTrue};
ghost use Rattle.mesh_defs.specs.Triangle.{level_of, corners_of};
ghost use Rattle.mesh_defs.specs.Priority.{worst_of};
ghost use Rattle.fit_laws.specs.Error.{error_of};
ghost use Rattle.fit_mesh.specs.Limit.{tolerance_of, error_within, IsComplete};

use crate::error::{worst_error, worst_within};
use bintree_addr::{Corners, Tri};
use mesh_measure::{exceeds_at, exceeds_own_at};
use pgm_grid::Grid;

/// By how much a mesh may be off at a grid point, in units of height, times 2^n.
#[derive(Clone, Copy)]
pub enum Limit<'a> {
    /// At each by so much.
    Common(u32),
    /// At each by its own tolerance, in row order.
    Own(&'a [u32]),
}

/// Whether the triangle is off by more, which no finest one is.
pub(crate) fn is_over(grid: &Grid, t: Tri, corners: Corners, limit: Limit) -> bool
    requires level { level_of t ≤ 2 * grid.now.n }
    requires corners { corners ≡ corners_of grid.now.n t }
    requires complete { IsComplete grid.now.n limit }
    ensures { IsTrue result
        ↔ (tolerance_of limit.entry < error_within grid.now.n grid.now.heights limit.entry t) }
{
    let _address = t.number();
    if t.level() >= 2 * grid.n() {
        return false;
    }
    match limit {
        Limit::Common(tolerance) => exceeds_at(grid, t, corners, tolerance),
        Limit::Own(tolerances) => exceeds_own_at(grid, t, corners, tolerances),
    }
}

/// The greatest error of a triangle of the list, none of which is off by more than the limit.
pub(crate) fn worst_under(grid: &Grid, leaves: &[Tri], limit: Limit) -> u32
    requires levels { All (λ a. level_of a ≤ 2 * grid.now.n) leaves.now }
    requires within { worst_of (error_within grid.now.n grid.now.heights limit) leaves.now
        ≤ tolerance_of limit }
    ensures { result ≡ worst_of (error_of grid.now.n grid.now.heights) leaves.now }
{
    match limit {
        Limit::Common(tolerance) => worst_within(grid, leaves, tolerance),
        Limit::Own(_) => worst_error(grid, leaves),
    }
}
