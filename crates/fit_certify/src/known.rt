//! Triangles that are measured once: those known to be within a tolerance are marked.

ghost use Rattle.std.specs.Prelude.{◌≡◌, ◌+◌, ◌*◌, ◌^◌, ◌≤◌, IfSome, IfNone, length};
ghost use Rattle.mesh_defs.specs.Triangle.{IsSplittable};
ghost use Rattle.fit_laws.specs.Error.{error_of};
ghost use Rattle.mesh_measure.specs.Above.{IsAbove};
ghost use Rattle.fit_certify.specs.Settling.{AreKnown};

use address_flags::{flag, is_set};
use bintree_addr::{Point, Tri};
use mesh_measure::{exceeds, off_point, point_above};
use pgm_grid::Grid;

/// A grid point of the triangle where the surface is farther from its plane than the tolerance; none where the
/// triangle's error is not above it.
///
/// A triangle that is known to be off by no more than `lower` is not measured, and one that is found to be is known.
/// Cost (not proved): that of `exceeds`; where that is so, mostly that of `off_point` at the midpoint of the base.
pub(crate) fn point_off(
    grid: &Grid,
    t: Tri,
    tolerance: u32,
    lower: u32,
    known: &mut [bool],
) -> Option<Point>
    requires splittable { IsSplittable grid.now.n t }
    requires lower { lower ≤ tolerance }
    requires room { length known.old ≡ 2 ^ (2 * grid.now.n + 1) }
    requires known { AreKnown grid.now.n grid.now.heights lower known.old }
    ensures room { length known.new ≡ length known.old }
    ensures known { AreKnown grid.now.n grid.now.heights lower known.new }
    ensures found { IfSome result (IsAbove grid.now.n grid.now.heights t tolerance) }
    ensures none { IfNone result (error_of grid.now.n grid.now.heights t ≤ tolerance) }
{
    if is_set(known, t) {
        return None;
    }
    if !exceeds(grid, t, lower) {
        flag(known, t);
        return None;
    }
    match middle_above(grid, t, tolerance) {
        Some(middle) => Some(middle),
        None => point_above(grid, t, tolerance),
    }
}

/// The midpoint of the triangle's base, where it is such a point: most triangles are farthest off about there.
fn middle_above(grid: &Grid, t: Tri, tolerance: u32) -> Option<Point>
    requires splittable { IsSplittable grid.now.n t }
    ensures { IfSome result (IsAbove grid.now.n grid.now.heights t tolerance) }
{
    let middle = t.centre(grid.n());
    match off_point(grid, t, middle.x, middle.y) {
        Some(off) if off > u64::from(tolerance) => Some(middle),
        _ => None,
    }
}
