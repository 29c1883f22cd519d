//! The judge of a mesh over a surface: partners, the rule of partners, and the greatest deviation.

ghost use Rattle.std.specs.Prelude.{◌≡◌, ℕ, ◌+◌, ◌*◌, ◌/◌, ◌<◌, ◌≤◌, ◌↔◌, IsTrue, List, IfOk, MatchResult, length};
ghost use Rattle.mesh_defs.specs.declared.point.Point.{Point};
ghost use Rattle.mesh_cover.specs.Conforming.{IsFault};
ghost use Rattle.mesh_within.specs.Deviation.{IsDeviation, IsWithinError};
ghost use Rattle.mesh_within.specs.Sound.{IsSound, IsRefused};

use crate::deviation::{Deviation, greatest_deviation};
use crate::edges::partners;
use mesh_cover::{Fault, first_fault};
use mesh_defs::{NoMemory, Point};
use std::alloc::Global;

/// Whether a gap over an area is at most so many thousandths.
fn is_at_most(gap: u64, area: u32, error: u32) -> bool
    ensures { IsTrue result ↔ (1000 * gap ≤ error * area) }
{
    1000 * u128::from(gap) <= u128::from(error) * u128::from(area)
}

/// Whether a deviation is within an error, in thousandths of a unit of height.
pub fn is_within(deviation: Deviation, error: u32) -> bool
    ensures value { IsTrue result ↔ (1000 * deviation.gap ≤ error * deviation.area) }
    ensures each { (right top : ℕ) (surface : List ℕ) (points : List Point) (heights corners : List ℕ) →
        IsDeviation right top surface points heights corners deviation →
        IsTrue result ↔ IsWithinError right top surface points heights corners error }
{
    is_at_most(deviation.gap, deviation.area, error)
}

/// The judge of a mesh that anyone made: its greatest deviation from a surface where it is conforming, or the first place where
/// it is not.
///
/// The surface has a height for each grid point, rows from the top, each from left to right; columns run from 0 to `right`, rows
/// from 0 at the bottom to `top`. Vertices have a point and a height each; corners are numbers of vertices, three a triangle, named
/// counterclockwise. Two vertices with the same point and height count as one.
/// Cost (not proved): that of sorting the edges, of `first_fault` and of `greatest_deviation`.
pub fn judge(
    alloc: Global,
    right: u32,
    top: u32,
    surface: &[u16],
    points: &[Point],
    heights: &[u16],
    corners: &[u32],
) -> Result<Result<Deviation, Fault>, NoMemory>
    requires columns { 0 < right }
    requires reach { right ≤ 16384 }
    requires rows { 0 < top }
    requires height { top ≤ 16384 }
    requires surface { length surface.now ≡ (top + 1) * (right + 1) }
    requires threes { length corners.now ≡ length corners.now / 3 * 3 }
    requires few { length corners.now ≤ 50331648 }
    requires heights { length heights.now ≡ length points.now }
    ensures { IfOk result (λ verdict. MatchResult verdict
        (IsSound right top surface.now points.now heights.now corners.now)
        (IsRefused right top points.now heights.now corners.now)) }
{
    let across = partners(alloc, points, heights, corners)?;
    let mut rows = vec![in alloc; false; top as usize]?;
    if let Some(fault) = first_fault(right, points, heights, corners, &across, &mut rows) {
        return Ok(Err(fault));
    }
    Ok(Ok(greatest_deviation(right, top, surface, points, heights, corners)))
}
