//! The verdict on a certificate of a mesh that keeps points.

ghost use Rattle.std.specs.Prelude.{◌≡◌, ℕ, ◌+◌, ◌*◌, ◌^◌, ◌<◌, ◌≤◌, false, List, All, IfOk, IfSome, IfNone, length};
ghost use Rattle.mesh_defs.specs.declared.point.Point.{Point as PointSeen};
ghost use Rattle.mesh_defs.specs.ClosedSet.{IsClosed};
ghost use Rattle.bintree_laws.specs.Corners.{IsInSquare};
ghost use Rattle.mesh_laws.specs.Sweep.{is_flagged};
ghost use Rattle.certificate_laws.specs.declared.limits.TheConstants.{MOST_REASONS};
ghost use Rattle.certificate_laws.specs.Keeping.{IsNeed, LeadsToKept, IsKeptRejected, IsKeptVerdict};
ghost use Rattle.fit_certify.specs.Keeping.{AreMarked};

use crate::keeping::replay_kept;
use crate::points::{bad_need, keeps, marks_of};
use crate::room::{leaf_room, no_flags};
use crate::verdict::{measure, rejected};
use bintree_addr::{Point, Tri};
use certificate_laws::{FitReject, FitVerdict, KeptCert};
use mesh_defs::NoMemory;
use pgm_grid::Grid;
use std::alloc::Global;

/// The verdict on a certificate of a mesh for a tolerance that keeps these points of the grid: that it is sound, or the
/// first test that fails.
///
/// Its points and its reasons may be any: one that is not of the grid is a bad reason.
/// Cost (not proved): a byte for each splittable triangle, four for each finest one and two for each grid point; a level
/// for each point; a plane height for each reason, and the error of each triangle of the mesh.
pub fn check_kept(
    alloc: Global,
    grid: &Grid,
    cert: &KeptCert,
    tolerance: u32,
    points: &[Point],
) -> Result<FitVerdict, NoMemory>
    requires inside { All (IsInSquare (2 ^ grid.now.n)) points.now }
    ensures verdict { IfOk result (IsKeptVerdict grid.now.n grid.now.heights points.now tolerance cert.now) }
{
    let n = grid.n();
    let marks = marks_of(alloc, n, points)?;
    if let Some(why) = first_fault(&marks, cert, tolerance) {
        return Ok(rejected(why));
    }
    let mut flags = no_flags(alloc, n)?;
    let mut room = leaf_room(alloc, n)?;
    let flags = flags.as_mut_slice();
    match replay_kept(grid, cert, flags) {
        Some(place) => Ok(rejected(FitReject::BadReason {
            index: cert.needs().len() as u32 + place,
        })),
        None => Ok(kept_verdict(grid, cert, points, flags, &mut room)),
    }
}

/// What fails of the tolerance and of the points, if anything does.
fn first_fault(marks: &Grid, cert: &KeptCert, tolerance: u32) -> Option<FitReject>
    ensures some { IfSome result (λ why. (points : List PointSeen) (heights : List ℕ) → AreMarked points marks.now →
        IsKeptRejected marks.now.n heights points tolerance cert.now why) }
    ensures own { IfNone result (cert.now.rest.tolerance ≡ tolerance) }
    ensures needs { IfNone result ((points : List PointSeen) → AreMarked points marks.now →
        All (IsNeed marks.now.n points) cert.now.needs) }
{
    if cert.rest().tolerance() != tolerance {
        return Some(FitReject::OtherTolerance);
    }
    match bad_need(marks, cert.needs()) {
        None => None,
        Some(index) => Some(FitReject::BadReason { index }),
    }
}

/// The verdict on a certificate whose points are needed, where the flags are those of the mesh, in room for a list of
/// all finest triangles.
fn kept_verdict(
    grid: &Grid,
    cert: &KeptCert,
    points: &[Point],
    flags: &[bool],
    room: &mut [Tri],
) -> FitVerdict
    requires inside { All (IsInSquare (2 ^ grid.now.n)) points.now }
    requires room { length room.old ≡ 2 ^ (2 * grid.now.n + 1) }
    requires closed { IsClosed grid.now.n (is_flagged flags.now) }
    requires leads { LeadsToKept grid.now.n grid.now.heights points.now cert.now (is_flagged flags.now) }
    ensures { IsKeptVerdict grid.now.n grid.now.heights points.now cert.now.rest.tolerance cert.now result }
{
    let rest = cert.rest();
    let mesh = measure(grid, flags, room);
    if mesh.error > rest.tolerance() {
        return rejected(FitReject::OverTolerance);
    }
    if !rest.beyond().is_empty() {
        return rejected(FitReject::BadReason {
            index: cert.needs().len() as u32 + rest.needed().len() as u32 + 1,
        });
    }
    if !keeps(grid.n(), points, flags) {
        return rejected(FitReject::TooFewReasons);
    }
    FitVerdict::Certified {
        triangles: mesh.triangles as u32,
        deviation: mesh.error,
    }
}
