//! The verdict on a certificate.

ghost use Rattle.std.specs.Prelude.{◌≡◌, ℕ, ◌+◌, ◌*◌, ◌^◌, ◌<◌, ◌≤◌, ◌↔◌, false, IsTrue, IfOk, length};
ghost use Rattle.mesh_defs.specs.ClosedSet.{IsClosed, leaves_of};
ghost use Rattle.mesh_defs.specs.Priority.{worst_of};
ghost use Rattle.mesh_laws.specs.Sweep.{is_flagged};
ghost use Rattle.fit_laws.specs.Error.{error_of};
ghost use Rattle.certificate_laws.specs.FitCertificate.{LeadsTo, IsFor, IsWithinTarget, IsEnough, IsFitVerdict};

use crate::replay::replay;
use crate::room::{leaf_room, no_flags};
use address_flags::list_leaves;
use bintree_addr::Tri;
use certificate_laws::{FitCert, FitReject, FitVerdict, Target};
use fit_mesh::worst_error;
use mesh_defs::NoMemory;
use pgm_grid::Grid;
use std::alloc::Global;

/// The verdict on a certificate: that it is sound, or the first test that fails.
///
/// Reasons may be of any triangle and any point: one that is not of the grid is a bad reason.
/// Cost (not proved): a byte for each splittable triangle and four for each finest one; a plane height for each reason,
/// and the error of each triangle of the mesh.
pub fn check(
    alloc: Global,
    grid: &Grid,
    cert: &FitCert,
    target: Target,
) -> Result<FitVerdict, NoMemory>
    ensures verdict { IfOk result (IsFitVerdict grid.now.n grid.now.heights target cert.now) }
{
    let tolerance = cert.tolerance();
    if !is_for(target, tolerance) {
        return Ok(rejected(FitReject::OtherTolerance));
    }
    let n = grid.n();
    let mut flags = no_flags(alloc, n)?;
    let mut room = leaf_room(alloc, n)?;
    let flags = flags.as_mut_slice();
    match replay(grid, tolerance, cert.needed(), flags) {
        Some(index) => Ok(rejected(FitReject::BadReason { index })),
        None => Ok(mesh_verdict(grid, cert, target, flags, &mut room)),
    }
}

/// The same in room for a list of all finest triangles, where the tolerance is right and the flags are those of the
/// mesh.
fn mesh_verdict(
    grid: &Grid,
    cert: &FitCert,
    target: Target,
    flags: &mut [bool],
    room: &mut [Tri],
) -> FitVerdict
    requires flags { length flags.old ≡ 2 ^ (2 * grid.now.n + 1) }
    requires room { length room.old ≡ 2 ^ (2 * grid.now.n + 1) }
    requires own { IsFor target cert.now.tolerance }
    requires closed { IsClosed grid.now.n (is_flagged flags.old) }
    requires leads { LeadsTo grid.now.n grid.now.heights cert.now.tolerance (λ a. false) cert.now.needed
        (is_flagged flags.old) }
    ensures { IsFitVerdict grid.now.n grid.now.heights target cert.now result }
{
    let tolerance = cert.tolerance();
    let mesh = measure(grid, flags, room);
    if mesh.error > tolerance {
        return rejected(FitReject::OverTolerance);
    }
    if !is_within(target, mesh.triangles) {
        return rejected(FitReject::OverBudget);
    }
    if let Some(place) = replay(grid, tolerance.saturating_sub(1), cert.beyond(), flags) {
        return rejected(FitReject::BadReason {
            index: cert.needed().len() as u32 + place,
        });
    }
    if !is_enough(target, tolerance, list_leaves(flags, grid.n(), room)) {
        return rejected(FitReject::TooFewReasons);
    }
    FitVerdict::Certified {
        triangles: mesh.triangles as u32,
        deviation: mesh.error,
    }
}

/// A mesh as its number of triangles and its greatest error.
#[derive(Clone, Copy)]
pub(crate) struct Measures {
    pub(crate) triangles: usize,
    pub(crate) error: u32,
}

/// Those of the flagged set, whose leaves go to the front of the room.
pub(crate) fn measure(grid: &Grid, flags: &[bool], room: &mut [Tri]) -> Measures
    requires room { length room.old ≡ 2 ^ (2 * grid.now.n + 1) }
    ensures triangles { result.triangles ≡ length (leaves_of grid.now.n (is_flagged flags.now)) }
    ensures error { result.error
        ≡ worst_of (error_of grid.now.n grid.now.heights) (leaves_of grid.now.n (is_flagged flags.now)) }
    ensures few { result.triangles ≤ length room.new }
{
    let triangles = list_leaves(flags, grid.n(), room);
    Measures {
        triangles,
        error: worst_error(grid, &room[..triangles]),
    }
}

/// The verdict that this is the first test that fails.
pub(crate) fn rejected(why: FitReject) -> FitVerdict
    ensures { result ≡ FitVerdict.Rejected why }
{
    FitVerdict::Rejected { why }
}

/// Whether a certificate with this tolerance may be for the target.
fn is_for(target: Target, own: u32) -> bool
    ensures { IsTrue result ↔ IsFor target own }
{
    match target {
        Target::Error { tolerance } => own == tolerance,
        Target::Budget { triangles: _ } => true,
    }
}

/// Whether so many triangles are within the budget, if there is one.
fn is_within(target: Target, count: usize) -> bool
    ensures { IsTrue result ↔ IsWithinTarget target count }
{
    match target {
        Target::Error { tolerance: _ } => true,
        Target::Budget { triangles } => count <= triangles as usize,
    }
}

/// Whether so many triangles exceed the budget, if there is one and the mesh may have an error.
fn is_enough(target: Target, own: u32, over: usize) -> bool
    ensures { IsTrue result ↔ IsEnough target own over }
{
    match target {
        Target::Error { tolerance: _ } => true,
        Target::Budget { triangles } => own == 0 || over > triangles as usize,
    }
}
