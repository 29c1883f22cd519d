//! Making a certificate.

ghost use Rattle.std.specs.Prelude.{◌≡◌, ℕ, ◌+◌, ◌-◌, ◌*◌, ◌^◌, ◌≤◌, false, List, IfOk, length};
ghost use Rattle.mesh_defs.specs.ClosedSet.{IsClosed, leaves_of};
ghost use Rattle.mesh_defs.specs.declared.level.TheConstants.{GREATEST_FILE_LEVEL};
ghost use Rattle.mesh_laws.specs.Sweep.{is_flagged};
ghost use Rattle.fit_laws.specs.Error.{error_of};
ghost use Rattle.certificate_laws.specs.FitCertificate.{LeadsTo, IsFitSound};
ghost use Rattle.certificate_laws.specs.declared.limits.TheConstants.{MOST_REASONS};
ghost use Rattle.certificate_laws.specs.Making.{IsPossible, IsBestTolerance, IsBelow, HasNoneBehind};
ghost use Rattle.fit_certify.specs.Settling.{AreKnown, IsLower};

use crate::room::no_flags;
use crate::settle::settle;
use certificate_laws::{FitCert, Target, Witness};
use fit_mesh::Fit;
use mesh_defs::NoMemory;
use pgm_grid::Grid;
use std::alloc::Global;

/// A sound certificate of the best mesh for an error or a budget: the mesh of `Fit::frame` of `fit_mesh`.
///
/// Its tolerance is that of the target, or the deviation of the mesh. Reasons stand behind the mesh for a budget alone.
/// A grid of at most 2,049 points a side has no more reasons than a certificate may have.
/// Cost (not proved): that of `Fit::frame` for a budget; the error of each triangle that is split or a leaf, once, and a
/// few passes over them; two bytes for each splittable triangle, and 12 for each reason.
pub fn make(alloc: Global, grid: &Grid, target: Target) -> Result<FitCert, NoMemory>
    requires file_level { grid.now.n ≤ GREATEST_FILE_LEVEL }
    requires possible { IsPossible target }
    ensures sound { IfOk result (λ c. (mesh : List ℕ) × IsFitSound grid.now.n grid.now.heights target c mesh) }
    ensures behind { IfOk result (λ c. HasNoneBehind target c.beyond) }
{
    let tolerance = tolerance_for(alloc, grid, target)?;
    let lower = lower_of(target, tolerance);
    let n = grid.n();
    let mut flags = no_flags(alloc, n)?;
    let mut known = no_flags(alloc, n)?;
    let flags = flags.as_mut_slice();
    let known = known.as_mut_slice();
    let needed = settle(alloc, grid, tolerance, lower, flags, known)?;
    let beyond = settle_below(alloc, grid, target, lower, flags, known)?;
    Ok(FitCert::new(tolerance, needed, beyond))
}

/// The least tolerance of the reasons: for a budget that of those behind the mesh, which are off by no less than the
/// tolerance.
fn lower_of(target: Target, tolerance: u32) -> u32
    ensures value { IsLower target tolerance result }
    ensures most { result ≤ tolerance }
{
    match target {
        Target::Error { tolerance: _ } => tolerance,
        Target::Budget { triangles: _ } => tolerance.saturating_sub(1),
    }
}

/// The tolerance of the target, or the deviation of the mesh of its budget.
fn tolerance_for(alloc: Global, grid: &Grid, target: Target) -> Result<u32, NoMemory>
    requires possible { IsPossible target }
    ensures best { IfOk result (IsBestTolerance grid.now.n (error_of grid.now.n grid.now.heights) target) }
{
    match target {
        Target::Error { tolerance } => Ok(tolerance),
        Target::Budget { triangles } => {
            let mut fit = Fit::make(alloc, grid.n(), triangles)?;
            let note = fit.frame(grid, 0);
            Ok(note.deviation)
        }
    }
}

/// For a budget, splits each leaf that is off by more than `lower`, until none is. Answers the reasons.
fn settle_below(
    alloc: Global,
    grid: &Grid,
    target: Target,
    lower: u32,
    flags: &mut [bool],
    known: &mut [bool],
) -> Result<Vec<Witness>, NoMemory>
    requires file_level { grid.now.n ≤ GREATEST_FILE_LEVEL }
    requires flags { length flags.old ≡ 2 ^ (2 * grid.now.n + 1) }
    requires closed { IsClosed grid.now.n (is_flagged flags.old) }
    requires room { length known.old ≡ 2 ^ (2 * grid.now.n + 1) }
    requires known { AreKnown grid.now.n grid.now.heights lower known.old }
    ensures leads { IfOk result (λ v. (own : ℕ) → IsLower target own lower →
        LeadsTo grid.now.n grid.now.heights (own - 1) (is_flagged flags.old) v.items (is_flagged flags.new)) }
    ensures below { IfOk result (λ v. (own : ℕ) → IsLower target own lower →
        IsBelow target (error_of grid.now.n grid.now.heights) (own - 1) (leaves_of grid.now.n (is_flagged flags.new))) }
    ensures few { IfOk result (λ v. length v.items ≤ MOST_REASONS) }
    ensures none { IfOk result (λ v. HasNoneBehind target v.items) }
{
    match target {
        Target::Error { tolerance: _ } => Ok(Vec::new(alloc)),
        Target::Budget { triangles: _ } => settle(alloc, grid, lower, lower, flags, known),
    }
}
