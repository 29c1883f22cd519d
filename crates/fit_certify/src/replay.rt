//! Reasons replayed, one after the other.

ghost use Rattle.std.specs.Prelude.{◌≡◌, ℕ, ◌+◌, ◌*◌, ◌^◌, ◌<◌, ◌≤◌, ◌↔◌, IsTrue, IfSome, IfNone, length, Contains};
ghost use Rattle.std.specs.Prelude.{slice_index_or};
ghost use Rattle.mesh_defs.specs.Triangle.{IsSplittable};
ghost use Rattle.mesh_defs.specs.ClosedSet.{IsClosed, leaves_of};
ghost use Rattle.mesh_laws.specs.Sweep.{is_flagged};
ghost use Rattle.certificate_laws.specs.FitCertificate.{IsOff, IsFitReason, LeadsTo, IsFirstBadFit};
ghost use Rattle.certificate_laws.specs.declared.limits.TheConstants.{MOST_REASONS};

use crate::force::force;
use address_flags::is_set;
use bintree_addr::Tri;
use certificate_laws::Witness;
use mesh_measure::off_point;
use pgm_grid::Grid;

/// Splits each reason's triangle, with what that forces; or the number of the first reason that is none, counted
/// from 1.
///
/// Cost (not proved): a plane height for each reason, and a few steps for each triangle that is split. Takes no memory.
pub(crate) fn replay(
    grid: &Grid,
    tolerance: u32,
    reasons: &[Witness],
    flags: &mut [bool],
) -> Option<u32>
    requires flags { length flags.old ≡ 2 ^ (2 * grid.now.n + 1) }
    requires closed { IsClosed grid.now.n (is_flagged flags.old) }
    requires few { length reasons.now ≤ MOST_REASONS }
    ensures flags { length flags.new ≡ length flags.old }
    ensures closed { IsClosed grid.now.n (is_flagged flags.new) }
    ensures all { IfNone result (LeadsTo grid.now.n grid.now.heights tolerance
        (is_flagged flags.old) reasons.now (is_flagged flags.new)) }
    ensures bad { IfSome result (λ k. IsFirstBadFit grid.now.n grid.now.heights tolerance
        (is_flagged flags.old) reasons.now k) }
    ensures place { IfSome result (λ k. k ≤ MOST_REASONS) }
{
    let n = grid.n();
    for index in 0..reasons.len() {
        let reason = reason_at(reasons, index);
        let triangle = reason.triangle;
        if !is_reason(grid, tolerance, flags, reason) {
            return Some(index as u32 + 1);
        }
        force(flags, n, triangle);
    }
    None
}

/// The reason at a place.
fn reason_at(reasons: &[Witness], index: usize) -> Witness
    requires { index < length reasons.now }
    ensures { result ≡ slice_index_or reasons.now index result }
{
    reasons[index]
}

/// Whether this is a reason behind those that make the flagged set.
fn is_reason(grid: &Grid, tolerance: u32, flags: &[bool], reason: Witness) -> bool
    requires closed { IsClosed grid.now.n (is_flagged flags.now) }
    ensures { IsTrue result ↔ IsFitReason grid.now.n grid.now.heights tolerance (is_flagged flags.now) reason }
{
    reason.triangle.level() < 2 * grid.n()
        && is_leaf(flags, reason.triangle)
        && is_off(grid, tolerance, reason)
}

/// Whether the triangle is no member, and its parent is one, if it has one.
fn is_leaf(flags: &[bool], t: Tri) -> bool
    ensures { (n : ℕ) → IsClosed n (is_flagged flags.now) → IsSplittable n t →
        IsTrue result ↔ Contains (leaves_of n (is_flagged flags.now)) t }
{
    if is_set(flags, t) {
        return false;
    }
    match t.parent() {
        None => true,
        Some(parent) => is_set(flags, parent),
    }
}

/// Whether the reason's point is one of the grid that its triangle holds, where the surface is off by more than the
/// tolerance.
fn is_off(grid: &Grid, tolerance: u32, reason: Witness) -> bool
    requires splittable { IsSplittable grid.now.n reason.triangle }
    ensures { IsTrue result ↔ IsOff grid.now.n grid.now.heights tolerance reason }
{
    let side = 1 << grid.n();
    if side < reason.x || side < reason.y {
        return false;
    }
    match off_point(grid, reason.triangle, reason.x, reason.y) {
        None => false,
        Some(off) => off > u64::from(tolerance),
    }
}
