//! Where refinement begins: a mesh for some tolerance, for which no error is found in full.

ghost use Rattle.std.specs.Prelude.{◌≡◌, ℕ, ◌+◌, ◌*◌, ◌^◌, ◌≤◌, Bool, IsTrue, length, vec_capacity};
ghost use Rattle.mesh_defs.specs.ClosedSet.{IsSubset};
ghost use Rattle.mesh_laws.specs.Sweep.{is_flagged};
ghost use Rattle.fit_laws.specs.Error.{error_of};
ghost use Rattle.fit_laws.specs.Settled.{IsFineEnough, IsLeastSettled};
ghost use Rattle.fit_mesh.specs.Log.{Extends, HasLog};

use crate::error::greater;
use crate::force::{clear, set_back};
use crate::limit::Limit;
use crate::settle::{ask_halves, settle};
use bintree_addr::Tri;
use pgm_grid::Grid;

/// Flags the fewest triangles for a tolerance and logs them: the least of some tolerances that the budget allows.
///
/// From the greatest error that there can be a quarter of the tolerance is tried, again and again, while the budget
/// holds its set. Whether an error is above a tolerance is mostly known after a few points.
pub fn start(grid: &Grid, tolerance: u32, budget: usize, flags: &mut [bool], log: &mut Vec<Tri>)
    requires some { 2 ≤ budget }
    requires flags { length flags.old ≡ 2 ^ (2 * grid.now.n + 1) }
    requires room { 2 ^ (2 * grid.now.n + 1) ≤ vec_capacity log.old }
    ensures capacity { vec_capacity log.new ≡ vec_capacity log.old }
    ensures grown { HasLog grid.now.n flags.new log.new.items }
    ensures few { length log.new.items + 2 ≤ budget }
    ensures fit { let e = error_of grid.now.n grid.now.heights in (from : ℕ) × (tolerance ≤ from)
        × IsLeastSettled grid.now.n from e (is_flagged flags.new) }
{
    let _valid = grid.n();
    clear(flags);
    log.clear();
    let mut from = greater(most_error(grid), tolerance);
    while from > tolerance {
        let next = greater(from / 4, tolerance);
        let mark = log.len();
        if !settle_within(grid, next, budget, flags, log) {
            set_back(flags, log, mark);
            log.truncate(mark);
            return;
        }
        from = next;
    }
}

/// What no error is above: the greatest height that there may be, times 2^n.
fn most_error(grid: &Grid) -> u32
    ensures { result ≡ 2 ^ grid.now.n * grid.now.maxval }
{
    u32::from(grid.maxval()) << grid.n()
}

/// Splits whatever is off by more than the tolerance, until there is none or the budget is exceeded: answers whether
/// there is none.
fn settle_within(
    grid: &Grid,
    tolerance: u32,
    budget: usize,
    flags: &mut [bool],
    log: &mut Vec<Tri>,
) -> bool
    requires some { 2 ≤ budget }
    requires room { 2 ^ (2 * grid.now.n + 1) ≤ vec_capacity log.old }
    requires grown { HasLog grid.now.n flags.old log.old.items }
    ensures capacity { vec_capacity log.new ≡ vec_capacity log.old }
    ensures grown { HasLog grid.now.n flags.new log.new.items }
    ensures kept { Extends log.old.items log.new.items }
    ensures within { IsTrue result → length log.new.items + 2 ≤ budget }
    ensures settled { let e = error_of grid.now.n grid.now.heights in IsTrue result →
        IsFineEnough grid.now.n tolerance e (is_flagged flags.new) }
    ensures least { let e = error_of grid.now.n grid.now.heights in IsTrue result →
        (other : ℕ → Bool) → IsFineEnough grid.now.n tolerance e other →
        IsSubset (is_flagged flags.old) other → IsSubset (is_flagged flags.new) other }
{
    let limit = Limit::Common(tolerance);
    ask_halves(grid, limit, flags, log);
    settle(grid, limit, budget - 2, flags, log)
}
