//! The fewest triangles within a limit: what is required is split, and then whatever is off by more, in any order.

ghost use Rattle.std.specs.Prelude.{◌≡◌, ℕ, ◌+◌, ◌-◌, ◌*◌, ◌/◌, ◌^◌, ◌<◌, ◌≤◌, ◌↔◌, Bool, IsTrue, [], length, vec_capacity};
ghost use Rattle.mesh_defs.specs.Triangle.{corners_of, IsAddress, IsSplittable};
ghost use Rattle.mesh_defs.specs.ClosedSet.{IsClosed, IsSubset, among};
ghost use Rattle.mesh_laws.specs.Sweep.{is_flagged};
ghost use Rattle.fit_laws.specs.Required.{IsLeastSettledWith};
ghost use Rattle.fit_mesh.specs.Log.{IsLogged, KeepsLog, Extends, HasLog};
ghost use Rattle.fit_mesh.specs.Grown.{AreSettled};
ghost use Rattle.fit_mesh.specs.Splits.{IsSettledIn, IsGrownFrom};
ghost use Rattle.fit_mesh.specs.Limit.{tolerance_of, error_within, IsComplete};
ghost use Rattle.fit_mesh.specs.Required.{is_required, or_required, IsAskable};

use crate::demand::split_required;
use crate::force::{clear, force};
use crate::limit::{Limit, is_over};
use crate::pair::{corners_below, has_open_child};
use crate::required::Required;
use address_flags::is_set;
use bintree_addr::{Corners, Tri};
use mesh_measure::corners_in;
use pgm_grid::Grid;

/// Flags the least settled set of the limit that has all that is required: splits that, and each leaf that is off by
/// more, with what that forces, until there is none.
pub fn settle_anew(
    grid: &Grid,
    limit: Limit,
    required: Required,
    flags: &mut [bool],
    log: &mut Vec<Tri>,
)
    requires askable { IsAskable grid.now.n required }
    requires complete { IsComplete grid.now.n limit }
    requires flags { length flags.old ≡ 2 ^ (2 * grid.now.n + 1) }
    requires room { 2 ^ (2 * grid.now.n + 1) ≤ vec_capacity log.old }
    ensures flags { length flags.new ≡ length flags.old }
    ensures capacity { vec_capacity log.new ≡ vec_capacity log.old }
    ensures fit { let e = error_within grid.now.n grid.now.heights limit.entry in
        IsLeastSettledWith grid.now.n (tolerance_of limit.entry) e (is_required grid.now.n required.entry)
        (is_flagged flags.new) }
{
    clear(flags);
    log.clear();
    split_required(flags, log, grid.n(), required);
    ask_halves(grid, limit, flags, log);
    settle(grid, limit, usize::MAX, flags, log);
}

/// Goes on from a closed set: splits what is required, and whatever is off by more of what comes with that.
///
/// Triangles that were leaves before and stay are not asked, so it is for a set none of whose leaves is off by more.
pub fn settle_more(
    grid: &Grid,
    limit: Limit,
    required: Required,
    flags: &mut [bool],
    log: &mut Vec<Tri>,
)
    requires askable { IsAskable grid.now.n required }
    requires complete { IsComplete grid.now.n limit }
    requires flags { length flags.old ≡ 2 ^ (2 * grid.now.n + 1) }
    requires room { 2 ^ (2 * grid.now.n + 1) ≤ vec_capacity log.old }
    requires closed { IsClosed grid.now.n (is_flagged flags.old) }
    ensures flags { length flags.new ≡ length flags.old }
    ensures capacity { vec_capacity log.new ≡ vec_capacity log.old }
    ensures grown { let e = error_within grid.now.n grid.now.heights limit.entry in
        IsGrownFrom grid.now.n (tolerance_of limit.entry) e (is_flagged flags.old)
        (is_required grid.now.n required.entry) (is_flagged flags.new) }
    ensures fit { let e = error_within grid.now.n grid.now.heights limit.entry in (earlier : ℕ → Bool) →
        IsLeastSettledWith grid.now.n (tolerance_of limit.entry) e earlier (is_flagged flags.old) →
        IsLeastSettledWith grid.now.n (tolerance_of limit.entry) e (or_required grid.now.n earlier required.entry)
        (is_flagged flags.new) }
{
    log.clear();
    split_required(flags, log, grid.n(), required);
    settle(grid, limit, usize::MAX, flags, log);
}

/// Splits the children of the log's entries that are off by more than the limit, until there is none, or more entries
/// than `most`: answers whether there is none.
///
/// What that splits is logged, and the entries come up in turn: the children of each are asked once.
pub fn settle(
    grid: &Grid,
    limit: Limit,
    most: usize,
    flags: &mut [bool],
    log: &mut Vec<Tri>,
) -> bool
    requires complete { IsComplete grid.now.n limit }
    requires flags { length flags.old ≡ 2 ^ (2 * grid.now.n + 1) }
    requires room { 2 ^ (2 * grid.now.n + 1) ≤ vec_capacity log.old }
    requires log { IsLogged flags.old log.old.items }
    requires closed { IsClosed grid.now.n (is_flagged flags.old) }
    ensures flags { length flags.new ≡ length flags.old }
    ensures capacity { vec_capacity log.new ≡ vec_capacity log.old }
    ensures log { KeepsLog flags.old log.old.items flags.new log.new.items }
    ensures kept { Extends log.old.items log.new.items }
    ensures closed { IsClosed grid.now.n (is_flagged flags.new) }
    ensures more { IsSubset (is_flagged flags.old) (is_flagged flags.new) }
    ensures count { IsTrue result ↔ (length log.new.items ≤ most) }
    ensures least { let e = error_within grid.now.n grid.now.heights limit.entry in IsTrue result →
        (other : ℕ → Bool) → IsClosed grid.now.n other → IsSubset (is_flagged flags.old) other →
        IsSettledIn grid.now.n e (tolerance_of limit.entry) (among log.new.items) other →
        IsSubset (is_flagged flags.new) other }
    ensures settled { let e = error_within grid.now.n grid.now.heights limit.entry in IsTrue result →
        AreSettled grid.now.n e (tolerance_of limit.entry) (is_flagged flags.new) log.new.items }
{
    let mut next = 0;
    while next < log.len() {
        if log.len() > most {
            return false;
        }
        let t = log[next];
        ask_pair(grid, limit, flags, log, t);
        next += 1;
    }
    log.len() <= most
}

/// Splits each half of the square that is off by more than the limit.
pub fn ask_halves(grid: &Grid, limit: Limit, flags: &mut [bool], log: &mut Vec<Tri>)
    requires complete { IsComplete grid.now.n limit }
    requires flags { length flags.old ≡ 2 ^ (2 * grid.now.n + 1) }
    requires room { 2 ^ (2 * grid.now.n + 1) ≤ vec_capacity log.old }
    requires log { IsLogged flags.old log.old.items }
    requires closed { IsClosed grid.now.n (is_flagged flags.old) }
    ensures flags { length flags.new ≡ length flags.old }
    ensures capacity { vec_capacity log.new ≡ vec_capacity log.old }
    ensures log { KeepsLog flags.old log.old.items flags.new log.new.items }
    ensures closed { IsClosed grid.now.n (is_flagged flags.new) }
    ensures more { IsSubset (is_flagged flags.old) (is_flagged flags.new) }
    ensures least { let e = error_within grid.now.n grid.now.heights limit.entry in (other : ℕ → Bool) →
        IsClosed grid.now.n other → IsSubset (is_flagged flags.old) other →
        (tolerance_of limit.entry < e 2 → IsTrue (other 2)) →
        (tolerance_of limit.entry < e 3 → IsTrue (other 3)) → IsSubset (is_flagged flags.new) other }
    ensures kept { Extends log.old.items log.new.items }
    ensures lower { let e = error_within grid.now.n grid.now.heights limit.entry in
        tolerance_of limit.entry < e 2 → IsTrue (is_flagged flags.new 2) }
    ensures upper { let e = error_within grid.now.n grid.now.heights limit.entry in
        tolerance_of limit.entry < e 3 → IsTrue (is_flagged flags.new 3) }
{
    let lower = corners_in(grid, Tri::LOWER);
    ask(grid, limit, flags, log, Tri::LOWER, lower);
    let upper = corners_in(grid, Tri::UPPER);
    ask(grid, limit, flags, log, Tri::UPPER, upper);
}

/// Splits each child of a member that is off by more than the limit.
fn ask_pair(grid: &Grid, limit: Limit, flags: &mut [bool], log: &mut Vec<Tri>, t: Tri)
    requires complete { IsComplete grid.now.n limit }
    requires flags { length flags.old ≡ 2 ^ (2 * grid.now.n + 1) }
    requires room { 2 ^ (2 * grid.now.n + 1) ≤ vec_capacity log.old }
    requires log { IsLogged flags.old log.old.items }
    requires closed { IsClosed grid.now.n (is_flagged flags.old) }
    requires splittable { IsSplittable grid.now.n t }
    requires member { IsTrue (is_flagged flags.old t) }
    ensures flags { length flags.new ≡ length flags.old }
    ensures capacity { vec_capacity log.new ≡ vec_capacity log.old }
    ensures log { KeepsLog flags.old log.old.items flags.new log.new.items }
    ensures closed { IsClosed grid.now.n (is_flagged flags.new) }
    ensures more { IsSubset (is_flagged flags.old) (is_flagged flags.new) }
    ensures least { let e = error_within grid.now.n grid.now.heights limit.entry in (other : ℕ → Bool) →
        IsClosed grid.now.n other → IsSubset (is_flagged flags.old) other →
        ((a : ℕ) → 2 ≤ a → a / 2 ≡ t → tolerance_of limit.entry < e a → IsTrue (other a)) →
        IsSubset (is_flagged flags.new) other }
    ensures kept { Extends log.old.items log.new.items }
    ensures settled { let e = error_within grid.now.n grid.now.heights limit.entry in
        (a : ℕ) → 2 ≤ a → a / 2 ≡ t → tolerance_of limit.entry < e a → IsTrue (is_flagged flags.new a) }
{
    if !has_open_child(flags, grid.n(), t) {
        return;
    }
    let (left, right) = corners_below(grid, t);
    ask(grid, limit, flags, log, t.left(), left);
    ask(grid, limit, flags, log, t.right(), right);
}

/// Splits a triangle whose parent is split, where it is off by more than the limit.
fn ask(grid: &Grid, limit: Limit, flags: &mut [bool], log: &mut Vec<Tri>, t: Tri, corners: Corners)
    requires complete { IsComplete grid.now.n limit }
    requires address { IsAddress grid.now.n t }
    requires corners { corners ≡ corners_of grid.now.n t }
    requires flags { length flags.old ≡ 2 ^ (2 * grid.now.n + 1) }
    requires room { 2 ^ (2 * grid.now.n + 1) ≤ vec_capacity log.old }
    requires log { IsLogged flags.old log.old.items }
    requires closed { IsClosed grid.now.n (is_flagged flags.old) }
    requires parent { 4 ≤ t → IsTrue (is_flagged flags.old (t / 2)) }
    ensures flags { length flags.new ≡ length flags.old }
    ensures capacity { vec_capacity log.new ≡ vec_capacity log.old }
    ensures log { KeepsLog flags.old log.old.items flags.new log.new.items }
    ensures closed { IsClosed grid.now.n (is_flagged flags.new) }
    ensures more { IsSubset (is_flagged flags.old) (is_flagged flags.new) }
    ensures least { let e = error_within grid.now.n grid.now.heights limit.entry in (other : ℕ → Bool) →
        IsClosed grid.now.n other → IsSubset (is_flagged flags.old) other →
        (tolerance_of limit.entry < e t → IsTrue (other t)) → IsSubset (is_flagged flags.new) other }
    ensures kept { Extends log.old.items log.new.items }
    ensures settled { let e = error_within grid.now.n grid.now.heights limit.entry in
        tolerance_of limit.entry < e t → IsTrue (is_flagged flags.new t) }
{
    if is_set(flags, t) {
        return;
    }
    if is_over(grid, t, corners, limit) {
        force(flags, log, grid.n(), t);
    }
}
