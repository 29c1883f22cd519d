//! Forced splits by one flag an address, with a log of the members that came.

ghost use Rattle.std.specs.Prelude.{◌≡◌, ℕ, ◌+◌, ◌*◌, ◌^◌, ◌<◌, ◌≤◌, ◌||◌, ◌%◌, ◌/◌, ◌-◌, false, true, All, IsTrue};
ghost use Rattle.std.specs.Prelude.{length, take, replicate, vec_capacity};
ghost use Rattle.mesh_defs.specs.HeightField.{side_of};
ghost use Rattle.mesh_defs.specs.Triangle.{IsAddress, IsSplittable};
ghost use Rattle.mesh_defs.specs.ClosedSet.{IsClosed, IsLeastClosed, among};
ghost use Rattle.mesh_defs.specs.Greedy.{with_triangle};
ghost use Rattle.mesh_defs.specs.declared.level.TheConstants.{GREATEST_LEVEL};
ghost use Rattle.mesh_laws.specs.Forcing.{IsPrepared};
ghost use Rattle.mesh_laws.specs.Sweep.{is_flagged};
ghost use Rattle.fit_mesh.specs.Log.{IsLogged, KeepsLog, Extends};

use address_flags::{flag, is_set};
use bintree_addr::Tri;

/// Flags the triangle and logs it, where it is not flagged.
fn put(flags: &mut [bool], log: &mut Vec<Tri>, t: Tri)
    requires address { t < length flags.old }
    requires room { length flags.old ≤ vec_capacity log.old }
    requires log { IsLogged flags.old log.old.items }
    ensures flags { length flags.new ≡ length flags.old }
    ensures capacity { vec_capacity log.new ≡ vec_capacity log.old }
    ensures log { KeepsLog flags.old log.old.items flags.new log.new.items }
    ensures added { (a : ℕ) → is_flagged flags.new a ≡ with_triangle (is_flagged flags.old) t a }
    ensures kept { Extends log.old.items log.new.items }
{
    if is_set(flags, t) {
        return;
    }
    flag(flags, t);
    log.push_reserved(t);
}

/// Splits the triangle, and before it what it stands on: its parent, its mate and its mate's parent. What is split is
/// logged.
#[cycle(force)]
pub fn force(flags: &mut [bool], log: &mut Vec<Tri>, n: u32, t: Tri)
    requires in_grid { (1 ≤ n) × (n ≤ GREATEST_LEVEL) }
    requires splittable { IsSplittable n t }
    requires flags { length flags.old ≡ 2 ^ (2 * n + 1) }
    requires room { 2 ^ (2 * n + 1) ≤ vec_capacity log.old }
    requires log { IsLogged flags.old log.old.items }
    requires closed { IsClosed n (is_flagged flags.old) }
    ensures flags { length flags.new ≡ length flags.old }
    ensures capacity { vec_capacity log.new ≡ vec_capacity log.old }
    ensures log { KeepsLog flags.old log.old.items flags.new log.new.items }
    ensures least { IsLeastClosed n (with_triangle (is_flagged flags.old) t) (is_flagged flags.new) }
    ensures kept { Extends log.old.items log.new.items }
{
    if is_set(flags, t) {
        return;
    }
    force_parent(flags, log, n, t);
    match t.mate(n) {
        None => put(flags, log, t),
        Some(mate) => {
            force_parent(flags, log, n, mate);
            put(flags, log, mate);
            put(flags, log, t);
        }
    }
}

/// Splits the triangle's parent, where it has one, and what that stands on.
#[cycle(force)]
fn force_parent(flags: &mut [bool], log: &mut Vec<Tri>, n: u32, t: Tri)
    requires in_grid { (1 ≤ n) × (n ≤ GREATEST_LEVEL) }
    requires splittable { IsSplittable n t }
    requires flags { length flags.old ≡ 2 ^ (2 * n + 1) }
    requires room { 2 ^ (2 * n + 1) ≤ vec_capacity log.old }
    requires log { IsLogged flags.old log.old.items }
    requires closed { IsClosed n (is_flagged flags.old) }
    ensures flags { length flags.new ≡ length flags.old }
    ensures capacity { vec_capacity log.new ≡ vec_capacity log.old }
    ensures log { KeepsLog flags.old log.old.items flags.new log.new.items }
    ensures prepared { IsPrepared n (is_flagged flags.old) (is_flagged flags.new) t }
    ensures kept { Extends log.old.items log.new.items }
{
    if let Some(parent) = t.parent() {
        force(flags, log, n, parent);
    }
}

/// The same of any triangle of the grid.
pub fn split_above(flags: &mut [bool], log: &mut Vec<Tri>, n: u32, t: Tri)
    requires in_grid { (1 ≤ n) × (n ≤ GREATEST_LEVEL) }
    requires address { IsAddress n t }
    requires flags { length flags.old ≡ 2 ^ (2 * n + 1) }
    requires room { 2 ^ (2 * n + 1) ≤ vec_capacity log.old }
    requires log { IsLogged flags.old log.old.items }
    requires closed { IsClosed n (is_flagged flags.old) }
    ensures flags { length flags.new ≡ length flags.old }
    ensures capacity { vec_capacity log.new ≡ vec_capacity log.old }
    ensures log { KeepsLog flags.old log.old.items flags.new log.new.items }
    ensures prepared { IsPrepared n (is_flagged flags.old) (is_flagged flags.new) t }
    ensures kept { Extends log.old.items log.new.items }
{
    if let Some(parent) = t.parent() {
        force(flags, log, n, parent);
    }
}

/// The set becomes that of the first entries of the log.
pub fn set_back(flags: &mut [bool], log: &[Tri], mark: usize)
    requires place { mark ≤ length log.now }
    requires addresses { (a : ℕ) → IsTrue (among log.now a) → a < length flags.old }
    ensures flags { length flags.new ≡ length flags.old }
    ensures same { (a : ℕ) → is_flagged flags.new a ≡ among (take mark log.now) a }
{
    clear(flags);
    for place in 0..mark {
        flag(flags, log[place]);
    }
}

/// Takes all flags away.
pub fn clear(flags: &mut [bool])
    ensures { flags.new ≡ replicate (length flags.old) false }
{
    flags.fill(false);
}
