//! Forced splits by one flag a triangle.

ghost use Rattle.std.specs.Prelude.{◌≡◌, ℕ, ◌+◌, ◌*◌, ◌^◌, ◌<◌, ◌≤◌, length};
ghost use Rattle.mesh_defs.specs.Triangle.{IsSplittable};
ghost use Rattle.mesh_defs.specs.ClosedSet.{IsClosed, IsLeastClosed};
ghost use Rattle.mesh_defs.specs.Greedy.{with_triangle};
ghost use Rattle.mesh_defs.specs.declared.level.TheConstants.{GREATEST_LEVEL};
ghost use Rattle.mesh_laws.specs.Forcing.{IsPrepared};
ghost use Rattle.mesh_laws.specs.Sweep.{is_flagged};

use address_flags::{flag, is_set};
use bintree_addr::Tri;

/// Splits the triangle, and before it what it stands on: its parent, its mate and its mate's parent.
#[cycle(force)]
pub(crate) fn force(flags: &mut [bool], n: u32, t: Tri)
    requires in_grid { (1 ≤ n) × (n ≤ GREATEST_LEVEL) }
    requires splittable { IsSplittable n t }
    requires flags { length flags.old ≡ 2 ^ (2 * n + 1) }
    requires closed { IsClosed n (is_flagged flags.old) }
    ensures flags { length flags.new ≡ length flags.old }
    ensures least { IsLeastClosed n (with_triangle (is_flagged flags.old) t) (is_flagged flags.new) }
{
    if is_set(flags, t) {
        return;
    }
    force_parent(flags, n, t);
    match t.mate(n) {
        None => flag(flags, t),
        Some(mate) => {
            force_parent(flags, n, mate);
            flag(flags, mate);
            flag(flags, t);
        }
    }
}

/// Splits the triangle's parent, where it has one, and what that stands on.
#[cycle(force)]
fn force_parent(flags: &mut [bool], n: u32, t: Tri)
    requires in_grid { (1 ≤ n) × (n ≤ GREATEST_LEVEL) }
    requires splittable { IsSplittable n t }
    requires flags { length flags.old ≡ 2 ^ (2 * n + 1) }
    requires closed { IsClosed n (is_flagged flags.old) }
    ensures flags { length flags.new ≡ length flags.old }
    ensures prepared { IsPrepared n (is_flagged flags.old) (is_flagged flags.new) t }
{
    if let Some(parent) = t.parent() {
        force(flags, n, parent);
    }
}
