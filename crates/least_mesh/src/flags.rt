//! The closure of a set of triangles by one flag an address.

ghost use Rattle.std.specs.Prelude.{◌≡◌, ℕ, ◌+◌, ◌*◌, ◌^◌, ◌≤◌, IsTrue, length};
ghost use Rattle.mesh_defs.specs.Triangle.{IsSplittable};
ghost use Rattle.mesh_defs.specs.ClosedSet.{IsLeastClosed};
ghost use Rattle.mesh_defs.specs.declared.level.TheConstants.{GREATEST_LEVEL};
ghost use Rattle.mesh_laws.specs.Sweep.{is_flagged, IsMarked};

use address_flags::{end, flag, flag_parent};
use bintree_addr::{Tri, level_laws};

/// Flags what the flagged triangles force: their parents and mates, and theirs.
///
/// Each address is visited once, from the last one down. Takes no memory.
pub fn sweep(flags: &mut [bool], n: u32)
    requires in_grid { (1 ≤ n) × (n ≤ GREATEST_LEVEL) }
    requires room { length flags.old ≡ 2 ^ (2 * n + 1) }
    requires splittable { (a : ℕ) → IsTrue (is_flagged flags.old a) → IsSplittable n a }
    ensures least { IsLeastClosed n (is_flagged flags.old) (is_flagged flags.new) }
{
    level_laws();
    for number in (2..end(n)).rev() {
        if flags[number as usize] {
            visit(flags, n, Tri::at(number).unwrap());
        }
    }
}

/// Flags the parent of a triangle, its mate and the mate's parent.
fn visit(flags: &mut [bool], n: u32, t: Tri)
    requires in_grid { (1 ≤ n) × (n ≤ GREATEST_LEVEL) }
    requires room { length flags.old ≡ 2 ^ (2 * n + 1) }
    requires splittable { IsSplittable n t }
    ensures marked { IsMarked n t (is_flagged flags.old) (is_flagged flags.new) }
{
    flag_parent(flags, t);
    if let Some(mate) = t.mate(n) {
        flag(flags, mate);
        flag_parent(flags, mate);
    }
}
