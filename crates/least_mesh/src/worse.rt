//! What is worse than the tolerance.

ghost use Rattle.std.specs.Prelude.{◌≡◌, ℕ, ◌+◌, ◌*◌, ◌/◌, ◌^◌, ◌<◌, ◌≤◌, false, length, replicate};
ghost use Rattle.mesh_defs.specs.State.{priority_seen};
ghost use Rattle.mesh_laws.specs.Least.{is_worse};
ghost use Rattle.mesh_laws.specs.Sweep.{is_flagged};

use address_flags::end;
use bintree_addr::{Tri, level_laws};
use plain_mesh::falling_laws;
use view_priority::{Meter, Scene};

/// Flags each splittable triangle that is worse than the tolerance, and no other.
///
/// A priority is asked only below what is worse: the others are not worse either.
pub fn flag_worse(flags: &mut [bool], scene: &Scene<'_>, tolerance: u64, meter: &mut Meter)
    requires room { length flags.old ≡ 2 ^ (2 * scene.now.grid.n + 1) }
    ensures worse { (a : ℕ) → is_flagged flags.new a ≡ is_worse scene.now.grid.n tolerance (priority_seen scene.now) a }
    ensures asked { meter.new + 2 ≤ meter.old + 2 ^ (2 * scene.now.grid.n + 1) }
    ensures count { meter.old ≤ meter.new }
{
    clear(flags);
    for number in 2..end(scene.n()) {
        if is_worse(flags, scene, tolerance, number, meter) {
            flags[number as usize] = true;
        }
    }
}

/// Takes all flags away.
fn clear(flags: &mut [bool])
    ensures { flags.new ≡ replicate (length flags.old) false }
{
    flags.fill(false);
}

/// Whether a splittable triangle is worse than the tolerance, where its parent's flag is right.
fn is_worse(
    flags: &[bool],
    scene: &Scene<'_>,
    tolerance: u64,
    number: u32,
    meter: &mut Meter,
) -> bool
    requires room { length flags.now ≡ 2 ^ (2 * scene.now.grid.n + 1) }
    requires low { 2 ≤ number }
    requires splittable { number < 2 ^ (2 * scene.now.grid.n + 1) }
    requires parent { 4 ≤ number →
        is_flagged flags.now (number / 2) ≡ is_worse scene.now.grid.n tolerance (priority_seen scene.now) (number / 2) }
    ensures value { result ≡ is_worse scene.now.grid.n tolerance (priority_seen scene.now) number }
    ensures asked { meter.new ≤ meter.old + 1 }
    ensures count { meter.old ≤ meter.new }
{
    level_laws();
    falling_laws();
    if number >= 4 && !flags[number as usize / 2] {
        return false;
    }
    let _valid = scene.n();
    let _count = meter.count();
    scene.rank(Tri::at(number).unwrap(), meter).p > tolerance
}
