//! The worst triangle of a list.

ghost use Rattle.std.specs.Prelude.{◌≡◌, ◌+◌, ◌*◌, ◌≤◌, All, length, max};
ghost use Rattle.mesh_defs.specs.Triangle.{level_of};
ghost use Rattle.mesh_defs.specs.Priority.{worst_of};
ghost use Rattle.mesh_defs.specs.State.{priority_seen};

use bintree_addr::Tri;
use view_priority::{Meter, Scene};

/// The greatest priority of a triangle of the list.
pub fn worst_leaf(leaves: &[Tri], scene: &Scene<'_>, meter: &mut Meter) -> u64
    requires levels { All (λ a. level_of a ≤ 2 * scene.now.grid.n) leaves.now }
    ensures value { result ≡ worst_of (priority_seen scene.now) leaves.now }
    ensures asked { meter.new ≤ meter.old + length leaves.now }
    ensures count { meter.old ≤ meter.new }
{
    let _count = meter.count();
    let mut worst = 0;
    for leaf in leaves {
        worst = greater(worst, scene.rank(*leaf, meter).p);
    }
    worst
}

/// The greater of two priorities.
fn greater(some: u64, other: u64) -> u64
    ensures { result ≡ max some other }
{
    if some < other { other } else { some }
}
