//! The corners of triangles that follow one another depth first.

ghost use Rattle.std.specs.Prelude.{◌≡◌, ◌*◌, ◌^◌, ◌≤◌, length};
ghost use Rattle.mesh_defs.specs.Triangle.{corners_of, level_of};
ghost use Rattle.mesh_defs.specs.declared.level.TheConstants.{GREATEST_LEVEL};
ghost use Rattle.bintree_laws.specs.Corners.{IsWithin};
ghost use Rattle.obj_write.specs.Walk.{AreCorners};

use crate::faces::LEVELS;
use bintree_addr::{Corners, Tri, child_corners};

/// A triangle with its corners.
#[derive(Clone, Copy, Debug)]
pub(crate) struct Step {
    pub(crate) tri: Tri,
    pub(crate) corners: Corners,
}

/// Steps before any triangle was asked for: each has a half of the square.
pub(crate) fn first_steps(n: u32) -> [Step; LEVELS]
    requires in_grid { (1 ≤ n) × (n ≤ GREATEST_LEVEL) }
    ensures levels { length result ≡ 29 }
    ensures known { AreCorners n result }
{
    let half = Tri::default();
    let corners = half.corners(n);
    [Step { tri: half, corners }; LEVELS]
}

/// The corners of a triangle, from those of the triangles that were asked for before: `steps` has the last one of
/// each level.
///
/// It is `Tri::corners` in other steps.
/// Cost (not proved): a step for each level at which the way down is another than the last one that was asked for.
/// For triangles in depth-first order these are two for each triangle at most, by and large.
pub(crate) fn corners_on_the_way(steps: &mut [Step], n: u32, t: Tri) -> Corners
    requires in_grid { (1 ≤ n) × (n ≤ GREATEST_LEVEL) }
    requires level { level_of t ≤ 2 * n }
    requires levels { length steps.old ≡ 29 }
    requires known { AreCorners n steps.old }
    ensures value { result ≡ corners_of n t }
    ensures within { IsWithin (2 ^ n) result }
    ensures levels { length steps.new ≡ 29 }
    ensures known { AreCorners n steps.new }
{
    let level = t.level() as usize;
    let last = steps[level];
    if last.tri == t {
        return last.corners;
    }
    let corners = match t.parent() {
        None => t.corners(n),
        Some(above) => {
            let above = corners_on_the_way(steps, n, above);
            child_corners(above, t.number() % 2 == 1)
        }
    };
    steps[level] = Step { tri: t, corners };
    corners
}
