//! The priority of a triangle, and bounds on it while the camera moves, for a caller that makes no scene.

ghost use Rattle.std.specs.Prelude.{◌≡◌, ◌+◌, ◌-◌, ◌*◌, ◌/◌, ◌<◌, ◌≤◌, ◌^◌};
ghost use Rattle.mesh_defs.specs.Triangle.{level_of};
ghost use Rattle.mesh_defs.specs.BoundingBox.{CameraAt, box_of, distance_of};
ghost use Rattle.mesh_defs.specs.Priority.{priority_of};
ghost use Rattle.mesh_defs.specs.State.{move_length};
ghost use Rattle.wedgie_tree.specs.declared.wedges.TheConstants.{GREATEST_SPACING};
ghost use Rattle.view_priority.specs.Camera.{view_from};
ghost use Rattle.view_priority.specs.Meter.{counted};
ghost use Rattle.view_priority.specs.Bounds.{priority_at};

use crate::{Bounds, Camera, Meter, Scene};
use bintree_addr::{Rank, Tri};
use cull_marks::Planes;
use wedgie_tree::Wedges;

/// A triangle with its priority in a view. The meter counts one more: `Scene::rank`.
pub fn rank(
    w: &Wedges,
    camera: &Camera,
    spacing: u32,
    planes: &Planes,
    t: Tri,
    meter: &mut Meter,
) -> Rank
    requires level { level_of t ≤ 2 * w.now.n }
    requires spacing_low { 1 ≤ spacing }
    requires spacing_high { spacing ≤ GREATEST_SPACING }
    ensures tri { result.tri ≡ t }
    ensures value { result.p
        ≡ priority_of w.now.n w.now.heights (view_from camera.now spacing planes.now) t }
    ensures parent { 4 ≤ t →
        result.p ≤ priority_of w.now.n w.now.heights (view_from camera.now spacing planes.now) (t / 2) }
    ensures count { meter.new ≡ counted meter.old }
{
    let scene = Scene {
        wedges: w,
        camera,
        spacing,
        planes,
        threshold: 0,
    };
    scene.rank(t, meter)
}

/// Bounds on a triangle's rank while the camera moves by at most the slack (the sum of its moves along the three axes)
/// and heights, spacing and planes do not change. The meter counts one more.
pub fn bounds(
    w: &Wedges,
    camera: &Camera,
    spacing: u32,
    planes: &Planes,
    t: Tri,
    slack: u64,
    meter: &mut Meter,
) -> Bounds
    requires level { level_of t ≤ 2 * w.now.n }
    requires spacing_low { 1 ≤ spacing }
    requires spacing_high { spacing ≤ GREATEST_SPACING }
    requires slack { slack ≤ 2 ^ 32 }
    ensures hi_tri { result.hi.tri ≡ t }
    ensures lo_tri { result.lo.tri ≡ t }
    ensures hi { let view = view_from camera.now spacing planes.now in
        result.hi.p ≡ priority_at w.now.n w.now.heights view t
        (distance_of (box_of w.now.n w.now.heights spacing t) camera.now - slack) }
    ensures lo { let view = view_from camera.now spacing planes.now in
        result.lo.p ≡ priority_at w.now.n w.now.heights view t
        (distance_of (box_of w.now.n w.now.heights spacing t) camera.now + slack) }

    // At every camera within the slack the priority lies between the two.
    ensures above { (to : CameraAt) → move_length camera.now to ≤ slack →
        priority_of w.now.n w.now.heights (view_from to spacing planes.now) t ≤ result.hi.p }
    ensures below { (to : CameraAt) → move_length camera.now to ≤ slack →
        result.lo.p ≤ priority_of w.now.n w.now.heights (view_from to spacing planes.now) t }
    ensures count { meter.new ≡ counted meter.old }
{
    let scene = Scene {
        wedges: w,
        camera,
        spacing,
        planes,
        threshold: 0,
    };
    scene.bounds(t, slack, meter)
}

/// The bounds of a slack that is the distance over `part`, rounded down, and that slack. The meter counts one more.
pub fn bounds_by_part(
    w: &Wedges,
    camera: &Camera,
    spacing: u32,
    planes: &Planes,
    t: Tri,
    part: u64,
    meter: &mut Meter,
) -> (u64, Bounds)
    requires level { level_of t ≤ 2 * w.now.n }
    requires spacing_low { 1 ≤ spacing }
    requires spacing_high { spacing ≤ GREATEST_SPACING }
    requires part { 1 ≤ part }
    ensures slack { result.0 ≡ distance_of (box_of w.now.n w.now.heights spacing t) camera.now / part }
    ensures small { result.0 < 2 ^ 31 }
    ensures hi_tri { result.1.hi.tri ≡ t }
    ensures lo_tri { result.1.lo.tri ≡ t }
    ensures hi { let view = view_from camera.now spacing planes.now in
        result.1.hi.p ≡ priority_at w.now.n w.now.heights view t
        (distance_of (box_of w.now.n w.now.heights spacing t) camera.now - result.0) }
    ensures lo { let view = view_from camera.now spacing planes.now in
        result.1.lo.p ≡ priority_at w.now.n w.now.heights view t
        (distance_of (box_of w.now.n w.now.heights spacing t) camera.now + result.0) }
    ensures count { meter.new ≡ counted meter.old }
{
    let scene = Scene {
        wedges: w,
        camera,
        spacing,
        planes,
        threshold: 0,
    };
    scene.bounds_by_part(t, part, meter)
}
