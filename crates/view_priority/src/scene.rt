//! What the priorities of triangles depend on.

ghost use Rattle.std.specs.Prelude.{◌≡◌, ◌+◌, ◌-◌, ◌*◌, ◌/◌, ◌<◌, ◌≤◌, ◌^◌};
ghost use Rattle.mesh_defs.specs.Triangle.{level_of};
ghost use Rattle.mesh_defs.specs.Thickness.{thickness_of};
ghost use Rattle.mesh_defs.specs.BoundingBox.{CameraAt, box_of};
ghost use Rattle.mesh_defs.specs.View.{mark_of};
ghost use Rattle.mesh_defs.specs.State.{priority_seen, move_length};
ghost use Rattle.mesh_defs.specs.declared.level.TheConstants.{GREATEST_LEVEL};
ghost use Rattle.view_priority.specs.Bounds.{priority_at};
ghost use Rattle.view_priority.specs.Meter.{counted};
ghost use Rattle.view_priority.specs.Scene.{distance_seen, seen_from};

use crate::factors::Factors;
use crate::ratio::seen_priority;
use crate::{Bounds, Camera, Meter, distance, distance_laws, priority_laws};
use bintree_addr::{Rank, Tri};
use cull_marks::Planes;
use std::marker::Model;
use wedgie_tree::{Wedges, wedge_laws};

/// Heights and a view of them: all that the priority of a triangle depends on.
#[derive(Drop)]
pub struct Scene<'a> {
    /// The heights, with the thicknesses and boxes of their triangles.
    pub wedges: &'a Wedges,
    /// Where the viewer is.
    pub camera: &'a Camera,
    /// The world units of a grid step.
    pub spacing: u32,
    /// The view planes in force.
    pub planes: &'a Planes,
    /// The greatest ratio of thickness and distance that is good enough: such a triangle has priority 0.
    pub threshold: u64,
}

impl<'a> Model for Scene<'a> {
    ghost use Rattle.std.specs.Prelude.{◌≤◌};
    ghost use Rattle.mesh_defs.specs.State.{SceneState};
    ghost use Rattle.wedgie_tree.specs.declared.wedges.TheConstants.{GREATEST_SPACING};
    ghost use Rattle.view_priority.specs.Camera.{view_above};

    ghost Value = { SceneState };

    ghost view = { λ s. record {
      grid = s.wedges.now;
      view = view_above s.threshold s.camera.now s.spacing s.planes.now;
    } };

    ghost invariant = { λ s. (1 ≤ s.spacing) × (s.spacing ≤ GREATEST_SPACING) };
}

impl<'a> Scene<'a> {
    /// The n of the grid, of side 2^n + 1.
    pub fn n(&self) -> u32
        ensures value { result ≡ self.now.grid.n }
        ensures in_grid { (1 ≤ result) × (result ≤ GREATEST_LEVEL) }
    {
        self.wedges.grid().n()
    }

    /// A triangle with its priority. The meter counts one more.
    ///
    /// No child ranks before its parent.
    /// Cost (not proved): a step a level, the corners of the box at each plane, and a square root; of a
    /// triangle without thickness a step a level at most, and of a finest one none of these.
    pub fn rank(&self, t: Tri, meter: &mut Meter) -> Rank
        requires level { level_of t ≤ 2 * self.now.grid.n }
        ensures tri { result.tri ≡ t }
        ensures value { result.p ≡ priority_seen self.now t }
        ensures parent { 4 ≤ t → result.p ≤ priority_seen self.now (t / 2) }
        ensures count { meter.new ≡ counted meter.old }
    {
        priority_laws();
        wedge_laws();
        meter.tick();
        // From nowhere is a flat triangle worth a split, and a finest one is flat.
        if t.level() == 2 * self.wedges.grid().n() {
            return Rank { p: 0, tri: t };
        }
        let (thickness, cuboid) = self.wedges.thickness_and_cuboid(t, self.spacing);
        if thickness == 0 {
            return Rank { p: 0, tri: t };
        }
        Rank {
            p: seen_priority(
                self.threshold,
                self.planes.mark(&cuboid),
                thickness,
                distance(&cuboid, self.camera),
            ),
            tri: t,
        }
    }

    /// The priority of a triangle, which no meter counts.
    pub fn priority(&self, t: Tri) -> u64
        requires level { level_of t ≤ 2 * self.now.grid.n }
        ensures value { result ≡ priority_seen self.now t }
    {
        self.rank(t, &mut Meter::new()).p
    }

    /// Bounds on a triangle's rank while the camera moves by at most the slack (the sum of its moves along the three
    /// axes) and heights, spacing, planes and threshold do not change. The meter counts one more.
    pub fn bounds(&self, t: Tri, slack: u64, meter: &mut Meter) -> Bounds
        requires level { level_of t ≤ 2 * self.now.grid.n }
        requires slack { slack ≤ 2 ^ 32 }
        ensures hi_tri { result.hi.tri ≡ t }
        ensures lo_tri { result.lo.tri ≡ t }
        ensures hi { let s = self.now in
            result.hi.p ≡ priority_at s.grid.n s.grid.heights s.view t (distance_seen s t - slack) }
        ensures lo { let s = self.now in
            result.lo.p ≡ priority_at s.grid.n s.grid.heights s.view t (distance_seen s t + slack) }

        // At every camera within the slack the priority lies between the two.
        ensures above { (to : CameraAt) → move_length self.now.view.camera to ≤ slack →
            priority_seen (seen_from to self.now) t ≤ result.hi.p }
        ensures below { (to : CameraAt) → move_length self.now.view.camera to ≤ slack →
            result.lo.p ≤ priority_seen (seen_from to self.now) t }
        ensures count { meter.new ≡ counted meter.old }
    {
        distance_laws();
        meter.tick();
        let factors = self.factors(t);
        factors.bounds(t, slack)
    }

    /// The bounds of a slack that is the distance over `part`, rounded down, and that slack. The meter counts one more.
    ///
    /// Cost (not proved): that of `bounds`; to ask `distance` for the slack first takes another box and square root.
    pub fn bounds_by_part(&self, t: Tri, part: u64, meter: &mut Meter) -> (u64, Bounds)
        requires level { level_of t ≤ 2 * self.now.grid.n }
        requires part { 1 ≤ part }
        ensures slack { result.0 ≡ distance_seen self.now t / part }
        ensures small { result.0 < 2 ^ 31 }
        ensures hi_tri { result.1.hi.tri ≡ t }
        ensures lo_tri { result.1.lo.tri ≡ t }
        ensures hi { let s = self.now in
            result.1.hi.p ≡ priority_at s.grid.n s.grid.heights s.view t (distance_seen s t - result.0) }
        ensures lo { let s = self.now in
            result.1.lo.p ≡ priority_at s.grid.n s.grid.heights s.view t (distance_seen s t + result.0) }
        ensures count { meter.new ≡ counted meter.old }
    {
        meter.tick();
        let factors = self.factors(t);
        let slack = factors.distance / part;
        (slack, factors.bounds(t, slack))
    }

    /// What decides the priority of a triangle.
    fn factors(&self, t: Tri) -> Factors
        requires level { level_of t ≤ 2 * self.now.grid.n }
        ensures mark { let s = self.now in
            result.mark ≡ mark_of s.view.planes (box_of s.grid.n s.grid.heights s.view.spacing t) }
        ensures thickness { result.thickness ≡ thickness_of self.now.grid.n self.now.grid.heights t }
        ensures distance { result.distance ≡ distance_seen self.now t }
        ensures bounded { result.distance < 2 ^ 31 }
        ensures threshold { result.threshold ≡ self.now.view.threshold }
    {
        let (thickness, cuboid) = self.wedges.thickness_and_cuboid(t, self.spacing);
        Factors {
            mark: self.planes.mark(&cuboid),
            thickness,
            distance: distance(&cuboid, self.camera),
            threshold: self.threshold,
        }
    }
}
