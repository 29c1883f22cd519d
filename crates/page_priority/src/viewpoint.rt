//! How a terrain is viewed.

ghost use Rattle.std.specs.Prelude.{◌≡◌, ◌<◌, ◌≤◌, ◌^◌};
ghost use Rattle.mesh_defs.specs.BoundingBox.{distance_of};
ghost use Rattle.mesh_defs.specs.View.{mark_of};
ghost use Rattle.mesh_defs.specs.declared.level.TheConstants.{GREATEST_LEVEL};
ghost use Rattle.bintree_laws.specs.Corners.{IsWithin};
ghost use Rattle.cull_marks.specs.Cuboid.{as_box, IsWithinReach};
ghost use Rattle.view_priority.specs.Bounds.{box_over};

use bintree_addr::{Corners, Cuboid};
use cull_marks::Planes;
use page_laws::KnownWedge;
use std::marker::Model;
use view_priority::{Camera, Factors, distance};
use wedgie_tree::box_around;

/// All that priorities depend on but the terrain.
#[derive(Drop)]
pub struct Viewpoint<'a> {
    /// Where the viewer is.
    pub camera: &'a Camera,
    /// The world units of a grid step.
    pub spacing: u32,
    /// The view planes in force.
    pub planes: &'a Planes,
    /// The greatest ratio of thickness and distance that is good enough: such a triangle has priority 0.
    pub threshold: u64,
}

impl<'a> Model for Viewpoint<'a> {
    ghost use Rattle.std.specs.Prelude.{◌≤◌};
    ghost use Rattle.mesh_defs.specs.View.{View};
    ghost use Rattle.wedgie_tree.specs.declared.wedges.TheConstants.{GREATEST_SPACING};
    ghost use Rattle.view_priority.specs.Camera.{view_above};

    ghost Value = { View };

    ghost view = { λ v. view_above v.threshold v.camera.now v.spacing v.planes.now };

    ghost invariant = { λ v. (1 ≤ v.spacing) × (v.spacing ≤ GREATEST_SPACING) };
}

impl<'a> Viewpoint<'a> {
    /// What decides the priority of a triangle with these corners and this wedge.
    ///
    /// Cost (not proved): two corners of the box at each plane, and a square root.
    pub fn factors(&self, corners: Corners, wedge: KnownWedge) -> Factors
        requires within { IsWithin (2 ^ GREATEST_LEVEL) corners }
        requires ordered { wedge.low ≤ wedge.high }
        ensures mark { result.mark
            ≡ mark_of self.now.planes (box_over self.now.spacing corners wedge.low wedge.high) }
        ensures thickness { result.thickness ≡ wedge.thickness }
        ensures distance { result.distance
            ≡ distance_of (box_over self.now.spacing corners wedge.low wedge.high) self.now.camera }
        ensures bounded { result.distance < 2 ^ 31 }
        ensures threshold { result.threshold ≡ self.now.threshold }
    {
        let cuboid = self.cuboid(corners, wedge.low, wedge.high);
        Factors {
            mark: self.planes.mark(&cuboid),
            thickness: wedge.thickness,
            distance: distance(&cuboid, self.camera),
            threshold: self.threshold,
        }
    }

    /// The box around the part of the surface that a triangle with these corners and heights stands for.
    pub(crate) fn cuboid(&self, corners: Corners, low: u16, high: u16) -> Cuboid
        requires within { IsWithin (2 ^ GREATEST_LEVEL) corners }
        requires ordered { low ≤ high }
        ensures value { as_box result ≡ box_over self.now.spacing corners low high }
        ensures reach { IsWithinReach (2 ^ 24) (as_box result) }
    {
        box_around(corners, self.spacing, low, high)
    }
}
