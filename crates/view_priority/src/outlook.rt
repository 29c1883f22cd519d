//! A scene that its owner changes.

ghost use Rattle.std.specs.Prelude.{◌≡◌, ◌<◌, ◌≤◌, ◌^◌, [], ◌∷◌, ◌++◌, length};
ghost use Rattle.mesh_defs.specs.View.{start_view};
ghost use Rattle.mesh_defs.specs.State.{move_length};
ghost use Rattle.cull_marks.specs.declared.planes.TheConstants.{MOST_PLANES};
ghost use Rattle.wedgie_tree.specs.declared.wedges.TheConstants.{GREATEST_SPACING};
ghost use Rattle.view_priority.specs.Scene.{seen_from, seen_within, seen_above};

use crate::{Camera, Scene};
use cull_marks::{Plane, Planes};
use std::marker::Model;
use wedgie_tree::Wedges;

/// Heights and a view of them, whose owner changes them from frame to frame.
#[derive(Drop)]
pub struct Outlook {
    /// The heights as they are, with the thicknesses and boxes of their triangles.
    pub wedges: Wedges,
    /// Where the viewer is.
    pub camera: Camera,
    /// The world units of a grid step.
    pub spacing: u32,
    /// The view planes in force.
    pub planes: Planes,
    /// The greatest ratio of thickness and distance that is good enough.
    pub threshold: u64,
}

impl Model for Outlook {
    ghost use Rattle.std.specs.Prelude.{◌≤◌};
    ghost use Rattle.mesh_defs.specs.State.{SceneState};
    ghost use Rattle.wedgie_tree.specs.declared.wedges.TheConstants.{GREATEST_SPACING};
    ghost use Rattle.view_priority.specs.Camera.{view_above};

    ghost Value = { SceneState };

    ghost view = { λ o. record { grid = o.wedges; view = view_above o.threshold o.camera o.spacing o.planes } };

    ghost invariant = { λ o. (1 ≤ o.spacing) × (o.spacing ≤ GREATEST_SPACING) };
}

impl Outlook {
    /// What is seen of the wedges from (0, 0, 0), without a plane, at threshold 0.
    pub fn start(wedges: Wedges, spacing: u32) -> Outlook
        requires spacing_low { 1 ≤ spacing }
        requires spacing_high { spacing ≤ GREATEST_SPACING }
        ensures { result ≡ record { grid = wedges; view = start_view spacing } }
    {
        Outlook {
            wedges,
            camera: Camera::new(0, 0, 0).unwrap(),
            spacing,
            planes: Planes::none(),
            threshold: 0,
        }
    }

    /// The scene as it is.
    pub fn scene(&self) -> Scene<'_>
        ensures { result ≡ self.now }
    {
        Scene {
            wedges: &self.wedges,
            camera: &self.camera,
            spacing: self.spacing,
            planes: &self.planes,
            threshold: self.threshold,
        }
    }

    /// How long the way of the camera to a place is: the sum of its lengths along the three axes.
    pub fn way_to(&self, camera: Camera) -> u64
        ensures value { result ≡ move_length self.now.view.camera camera }
        ensures small { result ≤ 2 ^ 33 }
    {
        self.camera.way_to(camera)
    }

    /// Puts the camera to a place, and answers how long the way there was.
    pub fn move_to(&mut self, camera: Camera) -> u64
        ensures value { self.new ≡ seen_from camera self.old }
        ensures way { result ≡ move_length self.old.view.camera camera }
        ensures small { result ≤ 2 ^ 33 }
    {
        let way = self.way_to(camera);
        self.camera = camera;
        way
    }

    /// Puts one plane more in force.
    pub fn add_plane(&mut self, plane: Plane)
        requires room { length self.old.view.planes < MOST_PLANES }
        ensures { self.new ≡ seen_within (self.old.view.planes ++ plane ∷ []) self.old }
    {
        self.planes.add(plane);
    }

    /// Puts a whole set of planes in force in the place of those before.
    pub fn put_planes(&mut self, planes: &Planes)
        ensures { self.new ≡ seen_within planes.now self.old }
    {
        self.planes.put(planes);
    }

    /// Takes all planes away.
    pub fn clear_planes(&mut self)
        ensures { self.new ≡ seen_within [] self.old }
    {
        self.planes.clear();
    }

    /// Puts another threshold in force.
    pub fn put_threshold(&mut self, threshold: u64)
        ensures { self.new ≡ seen_above threshold self.old }
    {
        self.threshold = threshold;
    }
}
