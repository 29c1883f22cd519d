//! The view planes in force.

ghost use Rattle.std.specs.Prelude.{◌≡◌, ◌≤◌, ◌<◌, ◌^◌, [], ◌∷◌, ◌++◌, length};
ghost use Rattle.std.specs.List.{list_any};
ghost use Rattle.mesh_defs.specs.View.{is_all_outside, is_some_outside, mark_of};
ghost use Rattle.cull_marks.specs.Cuboid.{as_box, IsWithinReach};
ghost use Rattle.cull_marks.specs.declared.planes.TheConstants.{MOST_PLANES};

use crate::Plane;
use arrayvec::ArrayVec;
use bintree_addr::Cuboid;
use mesh_defs::Mark;
use std::marker::Model;

/// The most planes in force at once.
pub const MOST_PLANES: usize = mesh_defs::MOST_PLANES as usize;

/// The view planes in force, at most `MOST_PLANES`, in the order in which they were added.
#[derive(Drop)]
pub struct Planes {
    pub(crate) list: ArrayVec<Plane, MOST_PLANES>,
}

impl Model for Planes {
    ghost use Rattle.std.specs.Prelude.{List};
    ghost use Rattle.mesh_defs.specs.View.{ViewPlane};

    ghost Value = { List ViewPlane };

    ghost view = { λ p. p.list.items };
}

impl Planes {
    /// No plane: everything is seen.
    pub fn none() -> Self
        ensures { result ≡ [] }
    {
        Planes {
            list: ArrayVec::new(),
        }
    }

    /// How many planes are in force.
    pub fn len(&self) -> u32
        ensures value { result ≡ length self.now }
        ensures high { result ≤ MOST_PLANES }
    {
        self.list.len() as u32
    }

    /// Puts one more plane in force.
    pub fn add(&mut self, plane: Plane)
        requires room { length self.old < MOST_PLANES }
        ensures { self.new ≡ self.old ++ plane ∷ [] }
    {
        self.list.push(plane);
    }

    /// Takes all planes out of force.
    pub fn clear(&mut self)
        ensures { self.new ≡ [] }
    {
        self.list.clear();
    }

    /// Puts the planes of another set in force in the place of these.
    pub fn put(&mut self, other: &Planes)
        ensures { self.new ≡ other.now }
    {
        self.list.clear();
        for plane in other.list.iter() {
            self.list.push(*plane);
        }
    }

    /// How the cuboid lies to the planes.
    ///
    /// Two corners decide a plane; the plain form, in the tests of `data_tests`, looks at all eight.
    /// Cost (not proved): at most two corners a plane.
    #[tactic(auto, unfolding(mesh_defs::specs::View::mark_of))]
    pub fn mark(&self, cuboid: &Cuboid) -> Mark
        requires reach { IsWithinReach (2 ^ 24) (as_box cuboid.now) }
        ensures { result ≡ mark_of self.now (as_box cuboid.now) }
    {
        if self.leave_out(cuboid) {
            Mark::Outside
        } else if self.cut(cuboid) {
            Mark::Cut
        } else {
            Mark::Inside
        }
    }

    /// Whether all corners of the cuboid are outside one plane.
    fn leave_out(&self, cuboid: &Cuboid) -> bool
        requires { IsWithinReach (2 ^ 24) (as_box cuboid.now) }
        ensures { result ≡ list_any (is_all_outside (as_box cuboid.now)) self.now }
    {
        self.list.iter().any(|plane| plane.leaves_out(cuboid))
    }

    /// Whether some corner of the cuboid is outside some plane.
    fn cut(&self, cuboid: &Cuboid) -> bool
        requires { IsWithinReach (2 ^ 24) (as_box cuboid.now) }
        ensures { result ≡ list_any (is_some_outside (as_box cuboid.now)) self.now }
    {
        self.list.iter().any(|plane| plane.cuts(cuboid))
    }
}
