//! Where the viewer is.

ghost use Rattle.std.specs.Prelude.{◌≡◌, ◌≤◌, ◌^◌, ◌↔◌, ◌-ℤ◌, IsSome, IfSome, IsTrue, unsigned_abs};
ghost use Rattle.mesh_defs.specs.State.{move_length};
ghost use Rattle.view_priority.specs.Camera.{IsCamera};

use mesh_defs::CAMERA_REACH;
use std::marker::Model;

/// Where the viewer is, in world units: a grid step is as many of them as the spacing, a unit of height is one.
#[derive(Clone, Copy, Debug, PartialEq, Eq)]
pub struct Camera {
    x: i64,
    y: i64,
    z: i64,
}

impl Model for Camera {
    ghost use Rattle.mesh_defs.specs.BoundingBox.{CameraAt};
    ghost use Rattle.view_priority.specs.Camera.{IsCamera};

    ghost Value = { CameraAt };

    ghost view = { λ c. record { x = c.x; y = c.y; z = c.z } };

    ghost invariant = { λ c. IsCamera (record { x = c.x; y = c.y; z = c.z }) };

    ghost inverse = { λ c. record { x = c.x; y = c.y; z = c.z } };
}

impl Camera {
    /// The camera at this place.
    pub fn new(x: i64, y: i64, z: i64) -> Option<Self>
        ensures valid { IsSome result ↔ IsCamera (record { x = x; y = y; z = z }) }
        ensures value { IfSome result (λ c. c ≡ record { x = x; y = y; z = z }) }
    {
        if is_coordinate(x) && is_coordinate(y) && is_coordinate(z) {
            Some(Camera { x, y, z })
        } else {
            None
        }
    }

    /// The first coordinate along the grid.
    pub fn x(self) -> i64
        ensures value { result ≡ self.x }
        ensures size { unsigned_abs result ≤ 2 ^ 30 }
    {
        self.x
    }

    /// The second coordinate along the grid.
    pub fn y(self) -> i64
        ensures value { result ≡ self.y }
        ensures size { unsigned_abs result ≤ 2 ^ 30 }
    {
        self.y
    }

    /// The coordinate along the heights.
    pub fn z(self) -> i64
        ensures value { result ≡ self.z }
        ensures size { unsigned_abs result ≤ 2 ^ 30 }
    {
        self.z
    }

    /// How long the way to another place is: the sum of its lengths along the three axes.
    pub fn way_to(self, camera: Camera) -> u64
        ensures value { result ≡ move_length self camera }
        ensures small { result ≤ 2 ^ 33 }
    {
        let x = length_along(self.x(), camera.x());
        let y = length_along(self.y(), camera.y());
        let z = length_along(self.z(), camera.z());
        x + y + z
    }
}

/// How far it is from one coordinate of a camera to another.
fn length_along(from: i64, to: i64) -> u64
    requires from_size { unsigned_abs from ≤ 2 ^ 30 }
    requires to_size { unsigned_abs to ≤ 2 ^ 30 }
    ensures value { result ≡ unsigned_abs (to -ℤ from) }
    ensures small { result ≤ 2 ^ 31 }
{
    to.abs_diff(from)
}

/// Whether a number is small enough for a coordinate.
fn is_coordinate(number: i64) -> bool
    ensures { IsTrue result ↔ (unsigned_abs number ≤ 2 ^ 30) }
{
    number.unsigned_abs() <= CAMERA_REACH
}
