//! A view plane.

ghost use Rattle.std.specs.Prelude.{◌≡◌, ◌≤◌, ◌^◌, ◌↔◌, IsSome, IfSome, IsTrue, unsigned_abs, pos, int_lt};
ghost use Rattle.mesh_defs.specs.View.{is_all_outside, is_some_outside};
ghost use Rattle.cull_marks.specs.Cuboid.{as_box, IsWithinReach};
ghost use Rattle.cull_marks.specs.Plane.{IsPlane, plane_value, far_end, far_value, near_value};

use bintree_addr::Cuboid;
use mesh_defs::{GREATEST_OFFSET, GREATEST_SLOPE};
use std::marker::Model;

/// A plane of whole numbers. Its inside is where a x + b y + c z + d is at least 0, in world units.
#[derive(Clone, Copy, Debug, PartialEq, Eq)]
pub struct Plane {
    a: i64,
    b: i64,
    c: i64,
    d: i64,
}

impl Model for Plane {
    ghost use Rattle.mesh_defs.specs.View.{ViewPlane};
    ghost use Rattle.cull_marks.specs.Plane.{IsPlane};

    ghost Value = { ViewPlane };

    ghost view = { λ p. record { a = p.a; b = p.b; c = p.c; d = p.d } };

    ghost invariant = { λ p. IsPlane (record { a = p.a; b = p.b; c = p.c; d = p.d }) };

    ghost inverse = { λ p. record { a = p.a; b = p.b; c = p.c; d = p.d } };
}

impl Plane {
    /// The plane with these slopes and this offset.
    pub fn new(a: i64, b: i64, c: i64, d: i64) -> Option<Self>
        ensures valid { IsSome result ↔ IsPlane (record { a = a; b = b; c = c; d = d }) }
        ensures value { IfSome result (λ p. p ≡ record { a = a; b = b; c = c; d = d }) }
    {
        if is_slope(a) && is_slope(b) && is_slope(c) && d.unsigned_abs() <= GREATEST_OFFSET {
            Some(Plane { a, b, c, d })
        } else {
            None
        }
    }

    /// Whether all corners of the cuboid are outside.
    pub(crate) fn leaves_out(&self, cuboid: &Cuboid) -> bool
        requires { IsWithinReach (2 ^ 24) (as_box cuboid.now) }
        ensures { result ≡ is_all_outside (as_box cuboid.now) self.now }
    {
        self.farthest_inside(cuboid) < 0
    }

    /// Whether some corner of the cuboid is outside.
    pub(crate) fn cuts(&self, cuboid: &Cuboid) -> bool
        requires { IsWithinReach (2 ^ 24) (as_box cuboid.now) }
        ensures { result ≡ is_some_outside (as_box cuboid.now) self.now }
    {
        self.farthest_outside(cuboid) < 0
    }

    /// The value at the corner that lies farthest inside.
    fn farthest_inside(&self, cuboid: &Cuboid) -> i64
        requires { IsWithinReach (2 ^ 24) (as_box cuboid.now) }
        ensures { result ≡ far_value self.now (as_box cuboid.now) }
    {
        let x = end_along(self.a, cuboid.x0, cuboid.x1);
        let y = end_along(self.b, cuboid.y0, cuboid.y1);
        let z = end_along(self.c, cuboid.z0, cuboid.z1);
        self.value_at(x, y, z)
    }

    /// The value at the corner that lies farthest outside.
    fn farthest_outside(&self, cuboid: &Cuboid) -> i64
        requires { IsWithinReach (2 ^ 24) (as_box cuboid.now) }
        ensures { result ≡ near_value self.now (as_box cuboid.now) }
    {
        let x = end_along(self.a, cuboid.x1, cuboid.x0);
        let y = end_along(self.b, cuboid.y1, cuboid.y0);
        let z = end_along(self.c, cuboid.z1, cuboid.z0);
        self.value_at(x, y, z)
    }

    /// The value at a point: at least 0 inside.
    pub(crate) fn value_at(&self, x: i64, y: i64, z: i64) -> i64
        requires x_reach { unsigned_abs x ≤ 2 ^ 24 }
        requires y_reach { unsigned_abs y ≤ 2 ^ 24 }
        requires z_reach { unsigned_abs z ≤ 2 ^ 24 }
        ensures { result ≡ plane_value self.now x y z }
    {
        self.a * x + (self.b * y + (self.c * z + self.d))
    }
}

impl Default for Plane {
    ghost is_default = { λ p. p ≡ record { a = pos 0; b = pos 0; c = pos 0; d = pos 0 } };

    /// The plane that has no outside.
    fn default() -> Self {
        Plane {
            a: 0,
            b: 0,
            c: 0,
            d: 0,
        }
    }
}

/// Whether a number is small enough for a slope.
fn is_slope(number: i64) -> bool
    ensures { IsTrue result ↔ (unsigned_abs number ≤ 2 ^ 20) }
{
    number.unsigned_abs() <= GREATEST_SLOPE
}

/// The end of the range at which its product with the slope is greatest.
fn end_along(slope: i64, low: i64, high: i64) -> i64
    requires low_reach { unsigned_abs low ≤ 2 ^ 24 }
    requires high_reach { unsigned_abs high ≤ 2 ^ 24 }
    ensures value { result ≡ far_end slope low high }
    ensures reach { unsigned_abs result ≤ 2 ^ 24 }
{
    if slope < 0 { low } else { high }
}
