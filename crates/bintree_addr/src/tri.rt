//! The address of a triangle, with what follows from it alone.

ghost use Rattle.std.specs.Prelude.{◌≡◌, ℕ, ◌+◌, ◌*◌, ◌^◌, ◌<◌, ◌≤◌, ◌/◌, ◌↔◌, IsSome, IsNone, IfSome};
ghost use Rattle.mesh_defs.specs.Triangle.{level_of, corners_of, child, midpoint, IsMate, HasBorderBase};
ghost use Rattle.mesh_defs.specs.BoundingBox.{holds_point, point};
ghost use Rattle.mesh_defs.specs.declared.level.TheConstants.{GREATEST_LEVEL};
ghost use Rattle.bintree_laws.specs.Corners.{IsWithin, HasEvenBase};

use crate::pair::address_across;
use crate::shape::{child_corners, half_square, is_left, point_between};
use crate::{Corners, Point};
use std::marker::Model;

/// The address of a triangle: 2 and 3 for the halves of the square, 2a and 2a + 1 for the left and
/// the right child of a.
///
/// Every address lies in the deepest grid, of 16,384 steps a side. Addresses are ordered by level, and within
/// a level from left child to right child.
#[derive(Clone, Copy, Debug, PartialEq, Eq, PartialOrd, Ord)]
pub struct Tri {
    number: u32,
}

impl Model for Tri {
    ghost use Rattle.std.specs.Prelude.{ℕ, ◌<◌, ◌≤◌, ◌^◌};

    ghost Value = { ℕ };

    ghost view = { λ t. t.number };

    ghost invariant = { λ t. (2 ≤ t.number) × (t.number < 2 ^ 30) };

    ghost inverse = { λ a. record { number = a } };
}

#[tactic(auto, using(bintree_laws::proofs::LatticeLemmas::corner_facts))]
impl Tri {
    /// The half of the square below its falling diagonal.
    pub const LOWER: Self = Tri { number: 2 };

    /// The half of the square above its falling diagonal.
    pub const UPPER: Self = Tri { number: 3 };

    /// The triangle with this address, where a grid of at most 2,049 points a side has it; `at` takes all addresses.
    pub fn new(number: u32) -> Option<Self>
        ensures valid { IsSome result ↔ ((2 ≤ number) × (number < 2 ^ 24)) }
        ensures value { IfSome result (λ t. t ≡ number) }
    {
        if (2..1 << 24).contains(&number) {
            Some(Tri { number })
        } else {
            None
        }
    }

    /// The triangle with this address.
    pub fn at(number: u32) -> Option<Self>
        ensures valid { IsSome result ↔ ((2 ≤ number) × (number < 2 ^ 30)) }
        ensures value { IfSome result (λ t. t ≡ number) }
    {
        if (2..1 << 30).contains(&number) {
            Some(Tri { number })
        } else {
            None
        }
    }

    /// The address as a number.
    pub fn number(self) -> u32
        ensures value { result ≡ self }
        ensures low { 2 ≤ result }
        ensures high { result < 2 ^ 30 }
    {
        self.number
    }

    /// How often a half of the square was split to come to this triangle.
    pub fn level(self) -> u32
        ensures value { result ≡ level_of self }
        ensures high { result ≤ 28 }
    {
        // An address of level l has l + 2 binary digits.
        30 - self.number.leading_zeros()
    }

    /// The left child: its base is this triangle's left leg, from the apex to `v0`.
    pub fn left(self) -> Self
        requires coarse { level_of self < 28 }
        ensures value { result ≡ 2 * self }
        ensures level { level_of result ≡ level_of self + 1 }
        ensures corners { (n : ℕ) → corners_of n result ≡ child 0 (corners_of n self) }
    {
        Tri {
            number: 2 * self.number,
        }
    }

    /// The right child: its base is this triangle's right leg, from `v1` to the apex.
    pub fn right(self) -> Self
        requires coarse { level_of self < 28 }
        ensures value { result ≡ 2 * self + 1 }
        ensures level { level_of result ≡ level_of self + 1 }
        ensures corners { (n : ℕ) → corners_of n result ≡ child 1 (corners_of n self) }
    {
        Tri {
            number: 2 * self.number + 1,
        }
    }

    /// The triangle of which this is a child.
    pub fn parent(self) -> Option<Self>
        ensures base { IsNone result ↔ (self < 4) }
        ensures half { IfSome result (λ p. p ≡ self / 2) }
        ensures level { IfSome result (λ p. level_of self ≡ level_of p + 1) }
    {
        if self.number < 4 {
            None
        } else {
            Some(Tri {
                number: self.number / 2,
            })
        }
    }

    /// The other triangle of the level with the same base; a splittable triangle and its mate are a diamond.
    ///
    /// The mate of an address is the same in every grid that has it.
    /// Cost (not proved): a step for two levels at most, and two steps on average.
    pub fn mate(self, n: u32) -> Option<Self>
        requires in_grid { (1 ≤ n) × (n ≤ GREATEST_LEVEL) }
        requires level { level_of self ≤ 2 * n }
        ensures mate { (c : ℕ) → ((result ≡ Some c) ↔ IsMate n self c) }
        ensures border { IsNone result ↔ HasBorderBase n self }
    {
        match address_across(self.number) {
            Some(number) => Some(Tri { number }),
            None => None,
        }
    }

    /// The corners, counterclockwise, in grid steps.
    ///
    /// Cost (not proved): a step a level.
    pub fn corners(self, n: u32) -> Corners
        requires in_grid { (1 ≤ n) × (n ≤ GREATEST_LEVEL) }
        requires level { level_of self ≤ 2 * n }
        ensures value { result ≡ corners_of n self }
        ensures within { IsWithin (2 ^ n) result }
    {
        let level = self.level();
        let mut corners = half_square(1 << n, self.number >> level & 1 == 1);
        for below in (0..level).rev() {
            corners = child_corners(corners, self.number >> below & 1 == 1);
        }
        corners
    }

    /// The midpoint of the base, which is the apex of both children.
    ///
    /// Cost (not proved): a step a level.
    pub fn centre(self, n: u32) -> Point
        requires in_grid { (1 ≤ n) × (n ≤ GREATEST_LEVEL) }
        requires splittable { level_of self < 2 * n }
        ensures value { result ≡ midpoint (corners_of n self).v0 (corners_of n self).v1 }
        ensures exact { HasEvenBase (corners_of n self) }
    {
        let corners = self.corners(n);
        point_between(corners.v0, corners.v1)
    }

    /// Whether the grid point (x, y) lies in the closed triangle, its border included.
    ///
    /// Cost (not proved): that of `corners`.
    #[tactic(auto, using(bintree_laws::proofs::CornerLemmas::side_small))]
    pub fn holds_point(self, n: u32, x: u32, y: u32) -> bool
        requires in_grid { (1 ≤ n) × (n ≤ GREATEST_LEVEL) }
        requires level { level_of self ≤ 2 * n }
        requires x_in_grid { x ≤ 2 ^ n }
        requires y_in_grid { y ≤ 2 ^ n }
        ensures { result ≡ holds_point n self (point x y) }
    {
        let corners = self.corners(n);
        let grid_point = Point { x, y };
        is_left(grid_point, corners.apex, corners.v0)
            && is_left(grid_point, corners.v0, corners.v1)
            && is_left(grid_point, corners.v1, corners.apex)
    }
}

impl Default for Tri {
    ghost is_default = { λ t. t ≡ 2 };

    /// The half of the square below its falling diagonal.
    fn default() -> Self {
        Tri::LOWER
    }
}
