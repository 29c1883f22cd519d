//! A box along the axes.

ghost use Rattle.std.specs.Prelude.{◌≤ℤ◌};

/// A box along the axes, in world units. Each lower end is at most its upper end.
#[derive(Clone, Copy, Debug, PartialEq, Eq)]
pub struct Cuboid {
    /// The left end.
    pub x0: i64,
    /// The right end.
    pub x1: i64,
    /// The lower end in the plane.
    pub y0: i64,
    /// The upper end in the plane.
    pub y1: i64,
    /// The least height.
    pub z0: i64,
    /// The greatest height.
    pub z1: i64,
    pub ghost x_ordered: { x0 ≤ℤ x1 },
    pub ghost y_ordered: { y0 ≤ℤ y1 },
    pub ghost z_ordered: { z0 ≤ℤ z1 },
}
