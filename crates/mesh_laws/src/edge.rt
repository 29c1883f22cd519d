//! The edges of a triangle.

/// An edge of a triangle, counterclockwise.
#[derive(Clone, Copy, Debug, PartialEq, Eq)]
pub enum Edge {
    /// From the apex to `v0`.
    LeftLeg,
    /// From `v0` to `v1`.
    Base,
    /// From `v1` to the apex.
    RightLeg,
}
