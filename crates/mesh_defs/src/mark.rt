//! How a triangle's box lies to the view planes.

/// Where a box lies to a set of view planes.
#[derive(Clone, Copy, Debug, PartialEq, Eq)]
pub enum Mark {
    /// No corner of the box is outside a plane.
    Inside,
    /// Some corner is outside a plane, and no plane has all corners outside.
    Cut,
    /// All corners of the box are outside one plane.
    Outside,
}
