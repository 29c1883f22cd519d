//! The triangle at which a budget ends.

use crate::Tri;

/// The first triangle in rank that a budget does not let in.
#[derive(Clone, Copy, Debug, PartialEq, Eq)]
pub struct Blocked {
    /// The triangle.
    pub tri: Tri,
    /// How many leaves the mesh would have with it, and with what it forces.
    pub need: u32,
}
