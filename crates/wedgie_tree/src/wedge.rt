//! What is told of a triangle, and stands in the table.

/// The thickness of a triangle and the least and the greatest height of its points.
#[derive(Clone, Copy, Debug, PartialEq, Eq)]
pub struct Wedge {
    /// The thickness, in half units of height.
    pub thickness: u32,
    /// The least height.
    pub low: u16,
    /// The greatest height.
    pub high: u16,
}
