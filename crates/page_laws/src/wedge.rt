//! What is kept of a triangle: its thickness and its heights.

/// A thickness, and the least and the greatest height.
#[derive(Clone, Copy, Debug, PartialEq, Eq)]
pub struct KnownWedge {
    /// The thickness, in half units of height.
    pub thickness: u32,
    /// The least height.
    pub low: u16,
    /// The greatest height.
    pub high: u16,
}
