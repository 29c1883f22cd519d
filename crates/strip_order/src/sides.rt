//! The turns of a strip.

/// Over which edge a strip leaves a triangle that it entered over another one, counterclockwise.
#[derive(Clone, Copy, Debug, PartialEq, Eq)]
pub enum Turn {
    /// Over the edge before the one of the entry.
    Left,
    /// Over the edge after it.
    Right,
}

/// How many turns a strip takes to either side, at all its triangles but the first and the last.
#[derive(Clone, Copy, Debug, PartialEq, Eq)]
pub struct Turns {
    /// Those to the left.
    pub left: u32,
    /// Those to the right.
    pub right: u32,
}
