//! The number of a node in a pool of triangles.

/// The number of a node in a pool of triangles, counted from 0.
#[derive(Clone, Copy, Debug, Default, PartialEq, Eq, PartialOrd, Ord)]
pub struct Slot(pub u32);
