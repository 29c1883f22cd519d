//! Where the meshes of a sink in memory lie in its room of bytes.

use crate::LONGEST_PREFIX;
use arrayvec::ArrayString;

/// The name of a mesh, and the place in the room at which its bytes start.
#[derive(Clone, Copy)]
pub(crate) struct Heading {
    pub(crate) prefix: ArrayString<LONGEST_PREFIX>,
    pub(crate) number: u32,
    pub(crate) start: usize,
}

/// A finished mesh, and the place in the room behind its last byte.
#[derive(Clone, Copy)]
pub(crate) struct Placed {
    pub(crate) heading: Heading,
    pub(crate) end: usize,
}
