//! What comes next in a frame.

use crate::queued::Located;
use bintree_addr::Blocked;

/// What is known of a mesh at the end of a frame.
#[derive(Clone, Copy)]
pub struct Ending {
    /// The greatest priority of a leaf.
    pub worst: u64,
    /// The first triangle in rank that the budget does not let in.
    pub blocked: Option<Blocked>,
}

/// The next step, or the end.
#[derive(Clone, Copy)]
pub enum Next {
    /// The triangle is split with what it forces.
    Split(Located),
    /// The diamond of the triangle is merged.
    Merge(Located),
    /// No step is left.
    End(Ending),
}
