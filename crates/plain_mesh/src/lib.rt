//! The mesh of a frame made from scratch: the plain program that the definition of a frame is.
//!
//! All splittable triangles of positive priority are ranked by a sort, and from the empty set they are
//! split by force, one after the other, until the next one does not fit the budget. Nothing is kept
//! from one frame to the next. Bodies that keep a mesh between frames are compared with this one.

#![tactic(auto)]

mod frame;
mod laws;
mod ranking;
mod refining;

pub use frame::{PlainFrame, plain_frame};
pub use laws::falling_laws;
