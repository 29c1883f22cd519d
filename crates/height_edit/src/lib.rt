//! Edits of heights, with the triangles that they touch.
//!
//! For the crates that keep priorities of triangles while heights change: `set_point` changes one height and
//! lists the triangles that hold the point, `raise_area` changes a rectangle, and `meets` tells which
//! triangles that can touch. Every other triangle has the thickness and the box that it had.

#![tactic(auto)]

mod area;
mod holders;
mod laws;
mod point;

pub use area::{meets, raise_area};
pub use holders::HOLDERS;
pub use laws::holder_laws;
pub use point::set_point;
