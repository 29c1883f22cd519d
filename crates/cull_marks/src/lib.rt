//! View planes, and how a box along the axes lies to them.
//!
//! A `Plane` of whole numbers has an inside and an outside; up to six of them are in force at a time.
//! `Planes::mark` tells whether a box is Inside, Cut or Outside, by two of its corners a plane: the one
//! that lies farthest inside and the one that lies farthest outside. The answer is that of all eight.
//! Cameras, priorities and the boxes of triangles are the business of the crates above.

#![tactic(auto)]

mod laws;
mod plane;
mod planes;

pub use bintree_addr::Cuboid;
pub use laws::{limit_laws, mark_laws};
pub use mesh_defs::Mark;
pub use plane::Plane;
pub use planes::{MOST_PLANES, Planes};
