//! Addresses of the triangles of a bintree over a square grid.
//!
//! A `Tri` names a triangle by its number in a binary heap: 2 and 3 are the halves of the square,
//! and 2a and 2a + 1 the left and right child of a. Corners, levels and mates follow from the number
//! by a step a level, so nothing here is stored and no call takes memory.
//! Sets of triangles, heights and priorities are the business of the crates above.

#![tactic(auto)]

mod blocked;
mod cuboid;
mod laws;
mod pair;
mod rank;
mod shape;
mod slot;
mod tri;

pub use bintree_laws::{corner_laws, level_laws, mate_laws};
pub use blocked::Blocked;
pub use cuboid::Cuboid;
pub use laws::{rank_laws, rank_order_laws};
pub use mesh_defs::{Corners, Point};
pub use rank::Rank;
pub use shape::{child_corners, point_between};
pub use slot::Slot;
pub use tri::Tri;
