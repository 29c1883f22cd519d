//! Wedgies: the thickness and the least and greatest height of each triangle of a bintree.
//!
//! For the crates that give triangles priorities and cull them. `Wedges` owns a grid and has a table
//! with an entry for each splittable triangle, so that an answer costs no look at the points below.
//! The table is filled from the finest triangles up, since the points of a triangle are those of its two
//! children; after a change of heights it is mended where a triangle meets what changed. Boxes are made from corners
//! and table as they are asked for; cameras, planes and priorities are the business of the crates above.

#![tactic(auto)]

mod area;
mod fine;
mod heights;
mod laws;
mod shape;
mod table;
mod wedge;
mod wedges;

pub use area::Area;
pub use laws::{edit_laws, limit_laws, wedge_laws};
pub use shape::box_around;
pub use wedge::Wedge;
pub use wedges::{GREATEST_SPACING, Wedges};
