//! A world: one mesh that follows a camera over a terrain of pages, of which some are loaded.
//!
//! For flight simulators, whose terrain is larger than what is at hand. A `World` has the pages, a view of them and a
//! `Mesh` over the whole terrain; pages come and go between frames. Each frame is the best mesh of the budget for what
//! is loaded, and each of its corners is a point of a loaded page, so there are no cracks and no missing heights.

#![tactic(auto)]

mod draws;
mod edits;
mod frame;
mod laws;
mod listing;
mod look;
mod moves;
mod note;
mod paging;
mod scene;
mod world;

pub use cull_marks::Planes;
pub use draws::{Draw, draw_laws};
pub use laws::{loaded_mesh_laws, world_laws};
pub use mesh_defs::{NoMemory, Point};
pub use note::{WorldNote, Worn};
pub use page_store::{LoadFault, PageStore, PageTriangle, PageWedges, UnloadFault};
pub use view_priority::Camera;
pub use world::{FIRST_PACE, World};
