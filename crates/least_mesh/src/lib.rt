//! The least mesh for a tolerance: the fewest triangles of which none has a priority above the tolerance.
//!
//! For a caller that wants a quality and no budget. All triangles that are worse than the tolerance are flagged
//! from the top down, and one pass from the finest level up flags what they force; the leaves of what is
//! flagged are the mesh. `Least` takes its room once, and a frame takes none.
//! The laws stand below, in `mesh_laws`; the budget of a frame is the business of `plain_mesh`.

#![tactic(auto)]

mod flags;
mod least;
mod list;
mod worse;

pub use least::{Least, LeastNote};
