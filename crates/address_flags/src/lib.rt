//! Triangles by their address: tables of one flag an address, and the triangle whose centre a grid point is.
//!
//! A table is a slice of `bool`, from address 0 up to `end`; a contract sees it as the set of the addresses whose
//! flag is set (`is_flagged` of `mesh_laws`). For passes over all splittable addresses, as the meshes for a
//! tolerance or an error and the checker of certificates make them; the pool of an engine keeps its set by slots
//! instead. `centred_at` is for points that a mesh must have, as summits, roads and the vertices that a neighbour has
//! on a common side: the triangle to split. The way down to it keeps how much of the point lies at each corner.

#![tactic(auto)]

mod centre;
mod flags;
mod list;
mod place;
mod weights;

pub use centre::centred_at;
pub use flags::{end, flag, flag_parent, is_set};
pub use list::list_leaves;
