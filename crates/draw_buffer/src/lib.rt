//! An index buffer that follows a mesh: what stays keeps its place, and what was written is told.
//!
//! The triangles stand at dense places, in no order of the mesh. A patch takes out those that went and puts in those
//! that came: a new one takes the place of one that went, and what gaps are left the last ones close. So a caller
//! hands a graphics card the places that were written, not the whole buffer. The corners are vertex numbers: a grid
//! point has one while a triangle has it at a corner, and numbers in no use are given out again. What a mesh is is
//! not looked at, and no call but `make` takes memory.

#![tactic(auto)]

mod buffer;
mod exchange;
mod indices;
mod laws;
mod places;
mod vertices;

pub use bintree_addr::Tri;
pub use buffer::DrawBuffer;
pub use exchange::MOST_TRIANGLES;
pub use indices::Indices;
pub use laws::{limit_laws, times_laws};
pub use mesh_defs::NoMemory;
