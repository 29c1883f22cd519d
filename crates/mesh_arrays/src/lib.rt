//! A mesh as arrays: its leaves depth first, mended from mesh to mesh, and triangles as plain numbers.
//!
//! A `LeafList` has the leaves of a pool as they stood. A patch marks the triangles that may have changed and all
//! above them, and walks the pool from the two halves of the square down: below a triangle without a mark the leaves
//! are copied in one piece. What went and what came is written beside it. For graphics cards and other languages
//! triangles become indices, places of their corners in the list of heights, or addresses; `list_changes` says which
//! two meshes have alone. Nothing here knows priorities or frames, and no call but `LeafList::new` takes memory.

#![tactic(auto)]

mod changes;
mod indices;
mod laws;
mod list;
mod marks;
mod order;
mod patch;
mod walk;

pub use bintree_addr::Tri;
pub use changes::{Changes, list_changes};
pub use indices::{write_addresses, write_corners, write_indices};
pub use laws::{change_laws, index_laws};
pub use list::LeafList;
pub use mesh_defs::NoMemory;
pub use triangle_pool::Pool;
