//! One strip through all triangles of a mesh.
//!
//! `strip` puts the leaves of a closed set in an order in which each two neighbours share a whole edge, and so do the
//! last and the first; `turn` and `turns` say to which side it turns. The order follows the tree, so no search is
//! made and no memory is taken: runs of the depth-first list are reversed where they stand. What a strip is stands in
//! `mesh_laws`.

#![tactic(auto)]

mod order;
mod sides;
mod turning;

pub use order::strip;
pub use sides::{Turn, Turns};
pub use turning::{turn, turns};
