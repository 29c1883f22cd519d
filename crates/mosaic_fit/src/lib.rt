//! The mesh of a terrain of many tiles, without cracks: each tile is fitted by itself, in rounds.
//!
//! `fit_tiles` takes each tile's heights from a `Tiles` of the caller's, and hands it each tile's mesh. At the end the
//! meshes are the least mosaic for the tolerance, whatever the order in which tiles were fitted: that is its contract.
//! It works on one machine, and shows how `mosaic_rounds` and `fit_mesh` go together; whoever has many workers makes
//! the same calls. It is not a store of heights or meshes.

#![tactic(auto)]

mod fit;
mod tiles;

pub use fit::fit_tiles;
pub use mesh_defs::Failed;
pub use mosaic_rounds::Point;
pub use tiles::Tiles;
