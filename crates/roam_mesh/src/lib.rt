//! A mesh that goes from frame to frame by the two queues of ROAM: a pool of triangles, a split queue, a merge queue,
//! deadlines, and a stamp for each entry.
//!
//! `deferred_loop` has the loop of a frame; here stands what it sees of a mesh, kept by slots of the pool. A mesh
//! sees no heights and no camera: it learns a priority only from a gauge. No call but `make` takes memory.

#![tactic(auto)]

mod entry;
mod find;
mod fresh;
mod keys;
mod log;
mod merging;
mod mesh;
mod parts;
mod places;
mod queued;
mod splitting;

pub use deferred_loop::{Gauge, Reading, Steps};
pub use mesh::Mesh;
