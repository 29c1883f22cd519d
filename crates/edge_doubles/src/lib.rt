//! Shelves and mesh sinks for tests and tools, beside those of `roam_edge`.
//!
//! `MemShelf` owns its files and fails where it is told to; `CountMeshes` counts meshes and bytes
//! and keeps none of them. Each is proved against its trait, and says exactly what each call does.

#![tactic(auto)]

mod count_meshes;
mod mem_shelf;
mod shelf_call;
mod stored_file;

pub use count_meshes::CountMeshes;
pub use mem_shelf::MemShelf;
pub use shelf_call::ShelfCall;
