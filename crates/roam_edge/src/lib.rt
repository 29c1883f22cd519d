//! The outside of the mesher: where files are read from, where meshes and reports go to.
//!
//! Three traits, `Shelf`, `MeshSink` and `Sink`, say what an outside object tells to contracts:
//! its contents where it tells them, and always its count of faults. A call fails only where that
//! count rose, so generic code cannot invent a failure. Objects in memory tell all; the adapters
//! over real files and writers tell no content of a file.
//! No format is known here: the bytes have no meaning.

#![tactic(auto)]

mod calm_shelf;
mod file_meshes;
mod file_shelf;
mod limits;
mod mem_meshes;
mod mem_sink;
mod mesh_call;
mod mesh_name;
mod mesh_room;
mod mesh_sink;
mod shelf;
mod sink;
mod std_sink;

pub use calm_shelf::CalmShelf;
pub use file_meshes::FileMeshes;
pub use file_shelf::FileShelf;
pub use limits::limit_laws;
pub use mem_meshes::MemMeshes;
pub use mem_sink::MemSink;
pub use mesh_call::MeshCall;
pub use mesh_defs::{Failed, NoMemory};
pub use mesh_sink::{GREATEST_NUMBER, LONGEST_PREFIX, MeshSink};
pub use shelf::Shelf;
pub use sink::Sink;
pub use std_sink::StdSink;
