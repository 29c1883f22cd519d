//! The mesh of a list of triangles as the text of a Wavefront OBJ file.
//!
//! `number_vertices` gives each corner its number, by y and then by x. `write_mesh` takes these numbers,
//! writes a `v` line for each vertex and an `f` line for each triangle, with `g` lines where view planes
//! are in force and the mark changes, and hands them to a mesh sink in large pieces. `VertexTable::number`
//! and `write_sparse` do the same, and pass over the blocks of places where no vertex stands.
//! The text is the one that `mesh_text` defines. No call takes memory.
//! What the triangles are is not looked at: any list gives a text.

#![tactic(auto)]

mod arrays;
mod faces;
mod field;
mod limits;
mod line_view;
mod lines;
mod mesh;
mod page;
mod patch;
mod row;
mod scan;
mod sparse;
mod table;
mod vertices;
mod walk;

pub use arrays::{write_places, write_positions};
pub use limits::limit_laws;
pub use lines::{LONGEST_PIECE, MeshLines};
pub use mesh::{MeshView, write_mesh, write_sparse};
pub use patch::VertexChange;
pub use sparse::SparseView;
pub use table::VertexTable;
pub use vertices::number_vertices;
