//! Whether triangles of any shape tile a rectangle of grid points, by a test of each corner, triangle and edge.
//!
//! Whoever made the mesh is not trusted: it comes as arrays, with the partner of each edge, and the judge tests them. Its yes
//! means that each rational point of the rectangle lies in a triangle, and strictly inside one at most.

#![tactic(auto)]

mod fault;
mod judge;
mod seams;
mod sides;

ghost use Rattle.mesh_cover.specs.Mesh.{TilingLaw};

pub use fault::Fault;
pub use judge::first_fault;

/// The rule of partners makes a tiling: each rational point of the rectangle lies in a closed triangle, and strictly inside
/// one at most.
pub fn tiling_law()
    ensures { TilingLaw }
{}
