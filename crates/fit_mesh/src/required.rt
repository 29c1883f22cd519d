//! What is required of a mesh.

use bintree_addr::Tri;

/// Triangles that a mesh has to split, whatever their errors are.
#[derive(Clone, Copy)]
pub enum Required<'a> {
    /// These.
    Triangles(&'a [Tri]),
    /// Those that have one of these grid points as the midpoint of their base, so that each of the points is a vertex: by
    /// their places in the heights, rows from the top. A corner of the square is a vertex of each mesh.
    Points(&'a [u32]),
}
