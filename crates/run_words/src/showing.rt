//! Which meshes the frames of a script have, and how they are shown.

/// How the frames of an engine are shown.
#[derive(Clone, Copy)]
pub enum Showing<'a> {
    /// As meshes, whose names begin with this prefix.
    Meshes(&'a str),
    /// As the strips of these meshes, whose names begin with this prefix.
    Strips(&'a str),
    /// By how far the meshes are from the surface, without a mesh.
    Measures,
}

/// Which meshes the frames of a script have, and how they are shown.
#[derive(Clone, Copy)]
pub enum Meshing<'a> {
    /// The best meshes within the budget, which an engine makes, and which are shown so.
    ByEngine(Showing<'a>),
    /// The least meshes of a tolerance, whose names begin with the prefix.
    ByTolerance { prefix: &'a str, tolerance: u64 },
}
