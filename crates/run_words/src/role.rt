//! What a file of a command is.

/// What a file of a command is.
#[derive(Clone, Copy, Debug, PartialEq, Eq)]
pub enum Role {
    /// The grid.
    Grid,
    /// The script.
    Script,
    /// A certificate that a mesh is checked by.
    Certificate,
    /// A mesh that is checked.
    Mesh,
    /// The points that a mesh keeps.
    Points,
}
