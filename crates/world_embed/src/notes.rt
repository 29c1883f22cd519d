//! What a frame of a world tells, as a plain struct of numbers.

/// What a frame of a world did, and what its mesh is.
#[repr(C)]
#[derive(Clone, Copy, Debug, PartialEq, Eq)]
pub struct WorldFrame {
    /// The greatest priority of a triangle of the mesh.
    pub worst: u64,
    /// How often a priority was evaluated in this frame.
    pub evaluations: u64,
    /// How many triangles the mesh has.
    pub triangles: u32,
    /// How many triangles were split in this frame.
    pub splits: u32,
    /// How many were merged.
    pub merges: u32,
    /// The triangle at which the budget ended, or 0 where every triangle has priority 0.
    pub blocking: u32,
    /// How many triangles the mesh would have with it, or 0.
    pub need: u32,
    /// Always 0.
    pub spare: u32,
}
