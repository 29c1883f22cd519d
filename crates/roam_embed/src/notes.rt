//! What calls tell, as plain structs of numbers.

/// What a frame did, and what its mesh is.
#[repr(C)]
#[derive(Clone, Copy, Debug, PartialEq, Eq)]
pub struct Frame {
    /// The greatest priority of a triangle of the mesh.
    pub worst: u64,
    /// How many triangles the mesh has.
    pub triangles: u32,
    /// How many vertices they have.
    pub vertices: u32,
    /// How many triangles were split in this frame.
    pub splits: u32,
    /// How many were merged.
    pub merges: u32,
    /// The triangle at which the budget ended, or 0 where every triangle has priority 0.
    pub blocking: u32,
    /// How many triangles the mesh would have with it, or 0.
    pub need: u32,
    /// How many triangles of the mesh are inside all planes.
    pub inside: u32,
    /// How many are cut by a plane.
    pub cut: u32,
    /// How many are outside a plane.
    pub outside: u32,
    /// Always 0.
    pub spare: u32,
}

/// How an engine stands.
#[repr(C)]
#[derive(Clone, Copy, Debug, PartialEq, Eq)]
pub struct Standing {
    /// The number of points of a side.
    pub side: usize,
    /// How far the camera has gone: the sum of the ways of its moves along the three axes.
    pub way: u64,
    /// How often a priority was evaluated.
    pub evaluations: u64,
    /// How many frames were made.
    pub frames: u32,
    /// The greatest budget.
    pub most: u32,
    /// The budget in force.
    pub budget: u32,
    /// How many planes are in force.
    pub planes: u32,
}

/// A plane: its inside is where a x + b y + c z + d is at least 0.
#[repr(C)]
#[derive(Clone, Copy, Debug, PartialEq, Eq)]
pub struct PlaneNumbers {
    /// The slope along x.
    pub a: i64,
    /// The slope along y.
    pub b: i64,
    /// The slope along z.
    pub c: i64,
    /// The offset.
    pub d: i64,
}

/// How far the surface is from the mesh at most: `off` over `over`, in units of height.
#[repr(C)]
#[derive(Clone, Copy, Debug, PartialEq, Eq)]
pub struct Deviation {
    /// The greatest distance at a grid point, times `over`.
    pub off: u64,
    /// Steps of a side, 2^n.
    pub over: u64,
}

/// The mesh that was found for a tolerance or a budget.
#[repr(C)]
#[derive(Clone, Copy, Debug, PartialEq, Eq)]
pub struct Fitted {
    /// How far the surface is from the mesh at a grid point, at most, times `over`.
    pub off: u64,
    /// Steps of a side, 2^n.
    pub over: u64,
    /// How many triangles the mesh has.
    pub triangles: u32,
    /// How many vertices they have.
    pub vertices: u32,
}

/// The next tile of a mosaic that has to be fitted.
#[repr(C)]
#[derive(Clone, Copy, Debug, PartialEq, Eq)]
pub struct Tile {
    /// Its column, from 0.
    pub column: u32,
    /// Its row, from 0.
    pub row: u32,
    /// 1, or 0 where no tile has to be fitted; column and row are 0 then.
    pub waits: u32,
    /// Always 0.
    pub spare: u32,
}

/// What a tile's mesh has to have.
#[repr(C)]
#[derive(Clone, Copy, Debug, PartialEq, Eq)]
pub struct Required {
    /// How many points.
    pub count: usize,
    /// 1 where the tile's mesh lacks one of them, so that it has to be fitted; else 0.
    pub lacks: u32,
    /// Always 0.
    pub spare: u32,
}
