//! What a line is read under, and the greatest numbers of a script.

use mesh_defs::{GREATEST_HEIGHT, GREATEST_NUMBER, LEAST_TRIANGLES};

/// The most lines of a script.
pub const MOST_LINES: u32 = 10_000_000;

/// The most bytes of a line: a CR counts, the LF does not.
pub const MOST_LINE_BYTES: usize = 200;

/// The most frames of a script: as many as their meshes have numbers.
pub const MOST_FRAMES: u32 = GREATEST_NUMBER;

/// The most planes in force.
pub const MOST_PLANES: u32 = mesh_defs::MOST_PLANES;

/// The greatest size of a coordinate of the camera, in world units.
pub const CAMERA_REACH: i64 = mesh_defs::CAMERA_REACH as i64;

/// The greatest size of a slope of a plane.
pub const GREATEST_SLOPE: i64 = mesh_defs::GREATEST_SLOPE as i64;

/// The greatest size of a plane's offset.
pub const GREATEST_OFFSET: i64 = mesh_defs::GREATEST_OFFSET as i64;

/// The least budget: the two base triangles.
pub const LEAST_BUDGET: u32 = LEAST_TRIANGLES;

/// The greatest size of what an area is raised by: the greatest height.
pub const GREATEST_RAISE: i64 = GREATEST_HEIGHT as i64;

/// What a line is read under.
#[derive(Clone, Copy, Debug, PartialEq, Eq)]
pub struct Limits {
    /// The level of the grid: a side has 2^n + 1 points.
    pub n: u32,
    /// The bound of the heights.
    pub maxval: u16,
    /// How many planes are in force.
    pub planes: u32,
    /// The number of this line, counted from 1.
    pub line: u32,
    /// How many frames were made so far.
    pub frames: u32,
    /// The greatest budget that a line may set.
    pub budget: u32,
}
