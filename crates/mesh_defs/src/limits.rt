//! Limits that more than one crate keeps to.

/// The fewest triangles of a mesh: the two base triangles.
pub const LEAST_TRIANGLES: u32 = 2;

/// The most triangles of a mesh: an engine takes the memory of all of them when it is made, 44 bytes a triangle.
pub const MOST_TRIANGLES: u32 = 1 << 20;

/// The greatest height.
pub const GREATEST_HEIGHT: u32 = 65_535;

/// The greatest error that may be asked for, in thousandths of a unit of height: no mesh is farther from the heights.
pub const GREATEST_ERROR: u32 = 65_535_999;

/// The most view planes in force at once: the sides of a frustum.
pub const MOST_PLANES: u32 = 6;

/// The greatest size of a slope of a plane. With cuboids that reach 2^24 and the greatest offset no sum comes near 2^63.
pub const GREATEST_SLOPE: u64 = 1 << 20;

/// The greatest size of a plane's offset.
pub const GREATEST_OFFSET: u64 = 1 << 50;

/// The greatest size of a camera's coordinate. The squares of three gaps to a box within 2^24 then sum to less than
/// 2^62.
pub const CAMERA_REACH: u64 = 1 << 30;

/// The greatest number of a mesh of a run: numbers have six digits.
pub const GREATEST_NUMBER: u32 = 999_999;
