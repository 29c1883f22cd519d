//! How large a grid may be.

/// The greatest n of a grid of side 2^n + 1: 16,385 points a side.
pub const GREATEST_LEVEL: u32 = 14;

/// The greatest n of a grid in a file: 2,049 points a side.
pub const GREATEST_FILE_LEVEL: u32 = 11;
