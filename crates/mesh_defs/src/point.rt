//! A grid point, and the three corners of a triangle.

/// A point of a grid, in grid steps. `x` points right and `y` up.
#[derive(Clone, Copy, Debug, PartialEq, Eq)]
pub struct Point {
    /// The column, counted from 0 at the left.
    pub x: u32,
    /// The row, counted from 0 at the bottom.
    pub y: u32,
}

/// The corners of a triangle, named counterclockwise.
#[derive(Clone, Copy, Debug, PartialEq, Eq)]
pub struct Corners {
    /// The corner of the right angle.
    pub apex: Point,
    /// The end of the base that follows the apex.
    pub v0: Point,
    /// The other end of the base.
    pub v1: Point,
}
