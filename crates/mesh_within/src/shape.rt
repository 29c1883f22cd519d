//! A triangle with its heights, a place in it, and columns of a row.

use mesh_defs::Point;

/// A triangle: its corners, which turn left, their heights, and twice its area.
#[derive(Clone, Copy)]
pub(crate) struct Facet {
    pub(crate) a: Point,
    pub(crate) b: Point,
    pub(crate) c: Point,
    pub(crate) za: u16,
    pub(crate) zb: u16,
    pub(crate) zc: u16,
    pub(crate) area: u32,
}

/// A grid point of a triangle, and how far the surface is from the plane there, times twice the area.
#[derive(Clone, Copy)]
pub(crate) struct Spot {
    pub(crate) column: u32,
    pub(crate) row: u32,
    pub(crate) gap: u64,
}

/// The columns from one on and before another.
#[derive(Clone, Copy)]
pub(crate) struct Columns {
    pub(crate) from: u32,
    pub(crate) end: u32,
}
