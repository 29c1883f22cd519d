//! A triangle as it lies in space, the rectangle around it, and what it holds of a row.

use crate::columns::Columns;
use crate::line::Line;
use bintree_addr::Corners;

/// The corners of a triangle, the heights there, and twice its area, which is 2 to the power `log_area`.
#[derive(Clone, Copy)]
pub(crate) struct Facet {
    pub(crate) corners: Corners,
    pub(crate) apex: u16,
    pub(crate) v0: u16,
    pub(crate) v1: u16,
    pub(crate) area: u64,
    pub(crate) log_area: u32,
}

/// The least and greatest column and row of a triangle's corners.
#[derive(Clone, Copy)]
pub(crate) struct Bounds {
    pub(crate) left: u32,
    pub(crate) right: u32,
    pub(crate) low: u32,
    pub(crate) high: u32,
}

/// A triangle as it lies in space, and the rectangle around its corners.
#[derive(Clone, Copy)]
pub(crate) struct BoundedFacet {
    pub(crate) facet: Facet,
    pub(crate) bounds: Bounds,
}

/// The columns of a row that a triangle holds, and its plane along them, from the first of them on.
#[derive(Clone, Copy)]
pub(crate) struct HeldRow {
    pub(crate) columns: Columns,
    pub(crate) line: Line,
}
