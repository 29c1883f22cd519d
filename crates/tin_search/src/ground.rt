//! The heights that a network is to follow.

use crate::numbers::{Num, num, whole};

/// A rectangle of heights, and how far a network may be from them. Rows are counted from the last one in the file.
#[derive(Clone, Copy, Drop)]
pub struct Ground<'a> {
    /// The heights, in file order: rows from the top, each from left to right.
    pub heights: &'a [u16],
    /// How many columns there are.
    pub columns: u32,
    /// How many rows there are.
    pub rows: u32,
    /// How far a network may be from a height, in thousandths of a unit of height.
    pub thousandths: u32,
}

impl Ground<'_> {
    /// The height at a column and a row; 0 beyond the rectangle.
    #[inline]
    pub fn height(&self, x: u32, y: u32) -> Num {
        let at = self.place(x, y);
        if at < self.heights.len() {
            num(i64::from(self.heights[at]))
        } else {
            whole(0)
        }
    }

    /// The heights of a row from a column on, as many as are asked for; none beyond the rectangle.
    #[inline]
    pub fn row(&self, x: u32, y: u32, count: u32) -> &[u16] {
        let at = self.place(x, y);
        let end = at.wrapping_add(count as usize);
        if at <= end && end <= self.heights.len() {
            &self.heights[at..end]
        } else {
            &[]
        }
    }

    /// The place of a column and a row.
    #[inline]
    fn place(&self, x: u32, y: u32) -> usize {
        let above = self.rows.wrapping_sub(1).wrapping_sub(y);
        (above as usize)
            .wrapping_mul(self.columns as usize)
            .wrapping_add(x as usize)
    }

    /// Whether a place lies strictly inside the rectangle.
    pub fn is_inside(&self, x: Num, y: Num) -> bool {
        let last = (whole(self.columns) - num(1), whole(self.rows) - num(1));
        0 < x.0 && x < last.0 && 0 < y.0 && y < last.1
    }

    /// Whether a place is a corner of the rectangle.
    pub fn is_corner(&self, x: Num, y: Num) -> bool {
        let last = (whole(self.columns) - num(1), whole(self.rows) - num(1));
        (x.0 == 0 || x == last.0) && (y.0 == 0 || y == last.1)
    }
}
