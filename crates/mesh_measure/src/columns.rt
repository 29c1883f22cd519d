//! Columns of a row.

/// The columns from `from` on and before `end`; none where `end` is not above `from`.
#[derive(Clone, Copy)]
pub(crate) struct Columns {
    pub(crate) from: u32,
    pub(crate) end: u32,
}
