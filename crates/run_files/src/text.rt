//! Short texts on the stack: the lines of the report.

use arrayvec::ArrayVec;

/// Room for a line of eleven numbers, each of at most 20 digits, and its words.
pub const TEXT_ROOM: usize = 640;

/// A short text.
pub type Text = ArrayVec<u8, TEXT_ROOM>;
