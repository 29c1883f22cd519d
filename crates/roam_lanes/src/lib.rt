//! Kernels over rows of samples: several samples at a time in the lanes of a vector.
//!
//! For the reader of grids and for edits of heights. Each kernel has a plain twin beside it with the
//! same contract, which goes sample by sample: the kernel runs whole blocks through the lanes and
//! leaves what is shorter than a block to the twin. So both give the same on every length.
//! Nothing here takes memory.

#![tactic(auto)]

mod above;
mod extremes;
mod lanes;
mod raising;
mod words;

pub use above::{first_above, first_above_plain};
pub use extremes::{range, range_plain};
pub use raising::{raise_row, raise_row_plain};
pub use words::{be16, be16_plain};
