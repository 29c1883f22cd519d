//! The words of a command line: which are a command, and the reader of them.
//!
//! For the crates that carry a command out, and for those that say what is wrong with words. Nothing here opens a file,
//! and nothing knows what makes a frame. It is a crate beside `run_files`, and not a part of it, so that the two are
//! proved side by side.

#![tactic(auto)]

mod certify_words;
mod first_wrong;
mod fit_words;
mod found;
mod kept_words;
mod role;
mod showing;
mod table;
mod words;

pub use certify_words::{CheckWords, FitCheckWords, FitMakeWords, MakeWords};
pub use first_wrong::WordFault;
pub use fit_words::{FitWords, Goal, KeepWords};
pub use found::{GREATEST_BUDGET, GREATEST_SEED, GREATEST_TOLERANCE, LEAST_BUDGET, REACH};
pub use kept_words::{KeptCheckWords, KeptMakeWords};
pub use mesh_defs::GREATEST_FILE_LEVEL;
pub use role::Role;
pub use showing::{Meshing, Showing};
pub use table::{Kind, Row, Stage, Wanted, commands, goals, row_of, tasks};
pub use wedgie_tree::GREATEST_SPACING;
pub use words::{Command, FrameWords, command_in};
