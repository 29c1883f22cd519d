//! The program at a console: words from the system, real files, standard output, and what standard error says.
//!
//! For the program alone, which hands its run in. Words of the command line are handed to the run, and its status is
//! the exit status. Standard output has the report alone. Of words that are no command the first wrong one is that of
//! `run_words`; the file that failed by the number of files that were opened; why it
//! failed by wrappers that hand each call on and keep what the system said. These texts are for people: no clause
//! speaks of them. Nothing here knows what a command does.

#![tactic(auto)]

mod console;
mod explanation;
mod forms;
mod head;
mod hint;
mod kinds;
mod note;
mod noted_files;
mod opened;
mod outside_text;
mod prefix;
mod program;
mod quoted;
mod usage;
mod watched;
mod word_text;

pub use console::run_program;
pub use hint::{GridHint, grid_hint};
pub use note::{Failure, Note, Step};
pub use noted_files::{Noted, NotedFiles};
pub use opened::{OpenedFile, opened_file};
pub use outside_text::{MeshFault, ReadFault, ReportFault};
pub use prefix::mesh_prefix;
pub use program::Program;
pub use quoted::Quoted;
pub use watched::{HEAD, LINE, WatchedShelf, WatchedSink};
pub use word_text::WordText;
