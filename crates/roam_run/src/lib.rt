//! The run of `roam`: from words, a shelf of files and two sinks to meshes and a report.
//!
//! For a program that hands it real files, and for tests that hand it objects in memory. Words and
//! files determine a run's outcome: its acts (a whole mesh, a text of the report) and its status. The
//! contract of `roam` says which acts stand after each status, and that each mesh is the best of the
//! state at its frame line. The commands stand below, and what an engine makes in `run_engine`.
//! No file is named here, and nothing is printed but the report.

#![tactic(auto)]

mod run;

pub use run::{Run, roam, status_of};
pub use run_laws::Status;
