//! The commands that write meshes of a script or of a fit, but for those of an engine.
//!
//! For the run of `roam`. A `FrameMaker` carries out the lines of a script and shows the frames of its frame lines.
//! `run_script` reads a script from an `Outside`, in pieces, and hands each line over once it is whole; `run_least` is
//! the command `least`, over the one maker that stands here: least meshes of a tolerance. `run_fit` and `run_keep` are
//! the command `fit`: a grid is read, and points where the mesh has to have them, its mesh is found by `fit_mesh`, and
//! then one line is told about it. Nothing here knows an engine.

#![tactic(auto)]

mod fitted;
mod keep;
mod least_frames;
mod least_run;
mod report;
mod required;
mod room;
mod run;
mod script;
mod stage;

pub use keep::run_keep;
pub use least_run::run_least;
pub use run::run_fit;
pub use run_files::FrameMaker;
pub use script::run_script;
