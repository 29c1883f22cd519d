//! What a run makes with an engine: the frames of a script, the sums of a generated run, the certificate of a best
//! mesh.
//!
//! For the run of `roam`. `EngineFrames` is one maker of the frames of a script: what followed a walk follows it
//! behind the next line, and shows the picture of a frame line. It stands beside `run_meshes`, which reads scripts
//! whatever makes their frames, and below `roam_run`, so that the three are not proved one after the other. Nothing
//! here reads a script.

#![tactic(auto)]

mod applying;
mod certify;
mod engine_frames;
mod frame;
mod generated;
mod report;
mod shows;

pub use certify::run_make;
pub use engine_frames::EngineFrames;
pub use generated::{Sums, sums_of};
pub use report::try_report;
