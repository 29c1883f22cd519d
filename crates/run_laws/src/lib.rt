//! What a run of `roam` is: its definitions, and their laws.
//!
//! For the crates that make frames and carry scripts out. A script is a walk over its lines, a frame
//! shows a picture of the state at its line, and a run has an outcome: acts, a status, the files that
//! it opens. The promises say what stands after each status. There is no algorithm here.

#![tactic(auto)]

mod cut_short;
mod generated;
mod laws;
mod statement;
mod status;

pub use cut_short::cut_short_laws;
pub use generated::generated_laws;
pub use laws::{
    certify_examples, certify_laws, fitting_laws, measure_examples, run_laws, script_examples,
    state_laws, turn_count_laws, walk_laws,
};
pub use statement::statement_laws;
pub use status::Status;
