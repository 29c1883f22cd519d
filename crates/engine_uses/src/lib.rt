//! Callers of the engine: a flight over terrain, one that goes on for as long as an engine lasts, an edit under a camera
//! that stands still, and a drawing buffer that stays in step with the mesh.
//!
//! They show how `frame_loop` is used, and what its public clauses give to a caller: each frame's mesh has no cracks,
//! keeps to the budget, and none that does is better. Nothing here is called by the program.

#![tactic(auto)]

mod draw;
mod edit;
mod flight;
mod onward;
mod step;

pub use draw::{buffer_of, frame_and_patch, patch_buffer};
pub use edit::set_and_look;
pub use flight::fly;
pub use onward::go_on;
pub use step::{Sight, best_frame};
