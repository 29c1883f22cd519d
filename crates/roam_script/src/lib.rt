//! The lines of a script: cameras, edits of heights, view planes, budgets, areas and frames.
//!
//! For the crate that carries a script out. `read_line` answers the line that some bytes are, or the
//! first refusal in the order of the format, under what the script has come to (`Limits`). It holds no
//! state: the caller cuts the script at each LF and counts lines, frames and planes.
//! No call takes memory.

#![tactic(auto)]

mod command;
mod fields;
mod laws;
mod limits;
mod line;
mod point;
mod reading;
mod script_fault;

pub use fields::{first_field, without_cr};
pub use laws::{limit_laws, line_laws, point_laws};
pub use limits::{
    CAMERA_REACH, GREATEST_OFFSET, GREATEST_RAISE, GREATEST_SLOPE, LEAST_BUDGET, Limits,
    MOST_FRAMES, MOST_LINE_BYTES, MOST_LINES, MOST_PLANES,
};
pub use line::Line;
pub use point::{most_points, read_point};
pub use reading::read_line;
pub use script_fault::ScriptFault;
