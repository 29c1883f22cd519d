//! Grids and scripts that are made from a level and a seed.
//!
//! For runs on large terrain with no file: the heights are sums of octaves of value noise, all in whole
//! numbers; the script flies the camera over them and sets a height at each tenth of its 50 frames.
//! The same level and seed give the same bytes everywhere. Nothing here is random.

#![tactic(auto)]

mod heights;
mod laws;
mod octave;
mod script;
mod writing;

pub use heights::{gen_grid, gen_height};
pub use laws::generator_laws;
pub use script::gen_line;
pub use writing::{write_grid, write_script};
