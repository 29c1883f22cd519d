//! A search for a mesh of few triangles of any shape, each within an error of the heights at all its grid points.
//!
//! It begins with a mesh that somebody gives, takes vertices out while a better filling of what they leave can be found,
//! turns edges and moves vertices. **Nothing is promised of what it finds**: each call is safe and ends, whatever it is
//! given, and that is all. Whoever uses a network has it judged (`mesh_cover`, `mesh_within`). So no function has a clause: places
//! beyond an array's end read as `NONE`, numbers wrap, loops end by a bound. The same input gives the same network.
//!
//! Sources: Michael Garland and Paul Heckbert, "Fast polygonal approximation of terrains and height fields", 1995 (the
//! error at grid points); Gerhard Barequet, Matthew Dickerson, David Eppstein, "On triangulating three-dimensional polygons",
//! 1996 (the best filling of a hole by a table of its sub-polygons). What is combined here is this project's own.

#![tactic(auto)]

mod arrays;
mod errors;
mod fill;
mod flip;
mod ground;
mod joining;
mod joins;
mod known;
mod moves;
mod network;
mod numbers;
mod put;
mod remove;
mod rounds;
mod star;
mod taken;

pub use ground::Ground;
pub use network::Network;
pub use rounds::search;
pub use taken::{Taken, taken_from};
