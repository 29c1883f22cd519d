//! A mesh of few triangles of any shape within an error, found by a search of which nothing is promised, and judged.
//!
//! `tin_search` begins with a mesh of right triangles and looks for one of fewer triangles of any shape. What it finds is taken
//! only if `mesh_cover` says that its triangles tile the square, `mesh_within` that each grid point is within the error,
//! and there are no more triangles than at the beginning. Then that is a theorem, whatever the search did.

#![tactic(auto)]

mod judging;
mod making;
mod start;
mod tin;

pub use making::make_tin;
pub use tin::Tin;
