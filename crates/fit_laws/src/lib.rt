//! Meshes by their greatest error, as laws: the fewest triangles for a tolerance, the least error for a budget.
//!
//! A law crate: definitions and lemmas, and no code that runs. An error is any number of a triangle, as how far the
//! surface is from its plane, and may rise from a triangle to its child. Of the closed sets none of whose leaves
//! exceeds a tolerance there is a least one all the same; splitting leaves that exceed it, in any order, ends there.
//! What has to be split, and a tolerance of its own for each point, are other errors: no second theory. How far the
//! surface is from a triangle's plane is at most half its thickness. `mesh_measure` measures, `fit_mesh` fits.

#![tactic(auto)]

mod deviations;
mod fits;
mod required;
mod tolerances;

pub use deviations::deviation_laws;
pub use fits::{budget_laws, error_laws, fit_laws, settled_laws};
pub use required::required_laws;
pub use tolerances::tolerance_laws;
