//! The mesh of the fewest triangles for an error in metres, and the mesh of the least error for a budget.
//!
//! For a caller that has a height field and no camera. The error of a triangle is how far the surface is
//! from its plane at a grid point, at most. Leaves that are worse than the tolerance are split, with what
//! that forces; with a budget, from a mesh for some tolerance on, the worst leaf first, and each set whose worst falls
//! below all before it is marked. Triangles may be required, as for points that a mesh must have. `Fit` takes its room
//! once, and a frame takes none. The laws stand below, in `fit_laws`.

#![tactic(auto)]

mod demand;
mod error;
mod find;
mod fit;
mod force;
mod grow;
mod leaves;
mod limit;
mod list;
mod pair;
mod required;
mod settle;
mod splits;
mod start;

pub use demand::point_of;
pub use error::worst_error;
pub use fit::{Fit, FitNote, are_splittable};
pub use limit::Limit;
pub use required::Required;
pub use splits::SplitSet;
