//! Closed sets of split triangles, each of which stands for a conforming triangulation.
//!
//! A mesh is refined by forced splits: a triangle is split with its mate, after their parents. The
//! set of all that were split says everything of the mesh, which is its leaves. `Split` keeps that
//! set as an ascending vector. The laws of closed sets stand below, in `mesh_laws`; priorities, and a
//! mesh with links between its leaves, are the business of the crates above.

#![tactic(auto)]

mod forcing;
mod leaves;
mod members;
mod split;

pub use split::Split;
