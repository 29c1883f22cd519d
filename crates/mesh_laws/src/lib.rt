//! Laws of conforming meshes: the leaves of closed sets of split triangles, their edges, the frame of a budget.
//!
//! A law crate: definitions and lemmas, and no code that runs. The conforming lists are the leaves of closed sets, and
//! no others. Greedy refinement over priorities that fall from parent to child ends at the rank closure of the
//! budget, whose leaves are a best mesh; a frame comes there from any closed set, by splits and merges. All triangles
//! worse than a tolerance have a least closed set, whose leaves are the least mesh. An edge is named by the address
//! of the triangle whose base it is, so that what lies across it is arithmetic on addresses. The main laws are
//! clauses of functions with empty bodies, which cost nothing to call; the other lemmas are cited by their paths.

#![tactic(auto)]

mod closures;
mod diamonds;
mod edge;
mod edges;
mod least;
mod steps;
mod strips;
mod tilings;
mod vertices;

pub use closures::{
    base_mesh, closed_set_laws, frame_laws, greedy_laws, member_laws, rank_laws, set_leaf_laws,
};
pub use diamonds::{existence_laws, forced_laws, merge_laws, split_laws};
pub use edge::Edge;
pub use edges::{chain_laws, edge_laws, leaf_edge_laws, slot_laws};
pub use least::{least_laws, sweep_laws};
pub use steps::{
    MOST_MEMBERS, frame_run_laws, loop_laws, queue_laws, stamp_laws, step_laws, straddling_laws,
};
pub use strips::{strip_laws, turn_laws};
pub use tilings::{conformity_laws, leaf_laws, orientation_laws, sample_laws};
pub use vertices::vertex_laws;
