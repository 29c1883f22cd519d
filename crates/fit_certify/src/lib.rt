//! Certificates of fitted meshes over a grid: a checker whose verdict is exact, and a maker of sound ones.
//!
//! The checker replays the reasons by one flag a triangle: each is a leaf, with one point where the surface is off its
//! plane, and is split with what that forces. It looks over the mesh once for its error. The maker splits what is off,
//! in any order, and marks what it need not measure again. Where a mesh keeps points, the triangles whose centres they
//! are come first. What a sound certificate proves stands below, in `certificate_laws`.

#![tactic(auto)]

mod force;
mod keeping;
mod kept_verdict;
mod known;
mod making;
mod mesh;
mod points;
mod replay;
mod room;
mod settle;
mod verdict;

pub use certificate_laws::{
    FitCert, FitReject, FitVerdict, KeptCert, MOST_REASONS, Target, Witness,
};
pub use keeping::{make_kept, mesh_of_kept};
pub use kept_verdict::check_kept;
pub use making::make;
pub use mesh::mesh_of;
pub use verdict::check;
