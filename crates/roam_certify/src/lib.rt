//! Certificates of optimality over a grid: a checker that is exact, and a maker whose certificates are sound.
//!
//! A certificate is a camera, a mesh and reasons. The checker looks whether the mesh is conforming by one flag an
//! address, and at each reason by those before it; a maker is given an optimal mesh, or makes the greedy one, and lists
//! reasons by a queue. What a sound certificate proves stands below, in `certificate_laws`; whether a file is the text
//! of its mesh says `compare` of `mesh_compare`, which is handed on.

#![tactic(auto)]

mod cert;
mod checking;
mod conforming;
mod making;
mod verdict;

pub use cert::{certify_mesh, make_cert};
pub use cert_text::{Cert, CertFault, CertReader, write_cert};
pub use certificate_laws::{Kind, Reason, Reject, Verdict};
pub use mesh_compare::{CompareFault, compare};
pub use verdict::check;
