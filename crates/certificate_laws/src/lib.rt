//! Certificates, as laws: what makes one sound, what it proves, and that every best mesh has one.
//!
//! A law crate: definitions and lemmas, the types that statements name, and no code that runs. A certificate of a view
//! is a mesh and reasons, each of a triangle that every better mesh would have split; with so many of them a better
//! mesh would exceed the budget. A certificate of a fitted mesh replays its refinement: each reason is a leaf of what
//! the reasons before it make, with one grid point where the surface is too far from the leaf's plane.

#![tactic(auto)]

mod cert;
mod fit_certificates;
mod fit_reason;
mod kept;
mod kept_laws;
mod laws;
mod limits;
mod reason;

pub use cert::FitCert;
pub use fit_certificates::{fit_certificate_laws, limit_laws};
pub use fit_reason::{FitReject, FitVerdict, Target, Witness};
pub use kept::KeptCert;
pub use kept_laws::kept_certificate_laws;
pub use laws::{certificate_laws, cut_laws, reason_laws, verdict_laws};
pub use limits::MOST_REASONS;
pub use reason::{Kind, Reason, Reject, Verdict};
