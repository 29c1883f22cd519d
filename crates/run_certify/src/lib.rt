//! The commands `certify check`, `certify make-fit` and `certify check-fit`: whether a certificate is sound, and a mesh
//! the one that it is of; and a certificate of a fitted mesh is made.
//!
//! For the run of `roam`. A grid, a certificate and a mesh are read from an `Outside`, in this order, and the first
//! test that fails ends the check with its line. `make-fit` reads a grid, and writes the certificate to the report.

#![tactic(auto)]

mod checking;
mod fit_checking;
mod fit_judging;
mod fit_making;
mod fit_target;
mod fit_verdict_report;
mod kept_checking;
mod kept_making;
mod mesh_file;
mod points;
mod verdict_report;

pub use checking::run_check;
pub use fit_checking::run_fit_check;
pub use fit_making::run_fit_make;
pub use kept_checking::run_kept_check;
pub use kept_making::run_kept_make;
