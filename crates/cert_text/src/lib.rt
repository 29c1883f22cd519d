//! Certificates as text: what one is, readers line after line, and writers.
//!
//! A certificate of optimality is a camera, the triangles of a mesh and reasons; `certificate_laws` says what a sound
//! one proves. Its text has a line for each of them: `camera X Y Z`, then `leaf A` for each triangle in order, then
//! `want A`, `parent A` or `mate A` for each reason.
//!
//! That of a fitted mesh (`certificate_laws`) has a line `tolerance D`, then a line `off A X Y` for each reason that
//! makes the mesh, the line `mesh`, and then `off A X Y` for each reason behind it. One of a mesh that keeps points has
//! a line `need X Y` for each point that it needs before all that.
//!
//! What a writer writes is read back. Whether a certificate is sound is not looked at here.

#![tactic(auto)]

mod cert;
mod cert_line;
mod cert_reader;
mod cert_writing;
mod fault;
mod fit_line;
mod fit_reader;
mod fit_writing;
mod kept_reader;
mod laws;
mod limits;
mod need;
mod page;
mod reading;

pub use cert::Cert;
pub use cert_reader::CertReader;
pub use cert_writing::write_cert;
pub use certificate_laws::{FitCert, KeptCert, Kind, Reason, Witness};
pub use fault::CertFault;
pub use fit_reader::FitCertReader;
pub use fit_writing::{write_fit_cert, write_kept_cert};
pub use kept_reader::KeptCertReader;
pub use laws::{fit_text_laws, kept_text_laws, limit_laws, text_laws};
pub use limits::{MOST_LEAVES, MOST_REASONS};
