//! The files that a command line names, and the lines of the report that tell of no frame.
//!
//! For the crates that carry a command out. An `Outside` is what a run calls: a shelf, a sink of meshes and a report
//! (`Lent`). Grids, certificates and points are read from it, in pieces, to their end or their first refusal; a mesh
//! with its line is written to it, and so is a text that ends a run. The whole command `info` is here. What reads the
//! lines of a certificate of one kind is a trait (`LineReader`), and so is what makes a frame (`FrameMaker`): who makes
//! one is not known here.

#![tactic(auto)]

mod cert_file;
mod end;
mod grid_file;
mod info;
mod limits;
mod line_reader;
mod line_stage;
mod maker;
mod outside;
mod points_file;
mod report;
mod show;
mod text;

pub use cert_file::{CertStop, read_cert, read_lines};
pub use end::end_with_text;
pub use grid_file::{GridStop, PIECE, grid_or_end, read_grid};
pub use info::run_info;
pub use limits::limit_laws;
pub use line_reader::LineReader;
pub use maker::FrameMaker;
pub use outside::{Lent, Outside};
pub use points_file::{PointStop, read_points};
pub use report::{grid_report, line_report, push_placed};
pub use show::show_mesh;
pub use text::{TEXT_ROOM, Text};
