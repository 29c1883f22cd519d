//! The grid of heights, and the reader that makes one from the bytes of a PGM file.
//!
//! For every crate that shows terrain. The bytes come in pieces of any length; the reader answers
//! the grid of which they are a file text, or the first refusal, however they were cut.
//! It keeps no copy of the text: `HeaderReader` reads the header byte by byte, and `RasterReader` puts the samples
//! straight into the list of heights, for which room is taken once; raw ones go through the kernels of `roam_lanes`.

#![tactic(auto)]

mod accepted_header;
mod fault;
mod grid;
mod header_fault;
mod header_machine;
mod header_reader;
mod header_texts;
mod laws;
mod raster_bulk;
mod raster_fault;
mod raster_form;
mod raster_part;
mod raster_plain;
mod raster_raw;
mod raster_reader;
mod raster_texts;
mod reader;
mod stage;

pub use accepted_header::{GREATEST_MAXVAL, Header};
pub use fault::PgmFault;
pub use grid::{Grid, MOST_POINTS, MOST_SIDE, side_for};
pub use header_fault::HeaderFault;
pub use header_machine::HeaderValues;
pub use header_reader::{HeaderReader, LAST_PLACE, MOST_HEADER_BYTES};
pub use header_texts::{header_laws, header_limit_laws};
pub use laws::{grids_and_texts, limit_laws};
pub use raster_fault::RasterFault;
pub use raster_form::RasterForm;
pub use raster_plain::MOST_BYTES;
pub use raster_reader::{LAST_START, RasterReader};
pub use raster_texts::{raster_laws, raster_limit_laws};
pub use reader::PgmReader;
