//! The bytes of texts: digits and the numbers that they are, whitespace, samples of two bytes, and the fields of a
//! line.
//!
//! A law crate: definitions and lemmas, and no code that runs. The readers and writers of texts above it
//! speak of bytes in these words. What a header, a raster or a line is, is theirs to say.

#![tactic(auto)]

mod laws;

pub use laws::{digit_laws, field_laws, word_laws};
