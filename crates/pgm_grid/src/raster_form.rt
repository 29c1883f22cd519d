//! The forms of a raster.

/// How samples are written.
///
/// Source: Netpbm manual, "pgm".
#[derive(Clone, Copy, Debug, PartialEq, Eq)]
pub enum RasterForm {
    /// Raw, one byte a sample: the form of a raw file whose maxval is below 256.
    Bytes,
    /// Raw, two bytes a sample, the most significant first: the form of the other raw files.
    Words,
    /// Plain: each sample is 1 to 9 digits, and whitespace stands between each two.
    Plain,
}
