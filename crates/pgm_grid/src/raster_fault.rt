//! Why the bytes of a raster are refused.

/// Why bytes are no raster of the samples that are wanted.
#[derive(Clone, Copy, Debug, PartialEq, Eq)]
pub enum RasterFault {
    /// The byte at this place continues no sample of a plain raster.
    BadSample {
        /// The place of the byte, counted from 0 in bytes from the file's beginning.
        at: u64,
    },
    /// This sample is above the greatest that the header allows.
    AboveMaxval {
        /// The index of the sample, counted from 0 in file order.
        index: u64,
    },
    /// A byte stands behind the last sample.
    Trailing {
        /// The place of the byte, counted from 0 in bytes from the file's beginning.
        at: u64,
    },
    /// The file ends before its last sample does.
    Truncated,
    /// The byte at place 268,435,456: no file has more bytes.
    TooLong,
}
