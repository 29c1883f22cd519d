//! Why bytes are refused.

ghost use Rattle.std.specs.Prelude.{◌≡◌};
ghost use Rattle.pgm_grid.specs.FaultNumber.{grid_fault_number};

use thiserror::Error;

/// Why the bytes of a file are no grid. Places are counted from 0 in bytes from the file's beginning.
#[derive(Clone, Copy, Debug, PartialEq, Eq, Error)]
pub enum PgmFault {
    /// The first byte is no `P`, or the second is neither `5` nor `2`.
    #[error("bad magic")]
    BadMagic,
    /// The byte at this place, 2 or more, continues no header.
    #[error("bad header at {at}")]
    BadHeader {
        /// The place of the byte.
        at: u64,
    },
    /// 65,536 bytes are a part of a header that they do not end.
    #[error("header too long")]
    HeaderTooLong,
    /// The maxval, which is the greatest sample that the header allows, is 0 or above 65535.
    #[error("bad maxval")]
    BadMaxval,
    /// The width differs from the height.
    #[error("not square")]
    NotSquare,
    /// The side is none of 3, 5, 9, 17, 33, 65, 129, 257, 513, 1025 and 2049.
    #[error("bad side")]
    BadSide,
    /// The file ends before its header or its samples do.
    #[error("truncated")]
    Truncated,
    /// The byte at this place continues no sample of a plain raster.
    #[error("bad sample at {at}")]
    BadSample {
        /// The place of the byte.
        at: u64,
    },
    /// The sample of this index, counted from 0 in file order, is above the maxval.
    #[error("above maxval at sample {index}")]
    AboveMaxval {
        /// The index of the sample.
        index: u64,
    },
    /// The byte at this place is the first that may not stand after the last sample. After the last sample of a
    /// plain raster whitespace may stand.
    #[error("trailing byte at {at}")]
    Trailing {
        /// The place of the byte.
        at: u64,
    },
    /// There is no room for the heights.
    #[error("out of memory")]
    NoMemory,
    /// The file has more than 268,435,456 bytes. Only plain files come to it: raw ones are refused before.
    #[error("file too long")]
    TooLong,
}

impl PgmFault {
    /// The number of this kind of refusal, from 1 to 12.
    pub fn number(self) -> u8
        ensures { result ≡ grid_fault_number self }
    {
        match self {
            PgmFault::BadMagic => 1,
            PgmFault::BadHeader { .. } => 2,
            PgmFault::HeaderTooLong => 3,
            PgmFault::BadMaxval => 4,
            PgmFault::NotSquare => 5,
            PgmFault::BadSide => 6,
            PgmFault::Truncated => 7,
            PgmFault::BadSample { .. } => 8,
            PgmFault::AboveMaxval { .. } => 9,
            PgmFault::Trailing { .. } => 10,
            PgmFault::NoMemory => 11,
            PgmFault::TooLong => 12,
        }
    }
}
