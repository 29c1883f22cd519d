//! Why a header is refused.

/// Why the bytes begin no header that is accepted. Places are counted from 0 in bytes from the beginning.
#[derive(Clone, Copy, Debug, PartialEq, Eq)]
pub enum HeaderFault {
    /// The first two bytes are neither `P2` nor `P5`.
    BadMagic,
    /// The byte at this place, 2 or more, continues no header.
    BadHeader {
        /// The place of the byte.
        at: u64,
    },
    /// The header does not end within 65,536 bytes.
    HeaderTooLong,
    /// The greatest sample that the header allows is 0 or above 65535.
    BadMaxval,
    /// The width differs from the height.
    NotSquare,
    /// The side is none of 3, 5, 9, 17, 33, 65, 129, 257, 513, 1025 and 2049.
    BadSide,
}
