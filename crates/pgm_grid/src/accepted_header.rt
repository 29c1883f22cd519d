//! The tests of a header's values.

ghost use Rattle.std.specs.Prelude.{◌≡◌};
ghost use Rattle.pgm_grid.specs.AcceptedHeader.{side_level, judged};

use crate::header_fault::HeaderFault;
use crate::header_machine::HeaderValues;
use mesh_defs::{GREATEST_FILE_LEVEL, GREATEST_HEIGHT};

/// The greatest maxval: a sample has at most two bytes.
pub const GREATEST_MAXVAL: u32 = GREATEST_HEIGHT;

/// A header that is accepted.
#[derive(Clone, Copy, Debug, PartialEq, Eq)]
pub struct Header {
    /// Whether the raster is plain, a text of decimals (`P2`); otherwise it is raw (`P5`).
    pub plain: bool,
    /// The number, from 1 to 11, for which width and height are 2^n + 1.
    pub n: u32,
    /// The greatest sample that may stand in the raster.
    pub maxval: u16,
}

/// The n of a side, if the side is accepted.
fn level_for(side: u32) -> Option<u32>
    ensures { result ≡ side_level side }
{
    match side {
        3 => Some(1),
        5 => Some(2),
        9 => Some(3),
        17 => Some(4),
        33 => Some(5),
        65 => Some(6),
        129 => Some(7),
        257 => Some(8),
        513 => Some(9),
        1025 => Some(10),
        2049 => Some(GREATEST_FILE_LEVEL),
        _ => None,
    }
}

/// The header of these values, or the first of the three refusals.
pub(crate) fn judge(values: HeaderValues) -> Result<Header, HeaderFault>
    ensures { result ≡ judged values }
{
    if values.maxval == 0 || values.maxval > GREATEST_MAXVAL {
        return Err(HeaderFault::BadMaxval);
    }
    if values.width != values.height {
        return Err(HeaderFault::NotSquare);
    }
    match level_for(values.width) {
        None => Err(HeaderFault::BadSide),
        Some(n) => Ok(Header {
            plain: values.plain,
            n,
            maxval: values.maxval as u16,
        }),
    }
}
