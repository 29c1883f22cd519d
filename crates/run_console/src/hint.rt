//! What was seen of a refused grid, and what is accepted.

use crate::head::{HeadNumbers, read_head};
use crate::kinds::kind_of;
use std::fmt;

/// A hint at what is wrong with a refused grid. Its text says what was seen and what is accepted, in
/// one line.
///
/// It is drawn from the report's line and from the first bytes of the file, so it is no promise.
#[derive(Clone, Copy)]
pub struct GridHint<'a> {
    refusal: Refusal,
    head: &'a [u8],
    size: u64,
}

/// Why a grid is refused, as far as a hint is given.
#[derive(Clone, Copy)]
enum Refusal {
    Magic,
    Header,
    Maxval,
    Square,
    Side,
    Above,
    Sample,
    Truncated,
    Trailing,
}

/// The hint for a refusal, by the line of the report, the first bytes of the grid's file and how many
/// bytes of it were read; None of a line for which there is none.
pub fn grid_hint<'a>(line: &[u8], head: &'a [u8], size: u64) -> Option<GridHint<'a>> {
    let refusal = refusal_in(line.strip_prefix(b"grid refused: ")?)?;
    Some(GridHint {
        refusal,
        head,
        size,
    })
}

/// The refusal that a text names.
fn refusal_in(text: &[u8]) -> Option<Refusal> {
    if text.starts_with(b"bad magic") {
        Some(Refusal::Magic)
    } else if text.starts_with(b"bad header") {
        Some(Refusal::Header)
    } else if text.starts_with(b"bad maxval") {
        Some(Refusal::Maxval)
    } else if text.starts_with(b"not square") {
        Some(Refusal::Square)
    } else if text.starts_with(b"bad side") {
        Some(Refusal::Side)
    } else if text.starts_with(b"above maxval") {
        Some(Refusal::Above)
    } else if text.starts_with(b"bad sample") {
        Some(Refusal::Sample)
    } else if text.starts_with(b"truncated") {
        Some(Refusal::Truncated)
    } else if text.starts_with(b"trailing byte") {
        Some(Refusal::Trailing)
    } else {
        None
    }
}

impl<'a> fmt::Display for GridHint<'a> {
    fn fmt<W: fmt::Write>(&self, f: &mut fmt::Formatter<W>) -> fmt::Result {
        let seen = read_head(self.head);
        match self.refusal {
            Refusal::Magic => write_magic(f, self.head),
            Refusal::Header => f.write_str(
                "a header is P5 or P2, width, height and maxval, with whitespace behind each of them",
            ),
            Refusal::Maxval => {
                write!(
                    f,
                    "the maxval is {}; 1 to 65535 is accepted",
                    Seen(seen.numbers[2])
                )
            }
            Refusal::Square => write!(
                f,
                "the grid is {} by {}; width and height have to be equal",
                Seen(seen.numbers[0]),
                Seen(seen.numbers[1])
            ),
            Refusal::Side => write_side(f, seen.numbers[0]),
            Refusal::Above => write_above(f, seen.numbers[2]),
            Refusal::Sample => f.write_str(
                "behind a header of P2 stand decimal samples with whitespace between them, and no comments; raw ones want P5",
            ),
            Refusal::Truncated => write_short(f, &seen, self.size),
            Refusal::Trailing => write_long(f, &seen),
        }
    }
}

/// A number that was seen, or that none was.
#[derive(Clone, Copy)]
struct Seen(Option<u32>);

impl fmt::Display for Seen {
    fn fmt<W: fmt::Write>(&self, f: &mut fmt::Formatter<W>) -> fmt::Result {
        match self.0 {
            Some(number) => write!(f, "{number}"),
            None => f.write_str("not in the first 512 bytes"),
        }
    }
}

/// Writes what a file looks like that is no PGM file.
fn write_magic<W: fmt::Write>(f: &mut fmt::Formatter<W>, head: &[u8]) -> fmt::Result {
    match kind_of(head) {
        Some(name) => write!(f, "the file looks like {name}; ")?,
        None => f.write_str("the file is no PGM file; ")?,
    }
    f.write_str("a grid begins with P5 or P2")
}

/// Writes which sides are accepted, and which of them are nearest.
fn write_side<W: fmt::Write>(f: &mut fmt::Formatter<W>, side: Option<u32>) -> fmt::Result {
    let Some(side) = side else {
        return f.write_str("the side has to be 2^n + 1, from 3 to 2049");
    };
    write!(
        f,
        "the side is {side}; 3, 5, 9, 17, 33, 65, 129, 257, 513, 1025 and 2049 are accepted, "
    )?;
    match (side_below(side), side_above(side)) {
        (Some(below), Some(above)) => write!(f, "of which {below} and {above} are nearest"),
        (Some(side), None) | (None, Some(side)) => write!(f, "of which {side} is nearest"),
        (None, None) => Ok(()),
    }
}

/// The accepted sides.
const SIDES: [u32; 11] = [3, 5, 9, 17, 33, 65, 129, 257, 513, 1025, 2049];

/// The greatest accepted side below this one.
fn side_below(side: u32) -> Option<u32> {
    let mut nearest = None;
    for accepted in &SIDES {
        if *accepted < side {
            nearest = Some(*accepted);
        }
    }
    nearest
}

/// The least accepted side above this one.
fn side_above(side: u32) -> Option<u32> {
    for accepted in &SIDES {
        if side < *accepted {
            return Some(*accepted);
        }
    }
    None
}

/// Writes why a sample may be above the maxval.
fn write_above<W: fmt::Write>(f: &mut fmt::Formatter<W>, maxval: Option<u32>) -> fmt::Result {
    write!(f, "the maxval is {}", Seen(maxval))?;
    match maxval {
        Some(maxval) if maxval > 255 => f.write_str(
            "; of a sample's two bytes the most significant comes first, and these may stand the other way round",
        ),
        _ => Ok(()),
    }
}

/// Writes how many bytes a file has, and how many it should have.
fn write_short<W: fmt::Write>(
    f: &mut fmt::Formatter<W>,
    seen: &HeadNumbers,
    size: u64,
) -> fmt::Result {
    if size == 0 {
        return f.write_str("the file is empty");
    }
    match wanted_size(seen) {
        Some(wanted) => write!(
            f,
            "the file has {size} bytes, and its header asks for {wanted}"
        ),
        None => write!(
            f,
            "the file has {size} bytes, and ends before its header or its samples do"
        ),
    }
}

/// Writes where the samples of a file end that goes on.
fn write_long<W: fmt::Write>(f: &mut fmt::Formatter<W>, seen: &HeadNumbers) -> fmt::Result {
    match wanted_size(seen) {
        Some(wanted) => write!(
            f,
            "the header asks for {wanted} bytes, and the file goes on"
        )?,
        None => f.write_str("the file goes on behind its last sample")?,
    }
    match seen.numbers[2] {
        Some(maxval) if maxval <= 255 => {
            f.write_str("; with a maxval of at most 255 a raw sample is one byte")
        }
        _ => Ok(()),
    }
}

/// How many bytes a raw file with this header has.
fn wanted_size(seen: &HeadNumbers) -> Option<u64> {
    let side = u64::from(seen.numbers[0]?);
    let maxval = seen.numbers[2]?;
    let width = if maxval > 255 { 2 } else { 1 };
    let end = seen.end?;
    if seen.plain || side > 2049 || end > 65_536 {
        return None;
    }
    Some(end.saturating_add(side.saturating_mul(side).saturating_mul(width)))
}
