//! Further bytes of a plain raster.

ghost use Rattle.std.specs.Prelude.{◌≡◌, ◌+◌, ◌^◌, ◌<◌, ◌≤◌, ◌++◌, ◌∷◌, ℕ, List, length, drop, vec_len, OnOk, IfOk};
ghost use Rattle.std.specs.Prelude.{IfErr};
ghost use Rattle.std.specs.Vec.{vec_capacity};
ghost use Rattle.text_laws.specs.Blanks.{is_white};
ghost use Rattle.pgm_grid.specs.RasterProgress.{RasterAnswer, after, reads, plain_from, ended_then, no_digits};
ghost use Rattle.pgm_grid.specs.RasterStage.{HasSampleRoom, IsPart, IsDigits};
ghost use Rattle.pgm_grid.specs.declared.raster_part.Part.TheVariants as part;
ghost use Rattle.pgm_grid.specs.declared.raster_plain.TheConstants.{MOST_BYTES};

use crate::raster_fault::RasterFault;
use crate::raster_part::{Digits, Limits};

/// The most digits of a sample: each such number fits 32 bits.
const LONGEST: u32 = 9;

/// The most bytes of a file, 2^28: a limit of this project's own, since whitespace may go on without end.
pub const MOST_BYTES: u64 = 268_435_456;

impl Digits {
    /// No digit.
    pub(crate) const NONE: Digits = Digits { count: 0, value: 0 };
}

/// Whether the byte is a blank, a TAB, a CR or an LF.
#[inline(always)]
fn is_whitespace(byte: u8) -> bool
    ensures { result ≡ is_white byte }
{
    byte == b' ' || byte == b'\t' || byte == b'\r' || byte == b'\n'
}

/// Ends the digits so far, if there are any: they are a sample.
#[inline(always)]
pub(crate) fn end_digits(
    heights: &mut Vec<u16>,
    limits: Limits,
    digits: Digits,
) -> Result<(), RasterFault>
    requires room { HasSampleRoom limits heights.old }
    requires part { IsPart limits (vec_len heights.old) (part.Plain digits) }
    ensures ok { OnOk result ((rest : ℕ → RasterAnswer) →
        after heights.old.items (ended_then limits (length heights.old.items) digits rest)
        ≡ after heights.new.items (rest (length heights.new.items))) }
    ensures err { IfErr result (λ fault. (rest : ℕ → RasterAnswer) →
        after heights.old.items (ended_then limits (length heights.old.items) digits rest) ≡ Err fault) }
    ensures valid { OnOk result (HasSampleRoom limits heights.new) }
{
    if digits.count == 0 {
        return Ok(());
    }
    if digits.value > u32::from(limits.maxval) {
        return Err(RasterFault::AboveMaxval {
            index: heights.len() as u64,
        });
    }
    heights.push(digits.value as u16).unwrap();
    Ok(())
}

/// Takes a byte, and answers the digits of the sample that is not ended.
#[inline(always)]
fn plain_step(
    heights: &mut Vec<u16>,
    limits: Limits,
    at: u64,
    digits: Digits,
    byte: u8,
) -> Result<Digits, RasterFault>
    requires room { HasSampleRoom limits heights.old }
    requires part { IsPart limits (vec_len heights.old) (part.Plain digits) }
    requires place { at < MOST_BYTES }
    ensures ok { IfOk result (λ next. (more : List ℕ) →
        reads limits heights.old.items (part.Plain digits) at (byte ∷ more)
        ≡ reads limits heights.new.items (part.Plain next) (at + 1) more) }
    ensures err { IfErr result (λ fault. (more : List ℕ) →
        reads limits heights.old.items (part.Plain digits) at (byte ∷ more) ≡ Err fault) }
    ensures valid { OnOk result (HasSampleRoom limits heights.new) }
    ensures part { IfOk result (λ next. IsPart limits (vec_len heights.new) (part.Plain next)) }
{
    let wanted = heights.len() < limits.count;
    if byte.is_ascii_digit() && wanted && digits.count < LONGEST {
        return Ok(Digits {
            count: digits.count + 1,
            value: 10 * digits.value + u32::from(byte - b'0'),
        });
    }
    if is_whitespace(byte) {
        end_digits(heights, limits, digits)?;
        return Ok(Digits::NONE);
    }
    if wanted {
        return Err(RasterFault::BadSample { at });
    }
    Err(RasterFault::Trailing { at })
}

/// Takes the digits before which nothing else stands, as many as a sample may still have, and answers all its digits
/// and how many bytes were taken.
#[inline(always)]
fn digits_after(digits: Digits, piece: &[u8]) -> (Digits, usize)
    requires short { digits.count ≤ 9 }
    requires small { digits.value < 10 ^ digits.count }
    ensures told { (l : Limits) (index at : ℕ) (more : List ℕ) → index < l.count → at + length piece.now ≤ MOST_BYTES →
        plain_from l index digits at (piece.now ++ more)
        ≡ plain_from l index result.0 (at + result.1) (drop result.1 piece.now ++ more) }
    ensures within { result.1 ≤ length piece.now }
    ensures short { result.0.count ≤ 9 }
    ensures small { result.0.value < 10 ^ result.0.count }
{
    let mut digits = digits;
    for i in 0..piece.len() {
        if piece[i].is_ascii_digit() && digits.count < LONGEST {
            digits = Digits {
                count: digits.count + 1,
                value: 10 * digits.value + u32::from(piece[i] - b'0'),
            };
        } else {
            return (digits, i);
        }
    }
    (digits, piece.len())
}

/// Takes the digits of a sample that is still wanted, and answers all its digits and how many bytes were taken: none
/// where no sample is wanted.
#[inline(always)]
fn wanted_digits(
    heights: &Vec<u16>,
    limits: Limits,
    digits: Digits,
    piece: &[u8],
) -> (Digits, usize)
    requires part { IsPart limits (vec_len heights.now) (part.Plain digits) }
    ensures told { (at : ℕ) (more : List ℕ) → at + length piece.now ≤ MOST_BYTES →
        reads limits heights.now.items (part.Plain digits) at (piece.now ++ more)
        ≡ reads limits heights.now.items (part.Plain result.0) (at + result.1) (drop result.1 piece.now ++ more) }
    ensures within { result.1 ≤ length piece.now }
    ensures part { IsPart limits (vec_len heights.now) (part.Plain result.0) }
{
    if heights.len() < limits.count {
        digits_after(digits, piece)
    } else {
        (digits, 0)
    }
}

/// Takes bytes, and answers the digits of the sample that is not ended.
pub(crate) fn plain_after(
    heights: &mut Vec<u16>,
    limits: Limits,
    at: u64,
    digits: Digits,
    piece: &[u8],
) -> Result<Digits, RasterFault>
    requires room { HasSampleRoom limits heights.old }
    requires part { IsPart limits (vec_len heights.old) (part.Plain digits) }
    requires place { at + length piece.now ≤ MOST_BYTES }
    ensures ok { IfOk result (λ next. (more : List ℕ) →
        reads limits heights.old.items (part.Plain digits) at (piece.now ++ more)
        ≡ reads limits heights.new.items (part.Plain next) (at + length piece.now) more) }
    ensures err { IfErr result (λ fault. (more : List ℕ) →
        reads limits heights.old.items (part.Plain digits) at (piece.now ++ more) ≡ Err fault) }
    ensures valid { OnOk result (HasSampleRoom limits heights.new) }
    ensures part { IfOk result (λ next. IsPart limits (vec_len heights.new) (part.Plain next)) }
{
    let mut digits = digits;
    let mut i = 0;
    while i < piece.len() {
        let (more, taken) = wanted_digits(heights, limits, digits, &piece[i..]);
        i += taken;
        digits = more;
        if i < piece.len() {
            digits = plain_step(heights, limits, at + i as u64, digits, piece[i])?;
            i += 1;
        }
    }
    Ok(digits)
}

/// Takes bytes, none behind the most that a file has, and answers the digits of the sample that is not
/// ended.
pub(crate) fn plain_within(
    heights: &mut Vec<u16>,
    limits: Limits,
    at: u64,
    digits: Digits,
    piece: &[u8],
) -> Result<Digits, RasterFault>
    requires room { HasSampleRoom limits heights.old }
    requires part { IsPart limits (vec_len heights.old) (part.Plain digits) }
    requires place { at ≤ MOST_BYTES }
    ensures ok { IfOk result (λ next. (more : List ℕ) →
        reads limits heights.old.items (part.Plain digits) at (piece.now ++ more)
        ≡ reads limits heights.new.items (part.Plain next) (at + length piece.now) more) }
    ensures err { IfErr result (λ fault. (more : List ℕ) →
        reads limits heights.old.items (part.Plain digits) at (piece.now ++ more) ≡ Err fault) }
    ensures valid { OnOk result (HasSampleRoom limits heights.new) }
    ensures part { IfOk result (λ next. IsPart limits (vec_len heights.new) (part.Plain next)) }
    ensures place { OnOk result (at + length piece.now ≤ MOST_BYTES) }
{
    let left = (MOST_BYTES - at) as usize;
    if piece.len() <= left {
        return plain_after(heights, limits, at, digits, piece);
    }
    plain_after(heights, limits, at, digits, &piece[..left])?;
    Err(RasterFault::TooLong)
}
