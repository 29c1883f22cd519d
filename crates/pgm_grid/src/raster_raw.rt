//! Further bytes of a raw raster.

ghost use Rattle.std.specs.Prelude.{◌≡◌, ◌+◌, ◌^◌, ◌<◌, ◌≤◌, ◌++◌, ℕ, List, None, length, vec_len, OnOk, IfOk, IfErr};
ghost use Rattle.std.specs.Vec.{vec_capacity};
ghost use Rattle.pgm_grid.specs.RasterProgress.{reads};
ghost use Rattle.pgm_grid.specs.RasterStage.{HasSampleRoom, IsPart, IsRasterPlace};
ghost use Rattle.pgm_grid.specs.declared.raster_part.Part.TheVariants as part;

use crate::raster_bulk::{push_bytes, push_words};
use crate::raster_fault::RasterFault;
use crate::raster_part::Limits;

/// Takes bytes that are a sample each.
pub(crate) fn bytes_after(
    heights: &mut Vec<u16>,
    limits: Limits,
    at: u64,
    piece: &[u8],
) -> Result<(), RasterFault>
    requires room { HasSampleRoom limits heights.old }
    requires place { IsRasterPlace limits (vec_len heights.old) part.Bytes at }
    ensures ok { OnOk result ((more : List ℕ) →
        reads limits heights.old.items part.Bytes at (piece.now ++ more)
        ≡ reads limits heights.new.items part.Bytes (at + length piece.now) more) }
    ensures err { IfErr result (λ fault. (more : List ℕ) →
        reads limits heights.old.items part.Bytes at (piece.now ++ more) ≡ Err fault) }
    ensures valid { OnOk result (HasSampleRoom limits heights.new) }
    ensures place { OnOk result (IsRasterPlace limits (vec_len heights.new) part.Bytes (at + length piece.now)) }
{
    let wanted = limits.count - heights.len();
    let (front, back) = piece.split_at(piece.len().min(wanted));
    push_bytes(heights, limits, front)?;
    if back.is_empty() {
        return Ok(());
    }
    Err(RasterFault::Trailing {
        at: at + front.len() as u64,
    })
}

/// Takes bytes, two of which are a sample, behind a whole sample, and answers the first byte of the
/// sample that is not whole.
pub(crate) fn words_after(
    heights: &mut Vec<u16>,
    limits: Limits,
    at: u64,
    piece: &[u8],
) -> Result<Option<u8>, RasterFault>
    requires room { HasSampleRoom limits heights.old }
    requires place { IsRasterPlace limits (vec_len heights.old) (part.Words None) at }
    ensures ok { IfOk result (λ high. (more : List ℕ) →
        reads limits heights.old.items (part.Words None) at (piece.now ++ more)
        ≡ reads limits heights.new.items (part.Words high) (at + length piece.now) more) }
    ensures err { IfErr result (λ fault. (more : List ℕ) →
        reads limits heights.old.items (part.Words None) at (piece.now ++ more) ≡ Err fault) }
    ensures valid { OnOk result (HasSampleRoom limits heights.new) }
    ensures part { IfOk result (λ high. IsPart limits (vec_len heights.new) (part.Words high)) }
    ensures place { IfOk result
        (λ high. IsRasterPlace limits (vec_len heights.new) (part.Words high) (at + length piece.now)) }
{
    let wanted = limits.count - heights.len();
    let pairs = wanted.min(piece.len() / 2);
    let (front, back) = piece.split_at(2 * pairs);
    push_words(heights, limits, front)?;
    if back.is_empty() {
        return Ok(None);
    }
    if pairs < wanted {
        return Ok(Some(back[0]));
    }
    Err(RasterFault::Trailing {
        at: at + front.len() as u64,
    })
}

/// Takes bytes, two of which are a sample, behind the first byte of a sample.
pub(crate) fn words_after_half(
    heights: &mut Vec<u16>,
    limits: Limits,
    at: u64,
    high: u8,
    piece: &[u8],
) -> Result<Option<u8>, RasterFault>
    requires room { HasSampleRoom limits heights.old }
    requires wanted { vec_len heights.old < limits.count }
    requires place { IsRasterPlace limits (vec_len heights.old) (part.Words (Some high)) at }
    ensures ok { IfOk result (λ half. (more : List ℕ) →
        reads limits heights.old.items (part.Words (Some high)) at (piece.now ++ more)
        ≡ reads limits heights.new.items (part.Words half) (at + length piece.now) more) }
    ensures err { IfErr result (λ fault. (more : List ℕ) →
        reads limits heights.old.items (part.Words (Some high)) at (piece.now ++ more) ≡ Err fault) }
    ensures valid { OnOk result (HasSampleRoom limits heights.new) }
    ensures part { IfOk result (λ half. IsPart limits (vec_len heights.new) (part.Words half)) }
    ensures place { IfOk result
        (λ half. IsRasterPlace limits (vec_len heights.new) (part.Words half) (at + length piece.now)) }
{
    let [low, rest @ ..] = piece else {
        return Ok(Some(high));
    };
    push_words(heights, limits, &[high, *low])?;
    words_after(heights, limits, at + 1, rest)
}
