//! Samples of raw rasters, many at a time.

ghost use Rattle.std.specs.Prelude.{◌≡◌, ◌+◌, ◌*◌, ◌/◌, ◌≤◌, length, vec_len, OnOk, IfErr};
ghost use Rattle.std.specs.Vec.{vec_capacity};
ghost use Rattle.text_laws.specs.Words.{words_of};
ghost use Rattle.pgm_grid.specs.RasterProgress.{RasterAnswer, after, samples_then};

use crate::raster_fault::RasterFault;
use crate::raster_part::Limits;
use roam_lanes::{be16, first_above};

/// The samples of a chunk: few enough for the nearest memory, enough for the lanes.
const CHUNK: usize = 1024;

/// Adds samples, unless one is above the greatest that is allowed.
fn push_samples(heights: &mut Vec<u16>, limits: Limits, samples: &[u16]) -> Result<(), RasterFault>
    requires room { vec_len heights.old + length samples.now ≤ vec_capacity heights.old }
    ensures ok { OnOk result ((rest : RasterAnswer) →
        after heights.old.items (samples_then limits (length heights.old.items) samples.now rest)
        ≡ after heights.new.items rest) }
    ensures count { OnOk result (vec_len heights.new ≡ vec_len heights.old + length samples.now) }
    ensures err { IfErr result (λ fault. (rest : RasterAnswer) →
        after heights.old.items (samples_then limits (length heights.old.items) samples.now rest)
        ≡ Err fault) }
    ensures capacity { vec_capacity heights.old ≤ vec_capacity heights.new }
{
    match first_above(samples, limits.maxval) {
        None => {
            heights.extend_from_slice(samples).unwrap();
            Ok(())
        }
        Some(i) => Err(RasterFault::AboveMaxval {
            index: (heights.len() + i) as u64,
        }),
    }
}

/// Adds the samples of pairs of bytes, the most significant first.
pub(crate) fn push_words(
    heights: &mut Vec<u16>,
    limits: Limits,
    pairs: &[u8],
) -> Result<(), RasterFault>
    requires pairs { length pairs.now ≡ 2 * (length pairs.now / 2) }
    requires room { vec_len heights.old + length pairs.now / 2 ≤ vec_capacity heights.old }
    ensures ok { OnOk result ((rest : RasterAnswer) →
        after heights.old.items (samples_then limits (length heights.old.items) (words_of pairs.now) rest)
        ≡ after heights.new.items rest) }
    ensures count { OnOk result (vec_len heights.new ≡ vec_len heights.old + length pairs.now / 2) }
    ensures err { IfErr result (λ fault. (rest : RasterAnswer) →
        after heights.old.items (samples_then limits (length heights.old.items) (words_of pairs.now) rest)
        ≡ Err fault) }
    ensures capacity { vec_capacity heights.old ≤ vec_capacity heights.new }
{
    let mut chunk = [0; CHUNK];
    let mut left = pairs;
    while !left.is_empty() {
        let (front, back) = left.split_at(left.len().min(2 * CHUNK));
        let samples = &mut chunk[..front.len() / 2];
        be16(front, samples);
        push_samples(heights, limits, samples)?;
        left = back;
    }
    Ok(())
}

/// Adds samples of one byte.
pub(crate) fn push_bytes(
    heights: &mut Vec<u16>,
    limits: Limits,
    bytes: &[u8],
) -> Result<(), RasterFault>
    requires room { vec_len heights.old + length bytes.now ≤ vec_capacity heights.old }
    ensures ok { OnOk result ((rest : RasterAnswer) →
        after heights.old.items (samples_then limits (length heights.old.items) bytes.now rest)
        ≡ after heights.new.items rest) }
    ensures count { OnOk result (vec_len heights.new ≡ vec_len heights.old + length bytes.now) }
    ensures err { IfErr result (λ fault. (rest : RasterAnswer) →
        after heights.old.items (samples_then limits (length heights.old.items) bytes.now rest)
        ≡ Err fault) }
    ensures capacity { vec_capacity heights.old ≤ vec_capacity heights.new }
{
    let mut chunk = [0; CHUNK];
    let mut left = bytes;
    while !left.is_empty() {
        let (front, back) = left.split_at(left.len().min(CHUNK));
        let samples = &mut chunk[..front.len()];
        widen(front, samples);
        push_samples(heights, limits, samples)?;
        left = back;
    }
    Ok(())
}

/// Writes each byte as a sample.
fn widen(bytes: &[u8], out: &mut [u16])
    requires one_each { length bytes.now ≡ length out.old }
    ensures { out.new ≡ bytes.now }
{
    for i in 0..out.len() {
        out[i] = u16::from(bytes[i]);
    }
}
