//! Cases on the reading of grids: whole files of side 2049 from memory, and the kernels under them.

ghost use Rattle.std.specs.Prelude.{◌≤◌, ◌^◌};

use pgm_grid::PgmReader;
use roam_lanes::{be16, be16_plain, first_above, first_above_plain, range, range_plain};
use std::alloc::Global;

/// The samples of a grid of side 2049.
const SAMPLES: u32 = 2049 * 2049;

/// How often a file is read, or a kernel is called.
const CALLS: u32 = 20;

/// The bytes of a raw file of side 2049 with two bytes a sample, where there is memory. Its heights are the
/// numbers of a linear congruential generator.
pub fn raw_text(alloc: Global) -> Option<Vec<u8>> {
    let mut text = Vec::with_capacity(alloc, 2 * SAMPLES as usize + 32).ok()?;
    text.extend_from_slice(b"P5\n2049 2049\n65535\n").ok()?;
    let mut number = 1u32;
    for _ in 0..SAMPLES {
        text.push((number >> 24) as u8).ok()?;
        text.push((number >> 16 & 255) as u8).ok()?;
        number = number.wrapping_mul(1664525).wrapping_add(1013904223);
    }
    Some(text)
}

/// The same heights as a plain file: five digits and a blank for each.
pub fn plain_text(alloc: Global) -> Option<Vec<u8>> {
    let mut text = Vec::with_capacity(alloc, 6 * SAMPLES as usize + 32).ok()?;
    text.extend_from_slice(b"P2\n2049 2049\n65535\n").ok()?;
    let mut number = 1u32;
    for _ in 0..SAMPLES {
        let height = number >> 16;
        for unit in [10000, 1000, 100, 10, 1] {
            text.push(b'0' + (height / unit % 10) as u8).ok()?;
        }
        text.push(b' ').ok()?;
        number = number.wrapping_mul(1664525).wrapping_add(1013904223);
    }
    Some(text)
}

/// Makes a text alone, and counts no call and its bytes.
pub fn text_alone(text: Option<Vec<u8>>) -> (u32, u32) {
    match text {
        Some(text) => (0, text.len().min(1 << 30) as u32),
        None => (0, 0),
    }
}

/// Reads a file from memory again and again, and counts the readings and the grids that came of them.
pub fn readings(alloc: Global, text: Option<Vec<u8>>) -> (u32, u32) {
    let mut found = 0u32;
    let Some(text) = text else {
        return (0, 0);
    };
    for _ in 0..CALLS {
        let mut reader = PgmReader::new(alloc);
        if reader.feed(&text).is_ok() && reader.finish().is_ok() {
            found = found.saturating_add(1);
        }
    }
    (CALLS, found)
}

/// The sample at a place, or 0 behind the last.
fn sample_at(samples: &[u16], place: usize) -> u32 {
    match samples.get(place) {
        Some(sample) => u32::from(*sample),
        None => 0,
    }
}

/// A kernel over rows of samples, or its plain twin.
#[derive(Clone, Copy)]
pub enum Kernel {
    /// None: the samples are made, and that is all.
    None,
    /// `be16`.
    Words,
    /// `be16_plain`.
    WordsPlain,
    /// `first_above`, where none is above.
    FirstAbove,
    /// `first_above_plain`, where none is above.
    FirstAbovePlain,
    /// `range`.
    Range,
    /// `range_plain`.
    RangePlain,
}

/// Calls a kernel again and again over the samples of a grid of side 2049.
pub fn kernels(alloc: Global, kernel: Kernel) -> (u32, u32) {
    kernels_over(alloc, kernel, SAMPLES as usize)
}

/// Calls a kernel again and again over so many samples, and counts the calls and what their answers add up to.
fn kernels_over(alloc: Global, kernel: Kernel, count: usize) -> (u32, u32)
    requires { count ≤ 2 ^ 30 }
{
    let mut found = 0u32;
    let Ok(bytes) = vec![in alloc; 77u8; 2 * count] else {
        return (0, 0);
    };
    let Ok(mut samples) = vec![in alloc; 1u16; count] else {
        return (0, 0);
    };
    for call in 0..CALLS {
        let place = call as usize;
        let answer = match kernel {
            Kernel::None => 1,
            Kernel::Words => {
                be16(&bytes, &mut samples);
                sample_at(&samples, place)
            }
            Kernel::WordsPlain => {
                be16_plain(&bytes, &mut samples);
                sample_at(&samples, place)
            }
            Kernel::FirstAbove => u32::from(first_above(&samples, 65534).is_none()),
            Kernel::FirstAbovePlain => u32::from(first_above_plain(&samples, 65534).is_none()),
            Kernel::Range => range(&samples).map_or(0, |(low, _)| u32::from(low)),
            Kernel::RangePlain => range_plain(&samples).map_or(0, |(low, _)| u32::from(low)),
        };
        found = found.saturating_add(answer);
    }
    (CALLS, found)
}
