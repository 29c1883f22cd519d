//! The least and the greatest sample.

ghost use Rattle.std.specs.Prelude.{◌≡◌, ◌↔◌, ◌*◌, ◌/◌, ◌≤◌, [], ◌∷◌, length, take, IsNone, IfSome};
ghost use Rattle.roam_lanes.specs.Extremes.{IsLeast, IsGreatest, IsRangeOf};

use crate::lanes::{greater, lesser};
use std::simd::prelude::*;

/// The samples of a block.
const LANES: usize = 8;

/// The least and the greatest sample, in this order.
///
/// Cost (not proved): a step for each block of eight samples.
pub fn range(samples: &[u16]) -> Option<(u16, u16)>
    ensures empty { IsNone result ↔ (samples.now ≡ []) }
    ensures value { IfSome result (λ r. IsRangeOf samples.now r.0 r.1) }
{
    if samples.len() < LANES {
        return range_plain(samples);
    }
    let (low, high) = range_of_blocks(samples);
    let rest = &samples[8 * (samples.len() / LANES)..];
    Some(widened(low, high, rest))
}

/// The plain twin of `range`: sample by sample.
pub fn range_plain(samples: &[u16]) -> Option<(u16, u16)>
    ensures empty { IsNone result ↔ (samples.now ≡ []) }
    ensures value { IfSome result (λ r. IsRangeOf samples.now r.0 r.1) }
{
    let [first, rest @ ..] = samples else {
        return None;
    };
    Some(widened(*first, *first, rest))
}

/// The least of `low` and the samples, and the greatest of `high` and the samples.
fn widened(low: u16, high: u16, samples: &[u16]) -> (u16, u16)
    ensures least { IsLeast (low ∷ samples.now) result.0 }
    ensures greatest { IsGreatest (high ∷ samples.now) result.1 }
{
    let (mut least, mut greatest) = (low, high);
    for i in 0..samples.len() {
        least = least.min(samples[i]);
        greatest = greatest.max(samples[i]);
    }
    (least, greatest)
}

/// The range of the samples in whole blocks.
fn range_of_blocks(samples: &[u16]) -> (u16, u16)
    requires { 8 ≤ length samples.now }
    ensures { IsRangeOf (take (8 * (length samples.now / 8)) samples.now) result.0 result.1 }
{
    let mut lows = u16x8::from_slice(samples);
    let mut highs = u16x8::from_slice(samples);
    for k in 1..samples.len() / LANES {
        let block = u16x8::from_slice(&samples[8 * k..]);
        lows = lesser(lows, block);
        highs = greater(highs, block);
    }
    let lows = lows.to_array();
    let highs = highs.to_array();
    let (low, _) = widened(lows[0], lows[0], &lows);
    let (_, high) = widened(highs[0], highs[0], &highs);
    (low, high)
}
