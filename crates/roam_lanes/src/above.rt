//! The first sample above a bound.

ghost use Rattle.std.specs.Prelude.{◌≡◌, ◌↔◌, ◌<◌, ◌≤◌, false, length, take, slice_get, All, IsNone, IfSome, IsSomeAnd};

use std::simd::prelude::*;

/// The samples of a block.
const LANES: usize = 16;

/// The index of the first sample that is greater than `max`.
///
/// Cost (not proved): a step for each block of sixteen samples before it.
pub fn first_above(samples: &[u16], max: u16) -> Option<usize>
    ensures none { IsNone result ↔ All (λ h. h ≤ max) samples.now }
    ensures before { IfSome result (λ i. All (λ h. h ≤ max) (take i samples.now)) }
    ensures above { IfSome result (λ i. IsSomeAnd (slice_get samples.now i) (λ h. max < h)) }
{
    let passed = blocks_within(samples, max);
    match first_above_plain(&samples[passed..], max) {
        None => None,
        Some(i) => Some(passed + i),
    }
}

/// The plain twin of `first_above`: sample by sample.
pub fn first_above_plain(samples: &[u16], max: u16) -> Option<usize>
    ensures none { IsNone result ↔ All (λ h. h ≤ max) samples.now }
    ensures before { IfSome result (λ i. All (λ h. h ≤ max) (take i samples.now)) }
    ensures above { IfSome result (λ i. IsSomeAnd (slice_get samples.now i) (λ h. max < h)) }
{
    for i in 0..samples.len() {
        if samples[i] > max {
            return Some(i);
        }
    }
    None
}

/// How many samples stand in whole blocks before the first block with a sample above `max`.
fn blocks_within(samples: &[u16], max: u16) -> usize
    ensures in_row { result ≤ length samples.now }
    ensures within { All (λ h. h ≤ max) (take result samples.now) }
{
    let blocks = samples.len() / LANES;
    for k in 0..blocks {
        if any_above(&samples[16 * k..16 * k + 16], max) {
            return 16 * k;
        }
    }
    16 * blocks
}

/// Whether a sample of the block is above `max`.
#[inline(always)]
fn any_above(block: &[u16], max: u16) -> bool
    requires { length block.now ≡ 16 }
    ensures { result ≡ false → All (λ h. h ≤ max) block.now }
{
    let above = u16x16::from_slice(block).simd_gt(u16x16::splat(max));
    above.to_bitmask() != 0
}
