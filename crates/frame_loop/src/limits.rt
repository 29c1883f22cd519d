//! What an engine counts up to.

ghost use Rattle.std.specs.Prelude.{◌≡◌, ◌^◌};
ghost use Rattle.frame_loop.specs.declared.limits.TheConstants.{MOST_FRAMES, MOST_TO_RENEW};

/// The most frames of an engine until it is renewed: 4 h 38 min at 60 a second. Its other counters stay in their
/// range by it.
pub const MOST_FRAMES: u32 = 1_000_000;

/// An engine is renewed where it has counted at most so many evaluations, splits and merges: so that those of
/// 1,000,000 frames more, at most 2^55 of each, leave it below what a frame may begin with, 2^61. At a million a
/// second it takes 36,000 years to count so far.
pub const MOST_TO_RENEW: u64 = 1 << 60;

/// What each limit is, as a number. It does nothing.
pub fn limit_laws()
    ensures most_frames { MOST_FRAMES ≡ 1000000 }
    ensures most_to_renew { MOST_TO_RENEW ≡ 2 ^ 60 }
{}
