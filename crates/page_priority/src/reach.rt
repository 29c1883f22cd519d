//! How long a reading may hold.

ghost use Rattle.std.specs.Prelude.{◌≡◌, ◌<◌, ◌≤◌, ◌^◌};
ghost use Rattle.page_priority.specs.Loaded.{slack_at};

/// The way of the camera for which a reading holds of a triangle that is not open, in world units: the longest that a
/// gauge tells, since such a triangle has priority 0 from each place.
pub const LONGEST_SLACK: u64 = 1 << 32;

/// The way of the camera for which a reading of a triangle at this distance is to hold, in world units.
///
/// The longer it is, the more places a frame finds open; the shorter, the more readings run out. About the geometric mean
/// of the distance and of the camera's way from frame to frame costs least.
pub(crate) fn slack_at(pace: u64, distance: u64) -> u64
    requires near { distance < 2 ^ 31 }
    ensures value { result ≡ slack_at pace distance }
    ensures within { result ≤ distance }
{
    let doublings = (pace.leading_zeros() + 1).saturating_sub(distance.leading_zeros());
    distance >> (doublings / 2).max(3).min(8)
}
