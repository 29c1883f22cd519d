//! What the loop learns of priorities.

ghost use Rattle.std.specs.Prelude.{◌≡◌, ℕ, ◌+◌, ◌-◌, ◌*◌, ◌<◌, ◌≤◌, ◌^◌};
ghost use Rattle.mesh_defs.specs.Triangle.{level_of};
ghost use Rattle.mesh_laws.specs.Stamps.{Readings};
ghost use Rattle.deferred_loop.specs.Choice.{Priorities};

use bintree_addr::{Rank, Tri};

/// Bounds on the rank of a triangle, and how far the camera may move within them.
#[derive(Clone, Copy)]
pub struct Reading {
    /// The way for which the bounds hold, in the odometer's unit.
    pub slack: u64,
    /// The triangle with the greatest priority that it has on this way.
    pub hi: Rank,
    /// The triangle with the least priority.
    pub lo: Rank,
}

/// Tells priorities and bounds, and counts how often it was asked; at 2^64 - 1 the count stands still.
///
/// What it tells stays the same. That priorities fall from parent to child and lie between their bounds is asked
/// where a frame begins.
pub trait Gauge {
    ghost priorities: { Self → Priorities };

    ghost readings: { Self → Readings };

    ghost count: { Self → ℕ };

    /// The triangle with its priority.
    fn rank(&mut self, t: Tri) -> Rank
        requires level { level_of t ≤ 2 * (priorities self.old).n }
        ensures tri { result.tri ≡ t }
        ensures value { result.p ≡ (priorities self.old).of t }
        ensures priorities { priorities self.new ≡ priorities self.old }
        ensures readings { readings self.new ≡ readings self.old }
        ensures rises { count self.old ≤ count self.new }
        ensures most { count self.new ≤ count self.old + 1 }
        ensures counted { count self.new < 2 ^ 64 - 1 → count self.new ≡ count self.old + 1 };

    /// Bounds on its rank from here on.
    fn reading(&mut self, t: Tri) -> Reading
        requires level { level_of t ≤ 2 * (priorities self.old).n }
        ensures slack { result.slack ≡ (readings self.old).slack t }
        ensures small { result.slack ≤ 2 ^ 32 }
        ensures hi_tri { result.hi.tri ≡ t }
        ensures hi { result.hi.p ≡ (readings self.old).upper t }
        ensures lo_tri { result.lo.tri ≡ t }
        ensures lo { result.lo.p ≡ (readings self.old).lower t }
        ensures priorities { priorities self.new ≡ priorities self.old }
        ensures readings { readings self.new ≡ readings self.old }
        ensures rises { count self.old ≤ count self.new }
        ensures most { count self.new ≤ count self.old + 1 }
        ensures counted { count self.new < 2 ^ 64 - 1 → count self.new ≡ count self.old + 1 };
}
