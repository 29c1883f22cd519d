//! What decides a triangle's priority.

ghost use Rattle.std.specs.Prelude.{◌≡◌, ◌+◌, ◌-◌, ◌<◌, ◌≤◌, ◌^◌};
ghost use Rattle.mesh_defs.specs.Priority.{above, seen_ratio};

use crate::Bounds;
use crate::ratio::seen_priority;
use bintree_addr::{Rank, Tri};
use cull_marks::Mark;

/// What decides a triangle's priority.
#[derive(Clone, Copy, Debug)]
pub struct Factors {
    /// How its box lies to the view planes.
    pub mark: Mark,
    /// Its thickness, in half units of height.
    pub thickness: u32,
    /// How far its box is from the camera, in world units.
    pub distance: u64,
    /// The greatest ratio of both that is good enough.
    pub threshold: u64,
}

impl Factors {
    /// The triangle with its priority.
    pub fn rank(&self, t: Tri) -> Rank
        requires distance { self.now.distance < 2 ^ 31 }
        ensures tri { result.tri ≡ t }
        ensures value { result.p ≡ above self.now.threshold
            (seen_ratio self.now.mark self.now.thickness self.now.distance) }
    {
        self.rank_at(t, self.distance)
    }

    /// The ranks at the distance less the slack, at least 0, and at the distance plus the slack.
    pub fn bounds(&self, t: Tri, slack: u64) -> Bounds
        requires distance { self.now.distance < 2 ^ 31 }
        requires slack { slack ≤ 2 ^ 32 }
        ensures hi_tri { result.hi.tri ≡ t }
        ensures lo_tri { result.lo.tri ≡ t }
        ensures hi { result.hi.p ≡ above self.now.threshold
            (seen_ratio self.now.mark self.now.thickness (self.now.distance - slack)) }
        ensures lo { result.lo.p ≡ above self.now.threshold
            (seen_ratio self.now.mark self.now.thickness (self.now.distance + slack)) }
    {
        let near = self.distance.saturating_sub(slack);
        let far = self.distance + slack;
        Bounds {
            hi: self.rank_at(t, near),
            lo: self.rank_at(t, far),
        }
    }

    /// The rank at another distance.
    fn rank_at(&self, t: Tri, distance: u64) -> Rank
        requires near { distance ≤ 2 ^ 33 }
        ensures tri { result.tri ≡ t }
        ensures value { result.p ≡ above self.now.threshold
            (seen_ratio self.now.mark self.now.thickness distance) }
    {
        Rank {
            p: seen_priority(self.threshold, self.mark, self.thickness, distance),
            tri: t,
        }
    }
}
