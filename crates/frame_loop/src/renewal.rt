//! Frames that are counted from 0 on again.

ghost use Rattle.std.specs.Prelude.{◌≡◌, ◌↔◌, IsTrue, false};
ghost use Rattle.frame_loop.specs.Engine.{IsRenewable};

use crate::engine::Engine;
use crate::limits::MOST_TO_RENEW;

impl Engine {
    /// Counts frames from 0 on again, and tells whether that may be: a caller renews an engine behind 1,000,000 frames.
    ///
    /// All else stays, stamps and what `changes` tells too, so the next frame costs what it would have cost.
    pub fn renew(&mut self) -> bool
        ensures done { IsTrue result ↔ IsRenewable self.old }
        ensures renewed { IsTrue result → self.new ≡ record self.old { frames = 0 } }
        ensures worn { result ≡ false → self.new ≡ self.old }
    {
        if !self.is_renewable() {
            return false;
        }
        self.frames = 0;
        true
    }

    /// Whether the counts leave room for those of as many frames as an engine makes until it is renewed.
    fn is_renewable(&self) -> bool
        ensures { IsTrue result ↔ IsRenewable self.now }
    {
        let pool = self.mesh.pool();
        self.meter.count() <= MOST_TO_RENEW
            && pool.splits() <= MOST_TO_RENEW
            && pool.merges() <= MOST_TO_RENEW
    }
}
