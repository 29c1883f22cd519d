//! The gauge of what is loaded.

ghost use Rattle.std.specs.Prelude.{◌≡◌};
ghost use Rattle.page_priority.specs.Loaded.{loaded_priorities, loaded_readings};
ghost use Rattle.page_priority.specs.Scene.{loaded_in};

use crate::LoadedScene;
use bintree_addr::{Rank, Tri};
use deferred_loop::{Gauge, Reading};
use view_priority::Meter;

/// Tells the priorities over what is loaded, and bounds on them for a move of some frames at the camera's pace. Its meter
/// counts.
#[derive(Drop)]
pub struct LoadedGauge<'a> {
    scene: LoadedScene<'a>,
    /// The camera's way from frame to frame, in world units.
    pace: u64,
    meter: Meter,
}

impl<'a> LoadedGauge<'a> {
    /// The gauge of a scene for a camera of this pace, which counts on from the meter.
    pub fn new(scene: LoadedScene<'a>, pace: u64, meter: Meter) -> LoadedGauge<'a>
        ensures scene { result.scene ≡ scene.entry }
        ensures pace { result.pace ≡ pace }
        ensures meter { result.meter ≡ meter }
    {
        LoadedGauge { scene, pace, meter }
    }

    /// The meter, with what was counted.
    pub fn into_meter(self) -> Meter
        ensures { result ≡ self.entry.meter }
    {
        self.meter
    }
}

impl<'a> Gauge for LoadedGauge<'a> {
    ghost priorities = { λ g. loaded_priorities (loaded_in g.scene) };

    ghost readings = { λ g. loaded_readings g.pace (loaded_in g.scene) };

    ghost count = { λ g. g.meter };

    fn rank(&mut self, t: Tri) -> Rank {
        // Read, so that it is known to fit its type: it then rises by one or stands still.
        let _count = self.meter.count();
        self.scene.rank(t, &mut self.meter)
    }

    fn reading(&mut self, t: Tri) -> Reading {
        let _count = self.meter.count();
        let (slack, bounds) = self.scene.bounds_by_slack(t, self.pace, &mut self.meter);
        Reading {
            slack,
            hi: bounds.hi,
            lo: bounds.lo,
        }
    }
}
