//! A view over made heights as a gauge.

ghost use Rattle.std.specs.Prelude.{◌≡◌, ℕ, ◌+◌, ◌≤◌, List, None, Some};
ghost use Rattle.mesh_defs.specs.BoundingBox.{CameraAt};
ghost use Rattle.mesh_defs.specs.ClosedSet.{among};
ghost use Rattle.mesh_defs.specs.Falling.{IsFalling};
ghost use Rattle.mesh_laws.specs.Deferred.{IsEntry};
ghost use Rattle.mesh_laws.specs.Stamps.{Stamp, ReadingsHold, StampsHold};
ghost use Rattle.deferred_loop.specs.Seen.{SeenMesh};
ghost use Rattle.deferred_loop.specs.Promise.{AreStampsGood};
ghost use Rattle.mesh_defs.specs.State.{move_length};
ghost use Rattle.roam_bench.specs.Seen.{priorities_from, readings_from};

use bintree_addr::{Rank, Tri};
use cull_marks::Planes;
use deferred_loop::{Gauge, Reading};
use view_priority::{Camera, Meter, distance, distance_laws, priority, priority_laws, rank};
use wedgie_tree::Wedges;

/// World units in a grid step.
pub const SPACING: u32 = 30;

/// What is seen from a camera, without planes. A slack is an eighth of the distance.
#[derive(Drop)]
pub struct ViewGauge<'a> {
    /// The heights.
    pub wedges: &'a Wedges,
    /// Where they are seen from.
    pub camera: Camera,
    /// How often it was asked.
    pub count: u64,
}

impl<'a> Gauge for ViewGauge<'a> {
    ghost priorities = { λ g. priorities_from g.wedges.now.n g.wedges.now.heights g.camera };

    ghost readings = { λ g. readings_from g.wedges.now.n g.wedges.now.heights g.camera };

    ghost count = { λ g. g.count };

    fn rank(&mut self, t: Tri) -> Rank {
        self.count = self.count.saturating_add(1);
        rank(
            self.wedges,
            &self.camera,
            SPACING,
            &Planes::none(),
            t,
            &mut Meter::new(),
        )
    }

    fn reading(&mut self, t: Tri) -> Reading {
        self.count = self.count.saturating_add(1);
        let thickness = self.wedges.thickness(t);
        let far = distance(&self.wedges.cuboid(t, SPACING), &self.camera);
        let slack = far / 8;
        Reading {
            slack,
            hi: Rank {
                p: priority(thickness, far - slack),
                tri: t,
            },
            lo: Rank {
                p: priority(thickness, far + slack),
                tri: t,
            },
        }
    }
}

/// What a frame asks of a gauge: its priorities fall and lie between its bounds. After a first frame, whose stamps
/// were all taken at one camera, they also lie there as seen from another one, if that is no farther than the
/// odometer has gone.
pub fn gauge_laws()
    ensures falls { (n : ℕ) (heights : List ℕ) (camera : CameraAt) → IsFalling n (priorities_from n heights camera).of }
    ensures hold { (n : ℕ) (heights : List ℕ) (camera : CameraAt) (odometer : ℕ) →
        ReadingsHold n (priorities_from n heights camera).of odometer (readings_from n heights camera) }
    ensures stamps { (n : ℕ) (heights : List ℕ) (from to : CameraAt) (odometer later : ℕ) (before after : SeenMesh) →
        odometer + move_length from to ≤ later →
        ((a : ℕ) → before.stamps a ≡ None) →
        AreStampsGood (readings_from n heights from) odometer before after →
        ((a : ℕ) (stamp : Stamp) → after.stamps a ≡ Some stamp → IsEntry after.set.n (among after.set.members) a) →
        StampsHold (priorities_from n heights to).of later after.stamps }
{
    distance_laws();
    priority_laws();
}
