//! Pages and a view of them.

ghost use Rattle.std.specs.Prelude.{◌≡◌, ◌↔◌, ◌+◌, ◌-◌, ◌*◌, ◌/◌, ◌<◌, ◌≤◌, ◌^◌, IsSome, IfSome, IsTrue};
ghost use Rattle.mesh_defs.specs.Triangle.{level_of};
ghost use Rattle.cull_marks.specs.Cuboid.{as_box, IsWithinReach};
ghost use Rattle.view_priority.specs.Meter.{counted};
ghost use Rattle.page_priority.specs.Loaded.{is_open, loaded_wedge, loaded_box, loaded_mark, loaded_distance};
ghost use Rattle.page_priority.specs.Loaded.{loaded_priority, loaded_readings};
ghost use Rattle.page_priority.specs.Scene.{loaded_in};

use crate::reach::slack_at;
use crate::{LONGEST_SLACK, Viewpoint, nesting_laws};
use bintree_addr::{Cuboid, Rank, Tri};
use page_store::PageStore;
use std::marker::Model;
use view_priority::{Bounds, Factors, Meter};

/// The pages of a terrain and a view of them: all that the priority of a triangle depends on.
#[derive(Drop)]
pub struct LoadedScene<'a> {
    /// The pages that are loaded.
    pub store: &'a PageStore,
    /// The view.
    pub viewpoint: Viewpoint<'a>,
}

impl<'a> Model for LoadedScene<'a> {
    ghost use Rattle.page_priority.specs.Scene.{TerrainState};

    ghost Value = { TerrainState };

    ghost view = { λ s. record { store = s.store.now; view = s.viewpoint } };
}

impl<'a> LoadedScene<'a> {
    /// A triangle with its priority: 0 if it is not open. The meter counts one more.
    ///
    /// Cost (not proved): that of `PageStore::wedge`; of an open triangle also a step a level, two corners of its box at
    /// each plane, and a square root.
    pub fn rank(&self, t: Tri, meter: &mut Meter) -> Rank
        requires level { level_of t ≤ 2 * self.now.store.large }
        ensures tri { result.tri ≡ t }
        ensures value { result.p ≡ loaded_priority (loaded_in self.now) t }
        ensures count { meter.new ≡ counted meter.old }
    {
        meter.tick();
        match self.factors(t) {
            Some(factors) => factors.rank(t),
            None => Rank { p: 0, tri: t },
        }
    }

    /// The slack of a triangle's reading and the bounds for it. The meter counts one more.
    ///
    /// At each place of the camera on a way no longer than the slack, the priority lies between the bounds. The pace is the
    /// camera's way from frame to frame, in world units.
    /// Cost (not proved): that of `rank`.
    pub fn bounds_by_slack(&self, t: Tri, pace: u64, meter: &mut Meter) -> (u64, Bounds)
        requires level { level_of t ≤ 2 * self.now.store.large }
        ensures slack { result.0 ≡ (loaded_readings pace (loaded_in self.now)).slack t }
        ensures small { result.0 ≤ LONGEST_SLACK }
        ensures hi_tri { result.1.hi.tri ≡ t }
        ensures lo_tri { result.1.lo.tri ≡ t }
        ensures hi { result.1.hi.p ≡ (loaded_readings pace (loaded_in self.now)).upper t }
        ensures lo { result.1.lo.p ≡ (loaded_readings pace (loaded_in self.now)).lower t }
        ensures count { meter.new ≡ counted meter.old }
    {
        meter.tick();
        match self.factors(t) {
            Some(factors) => {
                let slack = slack_at(pace, factors.distance);
                (slack, factors.bounds(t, slack))
            }
            None => {
                let hi = Rank { p: 0, tri: t };
                let lo = hi;
                (LONGEST_SLACK, Bounds { hi, lo })
            }
        }
    }

    /// The box of a triangle, if it is open.
    ///
    /// Its ends are in world units.
    ///
    /// Cost (not proved): that of `PageStore::wedge`, and a step a level.
    pub fn cuboid(&self, t: Tri) -> Option<Cuboid>
        requires level { level_of t ≤ 2 * self.now.store.large }
        ensures opened { IsSome result ↔ IsTrue (is_open (loaded_in self.now) t) }
        ensures value { IfSome result (λ c. as_box c ≡ loaded_box (loaded_in self.now) t) }
        ensures reach { IfSome result (λ c. IsWithinReach (2 ^ 24) (as_box c)) }
    {
        nesting_laws();
        let corners = t.corners(self.store.large());
        let wedge = self.store.wedge(t, corners)?;
        Some(self.viewpoint.cuboid(corners, wedge.low, wedge.high))
    }

    /// What decides the priority of a triangle, if it is open.
    fn factors(&self, t: Tri) -> Option<Factors>
        requires level { level_of t ≤ 2 * self.now.store.large }
        ensures opened { IsSome result ↔ IsTrue (is_open (loaded_in self.now) t) }
        ensures mark { IfSome result (λ f. f.mark ≡ loaded_mark (loaded_in self.now) self.now.view.planes t) }
        ensures thickness { IfSome result (λ f. f.thickness ≡ (loaded_wedge (loaded_in self.now) t).thickness) }
        ensures distance { IfSome result (λ f. f.distance ≡ loaded_distance (loaded_in self.now) t) }
        ensures bounded { IfSome result (λ f. f.distance < 2 ^ 31) }
        ensures threshold { IfSome result (λ f. f.threshold ≡ self.now.view.threshold) }
    {
        nesting_laws();
        let corners = t.corners(self.store.large());
        let wedge = self.store.wedge(t, corners)?;
        Some(self.viewpoint.factors(corners, wedge))
    }
}
