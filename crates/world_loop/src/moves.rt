//! Changes of the view and of the budget.

ghost use Rattle.std.specs.Prelude.{◌≡◌, ◌+◌, ◌<◌, ◌≤◌, true};
ghost use Rattle.mesh_defs.specs.declared.counters.TheConstants.{LONGEST_WAY};
ghost use Rattle.mesh_defs.specs.State.{move_length};
ghost use Rattle.view_priority.specs.Bounds.{viewed_from};
ghost use Rattle.view_mesh.specs.Expiry.{IsExpired};
ghost use Rattle.world_loop.specs.World.{next_pace, next_way};

use crate::world::World;
use mesh_defs::LONGEST_WAY;
use view_mesh::{expire_each, expiry_laws, sight_laws};
use view_priority::Camera;

impl World {
    /// Puts the camera to a place.
    ///
    /// Where the way since the odometer was last 0 would be too long to be told, it is 0 again and all stamps expire. The
    /// pace follows the way, and only decides how often triangles are evaluated.
    pub fn camera(&mut self, camera: Camera)
        ensures rest { self.new ≡ record self.old {
          view = viewed_from camera self.old.view;
          mesh = self.new.mesh;
          odometer = self.new.odometer;
          pace = next_pace self.old.pace self.old.way (move_length self.old.view.camera camera);
          way = next_way self.old.way (move_length self.old.view.camera camera);
        } }
        ensures near { self.old.odometer + move_length self.old.view.camera camera ≤ LONGEST_WAY →
            (self.new.mesh ≡ self.old.mesh)
            × (self.new.odometer ≡ self.old.odometer + move_length self.old.view.camera camera) }
        ensures far { LONGEST_WAY < self.old.odometer + move_length self.old.view.camera camera →
            IsExpired self.old.mesh self.new.mesh (λ a. true) × (self.new.odometer ≡ 0) }
    {
        sight_laws();
        expiry_laws();
        let way = self.camera.way_to(camera);
        if way == 0 {
            return;
        }
        self.still = None;
        self.pace = way.min(self.way);
        self.way = way;
        self.camera = camera;
        if self.odometer + way > LONGEST_WAY {
            expire_each(&mut self.mesh);
            self.odometer = 0;
            return;
        }
        self.odometer += way;
    }

    /// Puts another budget in force.
    pub fn budget(&mut self, budget: u32)
        requires some { 2 ≤ budget }
        requires few { budget ≤ self.old.most }
        ensures { self.new ≡ record self.old { budget = budget } }
    {
        if budget == self.budget {
            return;
        }
        self.still = None;
        self.budget = budget;
    }

    /// Puts another threshold in force, and expires all stamps.
    ///
    /// The next frames split no triangle whose thickness over distance is at most that but where a neighbour forces it.
    /// Does nothing where the threshold is in force.
    /// Cost (not proved): a step for each triangle of the mesh.
    pub fn threshold(&mut self, threshold: u64)
        ensures same { threshold ≡ self.old.view.threshold → self.new ≡ self.old }
        ensures rest { self.new ≡ record self.old {
          view = record self.old.view { threshold = threshold };
          mesh = self.new.mesh;
        } }
        ensures mesh { (threshold ≡ self.old.view.threshold → ⊥) →
            IsExpired self.old.mesh self.new.mesh (λ a. true) }
    {
        sight_laws();
        expiry_laws();
        if threshold == self.threshold {
            return;
        }
        self.still = None;
        expire_each(&mut self.mesh);
        self.threshold = threshold;
    }
}
