//! Planes that turn with the camera.

ghost use Rattle.std.specs.Prelude.{◌≡◌};
ghost use Rattle.page_priority.specs.Loaded.{is_open, loaded_box};
ghost use Rattle.page_priority.specs.Scene.{loaded_in};
ghost use Rattle.view_mesh.specs.Expiry.{IsExpired};
ghost use Rattle.world_loop.specs.World.{loaded_of};
ghost use Rattle.world_loop.specs.Turn.{is_turned};

use crate::laws::change_laws;
use crate::scene::scene_of;
use crate::world::World;
use bintree_addr::{Cuboid, Tri};
use cull_marks::Planes;
use page_laws::pyramid_laws;
use page_priority::{LoadedScene, nesting_laws};
use view_mesh::{Boxes, expire_turned};

impl World {
    /// Puts a whole set of planes in force in the place of those before, and expires the stamps of what they turn.
    ///
    /// That is each open triangle that was Outside or becomes Outside, and not both; all others keep their priorities, from
    /// every place. So planes that turn with the camera cost little.
    /// Cost (not proved): a walk over the open triangles of the mesh that are not Inside, nor Outside, both before and
    /// after, and their children, with the wedge of each and a mark by each set.
    pub fn look(&mut self, planes: &Planes)
        ensures rest { self.new ≡ record self.old {
          view = record self.old.view { planes = planes.now };
          mesh = self.new.mesh;
        } }
        ensures mesh { IsExpired self.old.mesh self.new.mesh
            (is_turned (loaded_of self.old) planes.now) }
    {
        change_laws();
        let _only = self.mesh.pool();
        self.still = None;
        let scene = scene_of!(self);
        expire_turned(&mut self.mesh, &OpenBoxes { scene }, &self.planes, planes);
        self.planes.put(planes);
    }
}

/// The boxes of what is open.
#[derive(Drop)]
struct OpenBoxes<'a> {
    scene: LoadedScene<'a>,
}

impl<'a> Boxes for OpenBoxes<'a> {
    ghost n = { λ b. b.scene.store.large };

    ghost has_box = { λ b. is_open (loaded_in b.scene) };

    ghost box_at = { λ b. loaded_box (loaded_in b.scene) };

    fn cuboid(&self, t: Tri) -> Option<Cuboid> {
        self.scene.cuboid(t)
    }

    fn nest(&self) {
        nesting_laws();
        pyramid_laws();
        let _valid = self.scene.store.large();
    }
}
