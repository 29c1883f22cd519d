//! Planes that turn with the camera.

ghost use Rattle.std.specs.Prelude.{◌≡◌, true};
ghost use Rattle.mesh_defs.specs.BoundingBox.{box_of};
ghost use Rattle.mesh_defs.specs.State.{SceneState, scene_of};
ghost use Rattle.frame_loop.specs.Engine.{IsExpired, AreAllExpired};
ghost use Rattle.frame_loop.specs.Turn.{with_planes, is_turned};

use crate::engine::Engine;
use bintree_addr::{Cuboid, Tri};
use cull_marks::Planes;
use roam_mesh::Mesh;
use view_mesh::{Boxes, expire_turned, expiry_laws, sight_laws};
use view_priority::{Outlook, priority_laws};

impl Engine {
    /// Puts a whole set of planes in force in the place of those before, and expires the stamps of those triangles
    /// alone that were Outside or become Outside, and not both.
    ///
    /// All others keep their priorities, from every place. So planes that turn with the camera cost little, where
    /// `clear_planes` and `add_plane` expire all stamps.
    /// Cost (not proved): a walk over the triangles of the mesh that are not Inside, nor Outside, both before and
    /// after, and their children, with a mark of each by each set; none where no stamp is good.
    pub fn look(&mut self, planes: &Planes)
        ensures rest { self.new ≡ record self.old {
          state = with_planes planes.now self.old.state;
          mesh = self.new.mesh;
        } }
        ensures mesh { IsExpired self.old.mesh self.new.mesh
            (is_turned (scene_of self.old.state) planes.now) }
    {
        sight_laws();
        expiry_laws();
        self.still = None;
        expire_by_turn(&mut self.mesh, self.all_expired, &self.outlook, planes);
        self.outlook.put_planes(planes);
    }
}

/// Expires the stamps of all triangles that are turned, where some stamp may be good.
fn expire_by_turn(mesh: &mut Mesh, all_expired: bool, outlook: &Outlook, planes: &Planes)
    requires n { mesh.old.pool.n ≡ outlook.now.grid.n }
    requires known { all_expired ≡ true → AreAllExpired mesh.old }
    ensures { IsExpired mesh.old mesh.new (is_turned outlook.now planes.now) }
{
    if !all_expired {
        expire_turned(mesh, &OutlookBoxes { outlook }, &outlook.planes, planes);
    }
}

/// The boxes of an outlook: each triangle has one.
#[derive(Drop)]
struct OutlookBoxes<'a> {
    outlook: &'a Outlook,
}

impl<'a> Boxes for OutlookBoxes<'a> {
    ghost n = { λ b. b.outlook.now.grid.n };

    ghost has_box = { λ b a. true };

    ghost box_at = { λ b. let o : SceneState = b.outlook.now in box_of o.grid.n o.grid.heights o.view.spacing };

    fn cuboid(&self, t: Tri) -> Option<Cuboid> {
        let outlook = self.outlook;
        Some(outlook.wedges.cuboid(t, outlook.spacing))
    }

    fn nest(&self) {
        priority_laws();
    }
}
