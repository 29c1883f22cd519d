//! A frame.

ghost use Rattle.std.specs.Prelude.{◌≡◌, ◌<◌, ◌≤◌};
ghost use Rattle.mesh_defs.specs.declared.counters.TheConstants.{CHANGES_AT_FRAME, LONGEST_WAY};
ghost use Rattle.deferred_loop.specs.Seen.{HasRoom};
ghost use Rattle.view_mesh.specs.Sight.{Sight, IsFollowed};
ghost use Rattle.view_mesh.specs.Advance.{IsAdvanced};

use crate::laws::sight_laws;
use deferred_loop::{Gauge, Steps};
use mesh_laws::frame_laws;
use roam_mesh::Mesh;

/// Makes the mesh of what a gauge tells from that of the frame before.
///
/// `followed`: the mesh follows a sight, of which the gauge tells the priorities where the camera is. `done` holds of
/// each such sight.
/// Cost (not proved): that of `Mesh::advance`. Takes no memory.
pub fn advance<G: Gauge>(mesh: &mut Mesh, gauge: &mut G, budget: u32, odometer: u64) -> Steps
    requires followed { (s : Sight)
        × IsFollowed s (G.priorities gauge.old) (G.readings gauge.old) odometer mesh.old }
    requires some { 2 ≤ budget }
    requires far { odometer ≤ LONGEST_WAY }
    requires counted { G.count gauge.old < CHANGES_AT_FRAME }
    requires room { HasRoom mesh.old.pool.n mesh.old.pool.most budget }
    requires splits { mesh.old.pool.splits < CHANGES_AT_FRAME }
    requires merges { mesh.old.pool.merges < CHANGES_AT_FRAME }
    ensures priorities { G.priorities gauge.new ≡ G.priorities gauge.old }
    ensures readings { G.readings gauge.new ≡ G.readings gauge.old }
    ensures done { (s : Sight) → IsFollowed s (G.priorities gauge.old) (G.readings gauge.old) odometer mesh.old →
        IsAdvanced s budget odometer mesh.old mesh.new result (G.count gauge.old) (G.count gauge.new) }
{
    sight_laws();
    frame_laws();
    let _before = mesh.pool();
    let steps = mesh.advance(gauge, budget, odometer);
    let _after = mesh.pool();
    steps
}
