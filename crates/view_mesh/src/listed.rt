//! Stamps of triangles that are listed.

ghost use Rattle.mesh_defs.specs.ClosedSet.{among};
ghost use Rattle.view_mesh.specs.Expiry.{IsExpired};

use bintree_addr::Tri;
use roam_mesh::Mesh;

/// Expires the stamps of these triangles.
///
/// Cost (not proved): a step for each level of each.
pub fn expire_listed(mesh: &mut Mesh, triangles: &[Tri])
    ensures { IsExpired mesh.old mesh.new (among triangles.now) }
{
    for t in triangles {
        mesh.expire(*t);
    }
}
