//! Stamps of all triangles, and of those that meet an area.

ghost use Rattle.std.specs.Prelude.{◌≡◌, ◌≤◌, true, IsTrue};
ghost use Rattle.mesh_defs.specs.declared.point.Point.{Point};
ghost use Rattle.mesh_defs.specs.State.{is_in_area};
ghost use Rattle.mesh_defs.specs.Triangle.{corners_of};
ghost use Rattle.bintree_laws.specs.Areas.{IsInRectangle, overlaps};
ghost use Rattle.view_mesh.specs.Expiry.{IsExpired};

use crate::walk::{Below, Expiring, Expiry, expire_all_under, expire_by};
use bintree_addr::{Corners, Slot, Tri};
use mesh_defs::Point;
use roam_mesh::Mesh;
use wedgie_tree::Area;

/// Those of a grid whose bounding rectangle meets an area.
#[derive(Drop)]
struct Met {
    n: u32,
    area: Area,
    ghost columns: { area.x0 ≤ area.x1 },
    ghost rows: { area.y0 ≤ area.y1 },
}

impl Expiry for Met {
    ghost n = { λ m. m.n };

    ghost expires = { λ m a. overlaps (corners_of m.n a) m.area };

    fn at(&self, t: Tri) -> Expiring {
        let corners = t.corners(self.n);
        let itself = self.area.meets(corners);
        let below = if !itself {
            Below::Nothing
        } else if has_all(self.area, corners) {
            Below::Everything
        } else {
            Below::Part
        };
        Expiring { itself, below }
    }
}

/// Whether the whole bounding rectangle of the corners lies in the area.
fn has_all(area: Area, corners: Corners) -> bool
    ensures { IsTrue result → (p : Point) → IsInRectangle corners p → is_in_area area p.x p.y ≡ true }
{
    has(area, corners.apex) && has(area, corners.v0) && has(area, corners.v1)
}

/// Whether a point lies in the area.
fn has(area: Area, p: Point) -> bool
    ensures { result ≡ is_in_area area p.x p.y }
{
    area.meets(Corners {
        apex: p,
        v0: p,
        v1: p,
    })
}

/// Expires all stamps.
///
/// Cost (not proved): a step for each triangle of the mesh.
pub fn expire_each(mesh: &mut Mesh)
    ensures { IsExpired mesh.old mesh.new (λ a. true) }
{
    let _halves = mesh.pool();
    expire_all_under(mesh, Slot(0));
    expire_all_under(mesh, Slot(1));
}

/// Expires the stamps of the triangles whose bounding rectangle meets the area.
///
/// What lies below a triangle lies in its rectangle, so nothing is looked at below one that does not meet the area,
/// and all expires below one that lies in it.
/// Cost (not proved): a step for each triangle that meets the area, and for each child of one.
pub fn expire_area(mesh: &mut Mesh, area: Area)
    requires columns { area.x0 ≤ area.x1 }
    requires rows { area.y0 ≤ area.y1 }
    ensures { IsExpired mesh.old mesh.new (λ a. overlaps (corners_of mesh.old.pool.n a) area) }
{
    let n = mesh.pool().n();
    expire_by(mesh, &Met { n, area });
}
