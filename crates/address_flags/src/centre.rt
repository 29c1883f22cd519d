//! The way down to the triangle whose centre a point is.

ghost use Rattle.std.specs.Prelude.{◌≡◌, ◌^◌, ◌≤◌, ◌↔◌, IsNone, IfSome, List, ℕ};
ghost use Rattle.mesh_defs.specs.Triangle.{IsSplittable};
ghost use Rattle.mesh_defs.specs.Tiling.{IsConforming};
ghost use Rattle.mesh_defs.specs.declared.level.TheConstants.{GREATEST_LEVEL};
ghost use Rattle.bintree_laws.specs.Corners.{IsInSquare};
ghost use Rattle.mesh_laws.specs.Ancestors.{ancestors_of};
ghost use Rattle.mesh_laws.specs.Vertex.{is_mesh_vertex, centre_of, IsSquareCorner};

use crate::place::{half_around, is_square_corner};
use bintree_addr::{Point, Tri};

/// The triangle that has this grid point as the midpoint of its base; none for a corner of the square. Where there are
/// two, they are mates, and it is one of them.
///
/// Cost (not proved): a step a level, of a comparison, a sum and a difference.
pub fn centred_at(n: u32, point: Point) -> Option<Tri>
    requires in_grid { (1 ≤ n) × (n ≤ GREATEST_LEVEL) }
    requires point_in_grid { IsInSquare (2 ^ n) point }
    ensures corner { IsNone result ↔ IsSquareCorner (2 ^ n) point }
    ensures splittable { IfSome result (IsSplittable n) }
    ensures centre { IfSome result (λ t. centre_of n t ≡ point) }

    // So a mesh has the point as a vertex exactly where it splits the triangle.
    ensures vertex { IfSome result (λ t. (triangles : List ℕ) → IsConforming n triangles →
        is_mesh_vertex n triangles point ≡ ancestors_of triangles t) }
{
    let side = 1 << n;
    if is_square_corner(side, point) {
        return None;
    }
    let mut place = half_around(side, point);
    while !place.weights.is_centre() {
        place = place.child();
    }
    Some(place.triangle)
}
