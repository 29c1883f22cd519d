//! The triangles whose centres are points.

ghost use Rattle.std.specs.Prelude.{◌≡◌, ◌^◌, ◌≤◌, ◌<◌, ◌+◌, ◌++◌, ◌∷◌, [], List, All, length, vec_capacity};
ghost use Rattle.mesh_defs.specs.declared.point.Point.{Point as PointSeen};
ghost use Rattle.mesh_defs.specs.declared.level.TheConstants.{GREATEST_LEVEL};
ghost use Rattle.bintree_laws.specs.Corners.{IsInSquare};
ghost use Rattle.run_meshes.specs.FittedSeen.{IsRequiredFor};

use address_flags::centred_at;
use bintree_addr::{Point, Tri};

/// Lists, for each point that is no corner of the square of side 2^n, a triangle whose centre it is. Takes no memory.
pub(crate) fn list_required(n: u32, points: &[Point], required: &mut Vec<Tri>)
    requires in_grid { (1 ≤ n) × (n ≤ GREATEST_LEVEL) }
    requires inside { All (λ p. IsInSquare (2 ^ n) p) points.now }
    requires empty { required.old.items ≡ [] }
    requires room { length points.now ≤ vec_capacity required.old }
    ensures { IsRequiredFor n points.now required.new.items }
{
    for point in points {
        list_centred(n, *point, required);
    }
}

/// Puts a triangle behind the others whose centre the point is, unless it is a corner of the square. Takes no memory.
fn list_centred(n: u32, point: Point, required: &mut Vec<Tri>)
    requires in_grid { (1 ≤ n) × (n ≤ GREATEST_LEVEL) }
    requires point_in_grid { IsInSquare (2 ^ n) point }
    requires room { length required.old.items < vec_capacity required.old }
    ensures listed { (points : List PointSeen) → IsRequiredFor n points required.old.items →
        IsRequiredFor n (points ++ point ∷ []) required.new.items }
    ensures most { length required.new.items ≤ length required.old.items + 1 }
    ensures capacity { vec_capacity required.old ≤ vec_capacity required.new }
{
    if let Some(t) = centred_at(n, point) {
        let Ok(()) = required.push(t) else {
            unreachable!()
        };
    }
}
