//! A triangle that holds a point, and where in it the point lies.

ghost use Rattle.std.specs.Prelude.{◌≡◌, ◌+◌, ◌*◌, ◌^◌, ◌<◌, ◌≤◌, ◌↔◌, ℕ, IsTrue};
ghost use Rattle.mesh_defs.specs.declared.point.Point.{Point};
ghost use Rattle.bintree_laws.specs.Corners.{IsInSquare};
ghost use Rattle.mesh_laws.specs.Vertex.{IsSquareCorner};
ghost use Rattle.address_flags.specs.Weighted.{IsWeighted};

use crate::weights::Weights;
use bintree_addr::{Point, Tri};

/// A triangle, and how much of a point lies at each of its corners.
#[derive(Clone, Copy)]
pub(crate) struct Place {
    pub(crate) triangle: Tri,
    pub(crate) weights: Weights,
}

impl Place {
    ghost use Rattle.std.specs.Prelude.{◌≡◌, ◌+◌, ◌*◌, ◌^◌, ◌<◌, ◌≤◌, ℕ};
    ghost use Rattle.mesh_defs.specs.declared.point.Point.{Point};
    ghost use Rattle.mesh_defs.specs.Triangle.{level_of};
    ghost use Rattle.address_flags.specs.Weighted.{IsWeighted, IsCentred};

    /// The child that holds the point, where the point is not the midpoint of the base: of two, the left one.
    pub(crate) fn child(self) -> Self
        requires coarse { level_of self.triangle < 28 }
        requires small { self.weights.v0 + self.weights.v1 ≤ 16384 }
        ensures level { level_of result.triangle ≡ level_of self.triangle + 1 }
        ensures weighted { (n side : ℕ) (r : Point) → IsWeighted n side r self → ¬ (IsCentred self) →
            IsWeighted n side r result }
    {
        if self.weights.v1 <= self.weights.v0 {
            Place {
                triangle: self.triangle.left(),
                weights: self.weights.left(),
            }
        } else {
            Place {
                triangle: self.triangle.right(),
                weights: self.weights.right(),
            }
        }
    }
}

/// Whether the point is a corner of the square.
pub(crate) fn is_square_corner(side: u32, point: Point) -> bool
    ensures { IsTrue result ↔ IsSquareCorner side point }
{
    (point.x == 0 || point.x == side) && (point.y == 0 || point.y == side)
}

/// The half of the square that holds the point.
pub(crate) fn half_around(side: u32, point: Point) -> Place
    requires small { side ≤ 16384 }
    requires point_in_grid { IsInSquare side point }
    ensures { (n : ℕ) → side ≡ 2 ^ n → ¬ (IsSquareCorner side point) → IsWeighted n side point result }
{
    let (x, y) = (point.x, point.y);
    if x + y <= side {
        Place {
            triangle: Tri::LOWER,
            weights: Weights {
                apex: side - x - y,
                v0: x,
                v1: y,
            },
        }
    } else {
        Place {
            triangle: Tri::UPPER,
            weights: Weights {
                apex: x + y - side,
                v0: side - x,
                v1: side - y,
            },
        }
    }
}
