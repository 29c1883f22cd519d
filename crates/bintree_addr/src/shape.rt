//! Corners by a step down the bintree, and the side of a line on which a point lies.

ghost use Rattle.std.specs.Prelude.{◌≡◌, ◌+◌, ◌<◌, ◌^◌, if◌then◌else◌};
ghost use Rattle.mesh_defs.specs.declared.level.TheConstants.{GREATEST_LEVEL};
ghost use Rattle.mesh_defs.specs.Triangle.{midpoint, base_triangle, child};
ghost use Rattle.bintree_laws.specs.Corners.{IsWithin, IsInSquare};
ghost use Rattle.mesh_defs.specs.BoundingBox.{is_left_or_on};

use crate::{Corners, Point};

/// The point halfway between two points.
pub fn point_between(p: Point, q: Point) -> Point
    requires x_fits { p.x + q.x < 2 ^ 32 }
    requires y_fits { p.y + q.y < 2 ^ 32 }
    ensures { result ≡ midpoint p q }
{
    Point {
        x: (p.x + q.x) / 2,
        y: (p.y + q.y) / 2,
    }
}

/// The corners of a half of the square: below its falling diagonal, or above it.
pub fn half_square(side: u32, above: bool) -> Corners
    ensures value { result ≡ base_triangle side (if above then 1 else 0) }
    ensures within { IsWithin side result }
{
    let right = Point { x: side, y: 0 };
    let top = Point { x: 0, y: side };
    if above {
        Corners {
            apex: Point { x: side, y: side },
            v0: top,
            v1: right,
        }
    } else {
        Corners {
            apex: Point { x: 0, y: 0 },
            v0: right,
            v1: top,
        }
    }
}

/// The corners of the left or the right child.
pub fn child_corners(corners: Corners, right: bool) -> Corners
    requires within { IsWithin (2 ^ GREATEST_LEVEL) corners }
    ensures { result ≡ child (if right then 1 else 0) corners }
{
    let apex = point_between(corners.v0, corners.v1);
    if right {
        Corners {
            apex,
            v0: corners.v1,
            v1: corners.apex,
        }
    } else {
        Corners {
            apex,
            v0: corners.apex,
            v1: corners.v0,
        }
    }
}

/// Whether r lies left of the line from p to q, or on it.
pub fn is_left(r: Point, p: Point, q: Point) -> bool
    requires r_in_square { IsInSquare (2 ^ GREATEST_LEVEL) r }
    requires p_in_square { IsInSquare (2 ^ GREATEST_LEVEL) p }
    requires q_in_square { IsInSquare (2 ^ GREATEST_LEVEL) q }
    ensures { result ≡ is_left_or_on r p q }
{
    let right_side = p.y * q.x + q.y * r.x + r.y * p.x;
    let left_side = p.x * q.y + q.x * r.y + r.x * p.y;
    right_side <= left_side
}
