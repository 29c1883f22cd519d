//! The sides of a tile, numbered as its quarters: lower, left, upper and right; and the tiles beyond.

ghost use Rattle.std.specs.Prelude.{◌≡◌, ℕ, ◌+◌, ◌*◌, ◌%◌, ◌<◌, IfSome, IfNone};
ghost use Rattle.mesh_defs.specs.declared.point.Point.{Point};
ghost use Rattle.mosaic_laws.specs.Tile.{IsTile};
ghost use Rattle.mosaic_rounds.specs.Side.{IsNeighbour};

use crate::shape::Shape;
use mesh_defs::Point;

/// The side of the tile beyond that faces this one.
pub fn facing(side: u32) -> u32
    requires side { side < 4 }
    ensures value { result ≡ (side + 2) % 4 }
{
    (side + 2) % 4
}

/// The tile beyond this side, if there is one.
pub fn beyond(shape: Shape, t: Point, side: u32) -> Option<Point>
    requires side { side < 4 }
    requires tile { IsTile shape.columns shape.rows t }
    ensures some { IfSome result (λ u. IsTile shape.columns shape.rows u × IsNeighbour side t u) }
    ensures none { IfNone result ((u : Point) →
        IsTile shape.columns shape.rows u → IsNeighbour side t u → ⊥) }
{
    let Point { x, y } = t;
    match side {
        0 if y > 0 => Some(Point { x, y: y - 1 }),
        1 if x > 0 => Some(Point { x: x - 1, y }),
        2 if y + 1 < shape.rows => Some(Point { x, y: y + 1 }),
        3 if x + 1 < shape.columns => Some(Point { x: x + 1, y }),
        _ => None,
    }
}
