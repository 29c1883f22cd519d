//! The areas between a point and the three edges of a triangle.

use bintree_addr::{Corners, Point};

/// Twice the area of the triangle of a point and an edge: a sum from which another is taken, so that neither is
/// negative.
#[derive(Clone, Copy)]
pub(crate) struct Across {
    pub(crate) high: u32,
    pub(crate) low: u32,
}

/// Those of the three edges, each named by the corner across from it.
#[derive(Clone, Copy)]
pub(crate) struct Areas {
    pub(crate) apex: Across,
    pub(crate) v0: Across,
    pub(crate) v1: Across,
}

impl Across {
    ghost use Rattle.std.specs.Prelude.{◌≡◌, ◌-◌, ◌^◌, ◌≤◌};
    ghost use Rattle.mesh_defs.specs.declared.level.TheConstants.{GREATEST_LEVEL};
    ghost use Rattle.bintree_laws.specs.Corners.{IsInSquare};
    ghost use Rattle.mesh_measure.specs.Areas.{AreSumsAcross};

    /// Of the edge from p to q.
    #[inline(always)]
    pub(crate) fn of(r: Point, p: Point, q: Point) -> Self
        requires r_in_grid { IsInSquare (2 ^ GREATEST_LEVEL) r }
        requires p_in_grid { IsInSquare (2 ^ GREATEST_LEVEL) p }
        requires q_in_grid { IsInSquare (2 ^ GREATEST_LEVEL) q }
        ensures value { AreSumsAcross r p q result }
        ensures high { result.high ≤ 805306368 }
        ensures low { result.low ≤ 805306368 }
    {
        Across {
            high: p.x * q.y + q.x * r.y + r.x * p.y,
            low: p.y * q.x + q.y * r.x + r.y * p.x,
        }
    }

    /// Twice the area, or 0 where the point lies right of the edge.
    pub(crate) fn area(self) -> u32
        ensures value { result ≡ self.high - self.low }
        ensures small { result ≤ self.high }
    {
        self.high.saturating_sub(self.low)
    }
}

impl Areas {
    ghost use Rattle.std.specs.Prelude.{◌≡◌, ◌^◌};
    ghost use Rattle.mesh_defs.specs.declared.point.Point.{Point};
    ghost use Rattle.mesh_defs.specs.declared.point.Corners.{Corners};
    ghost use Rattle.mesh_defs.specs.BoundingBox.{is_in_closed};
    ghost use Rattle.mesh_defs.specs.declared.level.TheConstants.{GREATEST_LEVEL};
    ghost use Rattle.bintree_laws.specs.Corners.{IsWithin, IsInSquare};
    ghost use Rattle.mesh_measure.specs.Areas.{AreAcross, AreSmall};

    /// At a point.
    #[inline(always)]
    pub(crate) fn of(corners: Corners, r: Point) -> Self
        requires in_grid { IsWithin (2 ^ GREATEST_LEVEL) corners }
        requires point_in_grid { IsInSquare (2 ^ GREATEST_LEVEL) r }
        ensures value { AreAcross corners r result }
        ensures small { AreSmall result }
    {
        Areas {
            apex: Across::of(r, corners.v0, corners.v1),
            v0: Across::of(r, corners.v1, corners.apex),
            v1: Across::of(r, corners.apex, corners.v0),
        }
    }

    /// Whether the point lies in the closed triangle: right of no edge.
    pub(crate) fn is_held(self) -> bool
        ensures { (c : Corners) (r : Point) → AreAcross c r self → result ≡ is_in_closed c r }
    {
        self.v1.low <= self.v1.high
            && (self.apex.low <= self.apex.high && self.v0.low <= self.v0.high)
    }
}
