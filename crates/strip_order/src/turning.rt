//! The turn of a strip at a triangle.

ghost use Rattle.std.specs.Prelude.{◌≡◌, ◌≢◌, ◌≤◌, ◌↔◌, ◌*◌, ◌+◌, ◌<◌, true, ℕ, Bool, List, length, Contains};
ghost use Rattle.mesh_defs.specs.ClosedSet.{IsClosed, leaves_of};
ghost use Rattle.mesh_defs.specs.declared.point.Point.{Point};
ghost use Rattle.mesh_defs.specs.Triangle.{level_of, IsEdge};
ghost use Rattle.mesh_defs.specs.declared.level.TheConstants.{GREATEST_LEVEL};
ghost use Rattle.mesh_laws.specs.Strip.{SharesEdge, strip_of};
ghost use Rattle.mesh_laws.specs.Turn.{HasEdgeBack, IsLeftTurn, IsRightTurn, HasTurns};
ghost use Rattle.strip_order.specs.declared.sides.Turn.TheVariants.{Left, Right};

use crate::sides::{Turn, Turns};
use bintree_addr::{Corners, Point, Tri};
use mesh_laws::Edge;

/// The turn at `t` of a strip of leaves of one mesh: never to both sides (`turn_laws` of `mesh_laws`).
///
/// Cost (not proved): that of three times `Tri::corners`.
pub fn turn(before: Tri, t: Tri, after: Tri, n: u32) -> Turn
    requires in_grid { (1 ≤ n) × (n ≤ GREATEST_LEVEL) }
    requires levels { (level_of before ≤ 2 * n) × ((level_of t ≤ 2 * n) × (level_of after ≤ 2 * n)) }
    requires mesh { (has : ℕ → Bool) × IsClosed n has × (Contains (leaves_of n has) before
        × (Contains (leaves_of n has) t × Contains (leaves_of n has) after)) }
    requires other { before ≢ after }
    requires entered { SharesEdge n before t }
    requires left { SharesEdge n t after }
    ensures left { result ≡ Left → IsLeftTurn n before t after }
    ensures right { result ≡ Right → IsRightTurn n before t after }
{
    let corners = t.corners(n);
    let entry = shared_edge(corners, before.corners(n));
    let exit = shared_edge(corners, after.corners(n));
    match (entry, exit) {
        (Edge::LeftLeg, Edge::Base)
        | (Edge::Base, Edge::RightLeg)
        | (Edge::RightLeg, Edge::LeftLeg) => Turn::Right,
        _ => Turn::Left,
    }
}

/// The turns of a strip.
///
/// Cost (not proved): that of `turn` for each triangle.
pub fn turns(order: &[Tri], n: u32) -> Turns
    requires in_grid { (1 ≤ n) × (n ≤ GREATEST_LEVEL) }
    requires strip { (has : ℕ → Bool) × IsClosed n has × (order.now ≡ strip_of n has) }
    ensures turns { HasTurns n order.now result.left result.right }
    ensures all { length order.now ≡ result.left + result.right + 2 }
{
    let mut left = 0;
    let mut right = 0;
    for at in (1..order.len() - 1).rev() {
        match turn(order[at - 1], order[at], order[at + 1], n) {
            Turn::Left => left += 1,
            Turn::Right => right += 1,
        }
    }
    Turns { left, right }
}

/// The edge of the one triangle that the other has in the other direction.
fn shared_edge(here: Corners, there: Corners) -> Edge
    requires { (p : Point) × (q : Point) × IsEdge here p q × IsEdge there q p }
    ensures { HasEdgeBack result here there }
{
    if has_edge(there, here.v0, here.apex) {
        Edge::LeftLeg
    } else if has_edge(there, here.v1, here.v0) {
        Edge::Base
    } else {
        Edge::RightLeg
    }
}

/// Whether the edge from p to q is one of the triangle, counterclockwise.
fn has_edge(corners: Corners, p: Point, q: Point) -> bool
    ensures { (result ≡ true) ↔ IsEdge corners p q }
{
    (p == corners.apex && q == corners.v0)
        || (p == corners.v0 && q == corners.v1)
        || (p == corners.v1 && q == corners.apex)
}
