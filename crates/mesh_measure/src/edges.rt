//! The columns of a row that a triangle holds, by where the row meets the lines of the edges.
//!
//! An edge is upright or level, or goes a column a row, so a sum gives that column.

ghost use Rattle.std.specs.Prelude.{◌≡◌, ◌^◌, ◌<◌, ◌≤◌, ◌↔◌, ℕ, true, false};
ghost use Rattle.mesh_defs.specs.BoundingBox.{point, is_left_or_on, is_in_closed};
ghost use Rattle.mesh_defs.specs.declared.level.TheConstants.{GREATEST_LEVEL};
ghost use Rattle.bintree_laws.specs.Corners.{IsWithin, IsInSquare};
ghost use Rattle.mesh_measure.specs.Columns.{IsColumn};
ghost use Rattle.mesh_measure.specs.Edges.{IsStraight, HasStraightEdges};

use crate::columns::Columns;
use bintree_addr::{Corners, Point};

/// Of these columns, those whose points in row y the triangle holds.
#[inline(always)]
pub(crate) fn held_columns(corners: Corners, y: u32, columns: Columns) -> Columns
    requires in_grid { IsWithin (2 ^ GREATEST_LEVEL) corners }
    requires row { y ≤ 2 ^ GREATEST_LEVEL }
    requires straight { HasStraightEdges corners }
    ensures { (x : ℕ) → IsColumn result x
        ↔ (IsColumn columns x × (is_in_closed corners (point x y) ≡ true)) }
{
    let left = left_of(corners.apex, corners.v0, y, columns);
    let base = left_of(corners.v0, corners.v1, y, left);
    left_of(corners.v1, corners.apex, y, base)
}

/// Of these columns, those whose points in row y lie left of the edge from p to q or on it.
#[inline(always)]
fn left_of(p: Point, q: Point, y: u32, columns: Columns) -> Columns
    requires p_in_grid { IsInSquare (2 ^ GREATEST_LEVEL) p }
    requires q_in_grid { IsInSquare (2 ^ GREATEST_LEVEL) q }
    requires row { y ≤ 2 ^ GREATEST_LEVEL }
    requires straight { IsStraight p q }
    ensures { (x : ℕ) → IsColumn result x
        ↔ (IsColumn columns x × (is_left_or_on (point x y) p q ≡ true)) }
{
    if q.y < p.y {
        Columns {
            from: columns.from.max(first_beside(p, q, y)),
            end: columns.end,
        }
    } else if p.y < q.y {
        Columns {
            from: columns.from,
            end: columns.end.min(end_beside(p, q, y)),
        }
    } else if is_beyond(p, q, y) {
        Columns {
            from: columns.end,
            end: columns.end,
        }
    } else {
        columns
    }
}

/// The first column beside an edge that goes down, which has them on its left.
#[inline(always)]
fn first_beside(p: Point, q: Point, y: u32) -> u32
    requires p_in_grid { IsInSquare (2 ^ GREATEST_LEVEL) p }
    requires row { y ≤ 2 ^ GREATEST_LEVEL }
    requires straight { IsStraight p q }
    requires down { q.y < p.y }
    ensures { (x : ℕ) → (result ≤ x) ↔ (is_left_or_on (point x y) p q ≡ true) }
{
    if p.x == q.x {
        p.x
    } else if p.x < q.x {
        (p.x + p.y).saturating_sub(y)
    } else {
        (p.x + y).saturating_sub(p.y)
    }
}

/// The end of the columns beside an edge that goes up.
#[inline(always)]
fn end_beside(p: Point, q: Point, y: u32) -> u32
    requires p_in_grid { IsInSquare (2 ^ GREATEST_LEVEL) p }
    requires row { y ≤ 2 ^ GREATEST_LEVEL }
    requires straight { IsStraight p q }
    requires up { p.y < q.y }
    ensures { (x : ℕ) → (x < result) ↔ (is_left_or_on (point x y) p q ≡ true) }
{
    if p.x == q.x {
        p.x + 1
    } else if p.x < q.x {
        (p.x + y + 1).saturating_sub(p.y)
    } else {
        (p.x + p.y + 1).saturating_sub(y)
    }
}

/// Whether the row lies on the outer side of a level edge.
#[inline(always)]
fn is_beyond(p: Point, q: Point, y: u32) -> bool
    requires level { p.y ≡ q.y }
    ensures outer { result ≡ true → (x : ℕ) → is_left_or_on (point x y) p q ≡ true → ⊥ }
    ensures inner { result ≡ false → (x : ℕ) → is_left_or_on (point x y) p q ≡ true }
{
    if p.x < q.x {
        return y < p.y;
    }
    q.x < p.x && p.y < y
}
