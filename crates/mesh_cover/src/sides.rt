//! The rows of the right side, each of which lies in exactly one edge: a mark for each row.

ghost use Rattle.std.specs.Prelude.{◌≡◌, ℕ, ◌+◌, ◌*◌, ◌/◌, ◌^◌, ◌<◌, ◌≤◌, ◌⊎◌, ◌↔◌, IsTrue, IsFalse, IfSome, IfNone, length, slice_index, true, false};
ghost use Rattle.mesh_cover.specs.Mesh.{rise_at};
ghost use Rattle.mesh_cover.specs.Conforming.{corner_in, is_marked, AreRows, IsMarkStep, IsFirst, IsSingle};

use crate::seams::{corner_at, next};
use mesh_defs::Point;

/// Takes all marks away.
pub(crate) fn clear(rows: &mut [bool])
    ensures { (y : ℕ) → is_marked rows.new y ≡ false }
{
    for row in rows.iter_mut() {
        *row = false;
    }
}

/// Marks the rows from low on and before high, unless one is marked.
fn mark_rows(rows: &mut [bool], low: u32, high: u32) -> bool
    requires ordered { low ≤ high }
    requires within { high ≤ length rows.old }
    ensures fresh { IsTrue result → (y : ℕ) → low ≤ y → y < high → is_marked rows.old y ≡ false }
    ensures marked { IsTrue result → (y : ℕ) → low ≤ y → y < high → is_marked rows.new y ≡ true }
    ensures kept { (y : ℕ) → (y < low) ⊎ (high ≤ y) → is_marked rows.new y ≡ is_marked rows.old y }
    ensures taken { IsFalse result → (y : ℕ) × (low ≤ y) × (y < high) × (is_marked rows.old y ≡ true) }
{
    for y in low..high {
        if rows[y as usize] {
            return false;
        }
        rows[y as usize] = true;
    }
    true
}

/// Marks the rows of an edge of the right side, unless one is marked.
fn mark_edge(
    right: u32,
    top: u32,
    points: &[Point],
    corners: &[u32],
    across: &[u32],
    h: usize,
    rows: &mut [bool],
) -> bool
    requires within { h < length corners.now }
    requires threes { length corners.now ≡ length corners.now / 3 * 3 }
    requires few { length corners.now ≤ 50331648 }
    requires across { length across.now ≡ length corners.now }
    requires vertices { (k : ℕ) → k < length corners.now → slice_index corners.now k < length points.now }
    requires rows { length rows.old ≡ top }
    ensures marked { IsTrue result → (y : ℕ) → y < top →
        IsMarkStep (rise_at right (corner_in points.now corners.now) (slice_index across.now) y h)
        (is_marked rows.old y) (is_marked rows.new y) }
    ensures taken { IsFalse result → (y : ℕ) × (y < top) × (is_marked rows.old y ≡ true)
        × (rise_at right (corner_in points.now corners.now) (slice_index across.now) y h ≡ 1) }
{
    let from = corner_at(points, corners, h);
    let to = corner_at(points, corners, next(h, corners.len() / 3));
    if across[h] as usize != h || from.x != right || to.x != right {
        return true;
    }
    let end = to.y.min(top);
    end <= from.y || mark_rows(rows, from.y, end)
}

/// Marks the rows of the edges of the right side; the first edge that shares a row with one before.
pub(crate) fn first_doubled(
    right: u32,
    top: u32,
    points: &[Point],
    corners: &[u32],
    across: &[u32],
    rows: &mut [bool],
) -> Option<usize>
    requires threes { length corners.now ≡ length corners.now / 3 * 3 }
    requires few { length corners.now ≤ 50331648 }
    requires across { length across.now ≡ length corners.now }
    requires vertices { (k : ℕ) → k < length corners.now → slice_index corners.now k < length points.now }
    requires rows { length rows.old ≡ top }
    requires clear { (y : ℕ) → is_marked rows.old y ≡ false }
    ensures none { IfNone result
        (AreRows right top points.now corners.now across.now rows.new (length corners.now)) }
    ensures some { IfSome result
        (IsFirst (IsSingle right top points.now corners.now across.now) (length corners.now)) }
{
    for h in 0..corners.len() {
        if !mark_edge(right, top, points, corners, across, h, rows) {
            return Some(h);
        }
    }
    None
}

/// The first row without a mark.
pub(crate) fn first_bare(rows: &[bool]) -> Option<usize>
    ensures none { IfNone result ((y : ℕ) → y < length rows.now → is_marked rows.now y ≡ true) }
    ensures some { IfSome result (IsFirst (λ y. is_marked rows.now y ≡ true) (length rows.now)) }
{
    for (y, row) in rows.iter().enumerate() {
        if !*row {
            return Some(y);
        }
    }
    None
}
