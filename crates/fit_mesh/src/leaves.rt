//! The leaves that wait for a split, the one with the greatest error first.

ghost use Rattle.std.specs.Prelude.{◌≡◌, ℕ, ◌+◌, ◌*◌, ◌^◌, ◌/◌, ◌<◌, ◌≤◌, ◌⊎◌, IfSome, IfNone, [], Contains, false};
ghost use Rattle.std.specs.Prelude.{slice_index_or};
ghost use Rattle.std.specs.BinaryHeap.{IsHeap, heap_items, heap_len, heap_capacity};
ghost use Rattle.mesh_defs.specs.Triangle.{level_of, corners_of, IsAddress, IsSplittable};
ghost use Rattle.mesh_laws.specs.Sweep.{is_flagged};
ghost use Rattle.fit_laws.specs.Error.{error_of};
ghost use Rattle.fit_mesh.specs.Waiting.{pair_cmp, AreKept, AreLeft, IsFirst};

use crate::error::error_at;
use crate::pair::{corners_below, has_open_child};
use address_flags::is_set;
use bintree_addr::{Corners, Tri};
use pgm_grid::Grid;
use std::collections::BinaryHeap;

/// Lets the triangle wait, where it has an error.
fn push_leaf(grid: &Grid, heap: &mut BinaryHeap<(u32, u32)>, t: Tri, corners: Corners)
    requires level { level_of t ≤ 2 * grid.now.n }
    requires corners { corners ≡ corners_of grid.now.n t }
    requires room { heap_len heap.old < heap_capacity heap.old }
    requires ordered { IsHeap pair_cmp (heap_items heap.old) }
    ensures capacity { heap_capacity heap.old ≤ heap_capacity heap.new }
    ensures len { heap_len heap.new ≤ heap_len heap.old + 1 }
    ensures ordered { IsHeap pair_cmp (heap_items heap.new) }
    ensures kept { AreKept (heap_items heap.old) (heap_items heap.new) }
    ensures added { let e = error_of grid.now.n grid.now.heights in
        0 < e t → Contains (heap_items heap.new) (e t, t) }
    ensures only { let e = error_of grid.now.n grid.now.heights in
        (r : ℕ × ℕ) → Contains (heap_items heap.new) r →
        Contains (heap_items heap.old) r ⊎ ((r ≡ (e t, t)) × (0 < e t)) }
{
    let worst = error_at(grid, t, corners);
    if worst > 0 {
        let Ok(()) = heap.push((worst, t.number())) else {
            unreachable!()
        };
    }
}

/// The same, where it is not split.
pub fn push_unsplit(
    grid: &Grid,
    heap: &mut BinaryHeap<(u32, u32)>,
    flags: &[bool],
    t: Tri,
    corners: Corners,
)
    requires level { level_of t ≤ 2 * grid.now.n }
    requires corners { corners ≡ corners_of grid.now.n t }
    requires room { heap_len heap.old < heap_capacity heap.old }
    requires ordered { IsHeap pair_cmp (heap_items heap.old) }
    ensures capacity { heap_capacity heap.old ≤ heap_capacity heap.new }
    ensures len { heap_len heap.new ≤ heap_len heap.old + 1 }
    ensures ordered { IsHeap pair_cmp (heap_items heap.new) }
    ensures kept { AreKept (heap_items heap.old) (heap_items heap.new) }
    ensures added { let e = error_of grid.now.n grid.now.heights in
        is_flagged flags.now t ≡ false → 0 < e t → Contains (heap_items heap.new) (e t, t) }
    ensures only { let e = error_of grid.now.n grid.now.heights in
        (r : ℕ × ℕ) → Contains (heap_items heap.new) r →
        Contains (heap_items heap.old) r ⊎ ((r ≡ (e t, t)) × (0 < e t)) }
{
    if !is_set(flags, t) {
        push_leaf(grid, heap, t, corners);
    }
}

/// Lets the children of a triangle wait that are not split.
pub fn push_pair(grid: &Grid, heap: &mut BinaryHeap<(u32, u32)>, flags: &[bool], t: Tri)
    requires splittable { IsSplittable grid.now.n t }
    requires room { heap_len heap.old + 2 ≤ heap_capacity heap.old }
    requires ordered { IsHeap pair_cmp (heap_items heap.old) }
    ensures capacity { heap_capacity heap.old ≤ heap_capacity heap.new }
    ensures len { heap_len heap.new ≤ heap_len heap.old + 2 }
    ensures ordered { IsHeap pair_cmp (heap_items heap.new) }
    ensures kept { AreKept (heap_items heap.old) (heap_items heap.new) }
    ensures added { let e = error_of grid.now.n grid.now.heights in
        (a : ℕ) → 2 ≤ a → a / 2 ≡ t → is_flagged flags.now a ≡ false → 0 < e a →
        Contains (heap_items heap.new) (e a, a) }
    ensures only { let e = error_of grid.now.n grid.now.heights in
        (r : ℕ × ℕ) → Contains (heap_items heap.new) r → Contains (heap_items heap.old) r
        ⊎ ((r.1 / 2 ≡ t) × (4 ≤ r.1) × (r.0 ≡ e r.1) × (0 < r.0) × IsAddress grid.now.n r.1) }
{
    if !has_open_child(flags, grid.n(), t) {
        return;
    }
    let (left, right) = corners_below(grid, t);
    push_unsplit(grid, heap, flags, t.left(), left);
    push_unsplit(grid, heap, flags, t.right(), right);
}

/// The leaf with the greatest error, where one has an error. Drops what was split before.
pub fn next_leaf(heap: &mut BinaryHeap<(u32, u32)>, flags: &[bool]) -> Option<(u32, u32)>
    requires ordered { IsHeap pair_cmp (heap_items heap.old) }
    ensures capacity { heap_capacity heap.new ≡ heap_capacity heap.old }
    ensures len { heap_len heap.new ≤ heap_len heap.old }
    ensures ordered { IsHeap pair_cmp (heap_items heap.new) }
    ensures left { AreLeft (is_flagged flags.now) (heap_items heap.old) (heap_items heap.new) }
    ensures only { AreKept (heap_items heap.new) (heap_items heap.old) }
    ensures none { IfNone result (heap_items heap.new ≡ []) }
    ensures first { IfSome result (IsFirst (is_flagged flags.now) (heap_items heap.new)) }
{
    while let Some(first) = heap.peek() {
        let (error, number) = *first;
        if !is_split(flags, number) {
            return Some((error, number));
        }
        drop_first(heap);
    }
    None
}

/// Whether the triangle with this number is flagged.
fn is_split(flags: &[bool], number: u32) -> bool
    ensures { result ≡ is_flagged flags.now number }
{
    let place = number as usize;
    place < flags.len() && flags[place]
}

/// Takes the first entry away.
fn drop_first(heap: &mut BinaryHeap<(u32, u32)>)
    requires some { 0 < heap_len heap.old }
    requires ordered { IsHeap pair_cmp (heap_items heap.old) }
    ensures capacity { heap_capacity heap.new ≡ heap_capacity heap.old }
    ensures ordered { IsHeap pair_cmp (heap_items heap.new) }
    ensures len { heap_len heap.new + 1 ≡ heap_len heap.old }
    ensures only { AreKept (heap_items heap.new) (heap_items heap.old) }
    ensures rest { (r : ℕ × ℕ) → Contains (heap_items heap.old) r →
        (r ≡ slice_index_or (heap_items heap.old) 0 r) ⊎ Contains (heap_items heap.new) r }
{
    let Some(_first) = heap.pop() else {
        unreachable!()
    };
}
