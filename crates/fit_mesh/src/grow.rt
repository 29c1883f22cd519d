//! The least greatest error for a budget: the worst leaf is split, again and again.

ghost use Rattle.std.specs.Prelude.{◌≡◌, ℕ, ◌+◌, ◌*◌, ◌-◌, ◌^◌, ◌/◌, ◌<◌, ◌≤◌, ◌⊎◌, [], Contains, IfSome, IfNone, length, drop, vec_capacity};
ghost use Rattle.std.specs.BinaryHeap.{IsHeap, heap_items, heap_len, heap_capacity};
ghost use Rattle.mesh_defs.specs.Triangle.{IsAddress, IsSplittable};
ghost use Rattle.mesh_defs.specs.ClosedSet.{IsLeastClosed, leaves_of};
ghost use Rattle.mesh_defs.specs.Greedy.{with_triangle};
ghost use Rattle.mesh_defs.specs.Priority.{worst_of};
ghost use Rattle.mesh_laws.specs.Sweep.{is_flagged};
ghost use Rattle.fit_laws.specs.Error.{error_of};
ghost use Rattle.fit_mesh.specs.Log.{Extends, HasLog};
ghost use Rattle.fit_mesh.specs.Waiting.{pair_cmp, IsPending, IsWaiting, IsWorstLeaf};
ghost use Rattle.fit_mesh.specs.Grown.{IsNeededBelow, IsBest};
ghost use Rattle.fit_mesh.specs.Found.{IsFound};

use crate::force::{force, set_back};
use crate::leaves::{next_leaf, push_pair, push_unsplit};
use crate::start::start;
use bintree_addr::Tri;
use mesh_measure::corners_in;
use pgm_grid::Grid;
use std::collections::BinaryHeap;

/// How far refinement has come: the least greatest error so far, and how long the log was when the mesh had it.
#[derive(Clone, Copy)]
struct Growth {
    low: u32,
    mark: usize,
}

/// Flags the mesh for a tolerance and a budget: the fewest triangles with no error above the tolerance, or,
/// where these are more than the budget, the least greatest error within it. Answers the greatest error.
///
/// Takes no memory: there is room in the heap.
pub fn grow(
    grid: &Grid,
    tolerance: u32,
    budget: usize,
    heap: &mut BinaryHeap<(u32, u32)>,
    flags: &mut [bool],
    log: &mut Vec<Tri>,
) -> u32
    requires some { 2 ≤ budget }
    requires capacity { 2 * budget ≤ heap_capacity heap.old }
    requires flags { length flags.old ≡ 2 ^ (2 * grid.now.n + 1) }
    requires room { 2 ^ (2 * grid.now.n + 1) ≤ vec_capacity log.old }
    ensures capacity { heap_capacity heap.old ≤ heap_capacity heap.new }
    ensures flags { length flags.new ≡ length flags.old }
    ensures room { vec_capacity log.new ≡ vec_capacity log.old }
    ensures found { let e = error_of grid.now.n grid.now.heights in
        IsFound grid.now.n tolerance budget e (is_flagged flags.new) }
    ensures worst { let e = error_of grid.now.n grid.now.heights in
        result ≡ worst_of e (leaves_of grid.now.n (is_flagged flags.new)) }
{
    let _level = grid.n();
    start(grid, tolerance, budget, flags, log);
    heap.clear();
    fill(grid, heap, flags, log);
    let first = greatest_waiting(grid, heap, flags, log);
    let growth = refine(grid, tolerance, budget, heap, flags, log, first);
    set_back(flags, log, growth.mark);
    growth.low
}

/// Lets all leaves wait.
fn fill(grid: &Grid, heap: &mut BinaryHeap<(u32, u32)>, flags: &[bool], log: &[Tri])
    requires grown { HasLog grid.now.n flags.now log.now }
    requires room { 2 * length log.now + 2 ≤ heap_capacity heap.old }
    requires empty { heap_items heap.old ≡ [] }
    requires len { heap_len heap.old ≡ 0 }
    requires ordered { IsHeap pair_cmp (heap_items heap.old) }
    ensures capacity { heap_capacity heap.old ≤ heap_capacity heap.new }
    ensures len { heap_len heap.new ≤ 2 * length log.now + 2 }
    ensures waiting { let e = error_of grid.now.n grid.now.heights in
        IsWaiting grid.now.n e (is_flagged flags.now) (heap_items heap.new) }
{
    let _level = grid.n();
    push_unsplit(grid, heap, flags, Tri::LOWER, corners_in(grid, Tri::LOWER));
    push_unsplit(grid, heap, flags, Tri::UPPER, corners_in(grid, Tri::UPPER));
    push_children(grid, heap, flags, log, 0);
}

/// The greatest error of a leaf.
fn greatest_waiting(
    grid: &Grid,
    heap: &mut BinaryHeap<(u32, u32)>,
    flags: &[bool],
    log: &[Tri],
) -> u32
    requires grown { HasLog grid.now.n flags.now log.now }
    requires waiting { let e = error_of grid.now.n grid.now.heights in
        IsWaiting grid.now.n e (is_flagged flags.now) (heap_items heap.old) }
    ensures capacity { heap_capacity heap.new ≡ heap_capacity heap.old }
    ensures len { heap_len heap.new ≤ heap_len heap.old }
    ensures waiting { let e = error_of grid.now.n grid.now.heights in
        IsWaiting grid.now.n e (is_flagged flags.now) (heap_items heap.new) }
    ensures value { let e = error_of grid.now.n grid.now.heights in
        result ≡ worst_of e (leaves_of grid.now.n (is_flagged flags.now)) }
{
    match worst_leaf(grid, heap, flags, log) {
        None => 0,
        Some(first) => first.0,
    }
}

/// The worst leaf with its error; none where no leaf has one.
fn worst_leaf(
    grid: &Grid,
    heap: &mut BinaryHeap<(u32, u32)>,
    flags: &[bool],
    log: &[Tri],
) -> Option<(u32, u32)>
    requires grown { HasLog grid.now.n flags.now log.now }
    requires waiting { let e = error_of grid.now.n grid.now.heights in
        IsWaiting grid.now.n e (is_flagged flags.now) (heap_items heap.old) }
    ensures capacity { heap_capacity heap.new ≡ heap_capacity heap.old }
    ensures len { heap_len heap.new ≤ heap_len heap.old }
    ensures waiting { let e = error_of grid.now.n grid.now.heights in
        IsWaiting grid.now.n e (is_flagged flags.now) (heap_items heap.new) }
    ensures none { let e = error_of grid.now.n grid.now.heights in
        IfNone result (worst_of e (leaves_of grid.now.n (is_flagged flags.now)) ≡ 0) }
    ensures worst { let e = error_of grid.now.n grid.now.heights in
        IfSome result (IsWorstLeaf grid.now.n e (is_flagged flags.now)) }
{
    next_leaf(heap, flags)
}

/// Splits a leaf, with what that forces.
fn split_leaf(grid: &Grid, flags: &mut [bool], log: &mut Vec<Tri>, number: u32)
    requires grown { HasLog grid.now.n flags.old log.old.items }
    requires room { 2 ^ (2 * grid.now.n + 1) ≤ vec_capacity log.old }
    requires splittable { IsSplittable grid.now.n number }
    requires leaf { Contains (leaves_of grid.now.n (is_flagged flags.old)) number }
    ensures capacity { vec_capacity log.new ≡ vec_capacity log.old }
    ensures grown { HasLog grid.now.n flags.new log.new.items }
    ensures kept { Extends log.old.items log.new.items }
    ensures more { length log.old.items < length log.new.items }
    ensures least { IsLeastClosed grid.now.n (with_triangle (is_flagged flags.old) number) (is_flagged flags.new) }
    ensures needed { let e = error_of grid.now.n grid.now.heights in (low : ℕ) → low ≤ e number →
        IsNeededBelow grid.now.n e low (is_flagged flags.old) →
        IsNeededBelow grid.now.n e low (is_flagged flags.new) }
{
    let _level = grid.n();
    let t = Tri::at(number).unwrap();
    force(flags, log, grid.n(), t);
}

/// Splits the leaf with the greatest error, with what that forces, until no error exceeds the tolerance or the
/// budget is exceeded. Each time the greatest error falls below all before it, the set is marked.
///
/// What was split since the last mark is needed by every mesh with a lower greatest error.
fn refine(
    grid: &Grid,
    tolerance: u32,
    budget: usize,
    heap: &mut BinaryHeap<(u32, u32)>,
    flags: &mut [bool],
    log: &mut Vec<Tri>,
    first: u32,
) -> Growth
    requires some { 2 ≤ budget }
    requires capacity { 2 * budget ≤ heap_capacity heap.old }
    requires len { heap_len heap.old ≤ 2 * length log.old.items + 2 }
    requires few { length log.old.items + 2 ≤ budget }
    requires room { 2 ^ (2 * grid.now.n + 1) ≤ vec_capacity log.old }
    requires grown { HasLog grid.now.n flags.old log.old.items }
    requires waiting { let e = error_of grid.now.n grid.now.heights in
        IsWaiting grid.now.n e (is_flagged flags.old) (heap_items heap.old) }
    requires needed { let e = error_of grid.now.n grid.now.heights in
        IsNeededBelow grid.now.n e first (is_flagged flags.old) }
    requires best { let e = error_of grid.now.n grid.now.heights in
        IsBest grid.now.n e tolerance budget first log.old.items (length log.old.items) }
    ensures capacity { heap_capacity heap.old ≤ heap_capacity heap.new }
    ensures room { vec_capacity log.new ≡ vec_capacity log.old }
    ensures grown { HasLog grid.now.n flags.new log.new.items }
    ensures best { let e = error_of grid.now.n grid.now.heights in
        IsBest grid.now.n e tolerance budget result.low log.new.items result.mark }
    ensures end { let e = error_of grid.now.n grid.now.heights in
        (result.low ≤ tolerance) ⊎ (IsNeededBelow grid.now.n e result.low (is_flagged flags.new)
        × (budget < length (leaves_of grid.now.n (is_flagged flags.new)))) }
{
    let _level = grid.n();
    let mut low = first;
    let mut mark = log.len();
    while low > tolerance {
        match worst_leaf(grid, heap, flags, log) {
            None => {
                low = 0;
                mark = log.len();
            }
            Some((error, number)) => {
                if error < low {
                    low = error;
                    mark = log.len();
                } else {
                    let before = log.len();
                    split_leaf(grid, flags, log, number);
                    if log.len() > budget - 2 {
                        return Growth { low, mark };
                    }
                    push_children(grid, heap, flags, log, before);
                }
            }
        }
    }
    Growth { low, mark }
}

/// Lets the children of the members wait that the log has from this place on.
fn push_children(
    grid: &Grid,
    heap: &mut BinaryHeap<(u32, u32)>,
    flags: &[bool],
    log: &[Tri],
    before: usize,
)
    requires grown { HasLog grid.now.n flags.now log.now }
    requires place { before ≤ length log.now }
    requires room { heap_len heap.old + 2 * (length log.now - before) ≤ heap_capacity heap.old }
    requires pending { let e = error_of grid.now.n grid.now.heights in
        IsPending grid.now.n e (is_flagged flags.now) (drop before log.now) (heap_items heap.old) }
    ensures capacity { heap_capacity heap.old ≤ heap_capacity heap.new }
    ensures len { heap_len heap.new ≤ heap_len heap.old + 2 * (length log.now - before) }
    ensures waiting { let e = error_of grid.now.n grid.now.heights in
        IsWaiting grid.now.n e (is_flagged flags.now) (heap_items heap.new) }
{
    for place in before..log.len() {
        push_pair(grid, heap, flags, log[place]);
    }
}
