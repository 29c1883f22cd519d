//! The set of the mesh for a tolerance and a budget.

ghost use Rattle.std.specs.Prelude.{◌≡◌, ℕ, ◌+◌, ◌*◌, ◌^◌, ◌<◌, ◌≤◌, IfSome, IfNone, length, vec_capacity};
ghost use Rattle.std.specs.BinaryHeap.{heap_capacity};
ghost use Rattle.mesh_defs.specs.ClosedSet.{leaves_of};
ghost use Rattle.mesh_defs.specs.Priority.{worst_of};
ghost use Rattle.mesh_laws.specs.Sweep.{is_flagged};
ghost use Rattle.fit_laws.specs.Error.{error_of};
ghost use Rattle.fit_mesh.specs.Found.{IsFound};

use crate::grow::grow;
use crate::limit::Limit;
use crate::required::Required;
use crate::settle::settle_anew;
use address_flags::end;
use bintree_addr::Tri;
use pgm_grid::Grid;
use std::collections::BinaryHeap;

/// Flags the set of the mesh. Answers its greatest error, where that is known.
///
/// Where the budget is no bound, whatever is worse than the tolerance is split, in any order.
pub fn find(
    grid: &Grid,
    tolerance: u32,
    budget: u32,
    heap: &mut BinaryHeap<(u32, u32)>,
    flags: &mut [bool],
    log: &mut Vec<Tri>,
) -> Option<u32>
    requires some { 2 ≤ budget }
    requires capacity { budget < 2 ^ (2 * grid.now.n + 1) → 2 * budget ≤ heap_capacity heap.old }
    requires flags { length flags.old ≡ 2 ^ (2 * grid.now.n + 1) }
    requires room { 2 ^ (2 * grid.now.n + 1) ≤ vec_capacity log.old }
    ensures capacity { heap_capacity heap.old ≤ heap_capacity heap.new }
    ensures flags { length flags.new ≡ length flags.old }
    ensures room { vec_capacity log.new ≡ vec_capacity log.old }
    ensures found { let e = error_of grid.now.n grid.now.heights in
        IsFound grid.now.n tolerance budget e (is_flagged flags.new) }
    ensures known { let e = error_of grid.now.n grid.now.heights in
        IfSome result (λ worst. worst ≡ worst_of e (leaves_of grid.now.n (is_flagged flags.new))) }
    ensures unknown { let e = error_of grid.now.n grid.now.heights in
        IfNone result (worst_of e (leaves_of grid.now.n (is_flagged flags.new)) ≤ tolerance) }
{
    if budget < end(grid.n()) {
        Some(grow(grid, tolerance, budget as usize, heap, flags, log))
    } else {
        settle_anew(
            grid,
            Limit::Common(tolerance),
            Required::Triangles(&[]),
            flags,
            log,
        );
        None
    }
}
