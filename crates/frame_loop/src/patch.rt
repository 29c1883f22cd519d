//! The leaves of a pool with the numbers of their vertices, mended where some triangles were split and merged.

ghost use Rattle.std.specs.Prelude.{◌≡◌, ◌*◌, ◌/◌, ◌≤◌, false, true, IsNone, IfSome, All, length, map, take};
ghost use Rattle.std.specs.Prelude.{slice_index};
ghost use Rattle.mesh_defs.specs.Triangle.{IsSplittable};
ghost use Rattle.mesh_defs.specs.declared.level.TheConstants.{GREATEST_LEVEL};
ghost use Rattle.mesh_laws.specs.Slots.{address_at, split_set};
ghost use Rattle.mesh_arrays.specs.ListChange.{IsChange};
ghost use Rattle.frame_loop.specs.Listing.{IsListing};
ghost use Rattle.frame_loop.specs.Patch.{change_of, AreNumbersBefore};

use bintree_addr::{Slot, Tri};
use mesh_arrays::LeafList;
use obj_write::{VertexChange, VertexTable};
use triangle_pool::Pool;

/// The slot of a triangle; none only where it is not live, and so is not split.
///
/// Cost (not proved): a step for each level.
fn slot_of(pool: &Pool, t: Tri) -> Option<Slot>
    requires root { slice_index pool.now.pairs 0 ≡ 1 }
    ensures there { IfSome result (λ s. address_at pool.now.pairs s.0 ≡ t) }
    ensures absent { IsNone result → split_set pool.now.pairs t ≡ false }
{
    let _n = pool.n();
    match t.parent() {
        None => Some(Slot(t.number() - 2)),
        Some(above) => match slot_of(pool, above) {
            None => None,
            Some(s) => child_slot(pool, s, t),
        },
    }
}

/// The slot of a triangle whose parent is at a slot.
fn child_slot(pool: &Pool, s: Slot, t: Tri) -> Option<Slot>
    requires deep { 4 ≤ t }
    requires parent { address_at pool.now.pairs s.0 ≡ t / 2 }
    ensures there { IfSome result (λ r. address_at pool.now.pairs r.0 ≡ t) }
    ensures absent { IsNone result → split_set pool.now.pairs t ≡ false }
{
    let _n = pool.n();
    match pool.children(s) {
        None => None,
        Some((left, right)) => Some(if t.number() % 2 == 0 { left } else { right }),
    }
}

/// Whether a triangle is split.
fn is_split(pool: &Pool, t: Tri) -> bool
    requires root { slice_index pool.now.pairs 0 ≡ 1 }
    ensures { result ≡ split_set pool.now.pairs t }
{
    match slot_of(pool, t) {
        None => false,
        Some(s) => !pool.is_leaf(s),
    }
}

/// Writes into the first places, for each triangle, its centre, and whether that is a vertex now.
///
/// Cost (not proved): a step for each level of each triangle.
fn list_changes(pool: &Pool, changed: &[Tri], changes: &mut [VertexChange])
    requires root { slice_index pool.now.pairs 0 ≡ 1 }
    requires splittable { All (IsSplittable pool.now.n) changed.now }
    requires room { length changed.now ≤ length changes.old }
    ensures there { take (length changed.now) changes.new
        ≡ map (change_of pool.now.n (split_set pool.now.pairs)) changed.now }
{
    let n = pool.n();
    for k in 0..changed.len() {
        changes[k] = VertexChange {
            point: changed[k].centre(n),
            shown: is_split(pool, changed[k]),
        };
    }
}

/// Mends the list of leaves of a pool and the numbers of their vertices, where these triangles were split or merged;
/// answers how many vertices there are.
///
/// Each triangle whose splitting has changed since list and numbers were made has to be among them; others may be, too.
/// Cost (not proved): a step for each level of each of them, and those of `LeafList::patch` and `VertexTable::patch`.
pub(crate) fn mend_both(
    pool: &Pool,
    changed: &[Tri],
    changes: &mut [VertexChange],
    list: &mut LeafList,
    numbers: &mut VertexTable,
) -> u32
    requires root { slice_index pool.now.pairs 0 ≡ 1 }
    requires room { pool.now.most ≤ list.old.most }
    requires splittable { All (IsSplittable pool.now.n) changed.now }
    requires places { length changed.now ≤ length changes.old }
    requires before { AreNumbersBefore pool.now.n list.old.leaves numbers.old (split_set pool.now.pairs) changed.now }
    ensures listing { IsListing pool.now.n pool.now.pairs list.new.leaves numbers.new result }
    ensures change { IsChange list.old.leaves list.new.leaves list.new.gone list.new.come }
    ensures most { list.new.most ≡ list.old.most }
    ensures numbers { length numbers.new ≡ length numbers.old }
{
    list.patch(pool, changed);
    list_changes(pool, changed, changes);
    numbers.patch(&changes[..changed.len()], pool.n())
}

/// Whether each of the triangles has a centre on the grid, and there is room for so many changes.
pub(crate) fn are_mendable(changed: &[Tri], n: u32, room: usize) -> bool
    requires few { n ≤ GREATEST_LEVEL }
    ensures splittable { result ≡ true → All (IsSplittable n) changed.now }
    ensures room { result ≡ true → length changed.now ≤ room }
{
    for t in changed {
        let _number = t.number();
        if t.level() >= 2 * n {
            return false;
        }
    }
    changed.len() <= room
}
