//! Marks at the slots of triangles that may have changed, and of all above them.

ghost use Rattle.std.specs.Prelude.{◌≡◌, ℕ, Bool, ◌*◌, ◌/◌, ◌≤◌, true, IsNone, IfSome, Contains, slice_index};
ghost use Rattle.std.specs.Prelude.{slice_index_or, slice_set};
ghost use Rattle.mesh_laws.specs.Slots.{address_at, split_set, IsLive};
ghost use Rattle.mesh_arrays.specs.Below.{is_at_or_below};
ghost use Rattle.mesh_arrays.specs.List.{IsCovered};
ghost use Rattle.mesh_arrays.specs.Walk.{AreUntouched, IsPathMarked};

use crate::walk::Walk;
use bintree_addr::{Slot, Tri};
use triangle_pool::Pool;

/// Marks the slots of these triangles and of all above them, and no others.
///
/// Cost (not proved): a step for each level of each triangle, and one for each slot.
pub(crate) fn mark_changed(walk: &mut Walk, pool: &Pool, changed: &[Tri])
    requires root { slice_index pool.now.pairs 0 ≡ 1 }
    requires most { pool.now.most ≤ walk.old.most }
    ensures rest { walk.new ≡ record walk.old { touched = walk.new.touched } }
    ensures untouched { (before : ℕ → Bool) → IsCovered before (split_set pool.now.pairs) changed.now →
        AreUntouched pool.now.pairs walk.new.touched before }
{
    walk.touch_all(false);
    mark_each(walk, pool, changed);
}

/// Marks the slots of these triangles and of all above them.
fn mark_each(walk: &mut Walk, pool: &Pool, changed: &[Tri])
    requires root { slice_index pool.now.pairs 0 ≡ 1 }
    requires most { pool.now.most ≤ walk.old.most }
    ensures rest { walk.new ≡ record walk.old { touched = walk.new.touched } }
    ensures above { (b r : ℕ) → Contains changed.now b → IsLive pool.now.pairs r →
        is_at_or_below (address_at pool.now.pairs r) b ≡ true → slice_index_or walk.new.touched r true ≡ true }
{
    for t in changed {
        let _slot = mark(walk, pool, *t);
    }
}

/// Marks the slots of a triangle and of all above it, as far as they are live; answers the slot of the triangle,
/// where it is.
fn mark(walk: &mut Walk, pool: &Pool, t: Tri) -> Option<Slot>
    requires root { slice_index pool.now.pairs 0 ≡ 1 }
    requires most { pool.now.most ≤ walk.old.most }
    ensures there { IfSome result (λ s. address_at pool.now.pairs s.0 ≡ t) }
    ensures absent { IsNone result → (r : ℕ) → address_at pool.now.pairs r ≡ t → ⊥ }
    ensures rest { walk.new ≡ record walk.old { touched = walk.new.touched } }
    ensures marked { IsPathMarked pool.now.pairs t walk.old.touched walk.new.touched }
{
    let _n = pool.n();
    match t.parent() {
        None => {
            let s = Slot(t.number() - 2);
            mark_slot(walk, pool, s);
            Some(s)
        }
        Some(above) => match mark(walk, pool, above) {
            None => None,
            Some(s) => mark_child(walk, pool, s, t),
        },
    }
}

/// Marks the slot of a triangle whose parent is at a slot, and answers it; none where the parent is a leaf.
fn mark_child(walk: &mut Walk, pool: &Pool, s: Slot, t: Tri) -> Option<Slot>
    requires deep { 4 ≤ t }
    requires parent { address_at pool.now.pairs s.0 ≡ t / 2 }
    requires most { pool.now.most ≤ walk.old.most }
    ensures there { IfSome result (λ r. (address_at pool.now.pairs r.0 ≡ t)
        × (walk.new ≡ record walk.old { touched = slice_set walk.old.touched r.0 true })) }
    ensures absent { IsNone result → (r : ℕ) → address_at pool.now.pairs r ≡ t → ⊥ }
    ensures unmarked { IsNone result → walk.new ≡ walk.old }
{
    match pool.children(s) {
        None => None,
        Some((left, right)) => {
            let child = if t.number() % 2 == 0 { left } else { right };
            mark_slot(walk, pool, child);
            Some(child)
        }
    }
}

/// Marks a slot.
fn mark_slot(walk: &mut Walk, pool: &Pool, s: Slot)
    requires live { IsLive pool.now.pairs s.0 }
    requires most { pool.now.most ≤ walk.old.most }
    ensures { walk.new ≡ record walk.old { touched = slice_set walk.old.touched s.0 true } }
{
    let _t = pool.tri(s);
    walk.touch(s);
}
