//! The slot of an address.

ghost use Rattle.std.specs.Prelude.{◌≡◌, ℕ, ◌≤◌, IsNone, IfSome, slice_index};
ghost use Rattle.mesh_laws.specs.Slots.{address_at, IsLive};

use bintree_addr::{Slot, Tri};
use triangle_pool::Pool;

/// The slot of a triangle, if it is live: down from the halves of the square, by the bits of its address.
///
/// Cost (not proved): a step a level.
pub fn find(pool: &Pool, t: Tri) -> Option<Slot>
    requires root { slice_index pool.now.pairs 0 ≡ 1 }
    ensures none { IsNone result → (s : ℕ) → IsLive pool.now.pairs s → address_at pool.now.pairs s ≡ t → ⊥ }
    ensures some { IfSome result (λ s. address_at pool.now.pairs s.0 ≡ t) }
    ensures live { IfSome result (λ s. IsLive pool.now.pairs s.0) }
{
    let _n = pool.n();
    let Some(parent) = t.parent() else {
        return Some(Slot(t.number() - 2));
    };
    let above = find(pool, parent)?;
    let (left, right) = pool.children(above)?;
    Some(if pool.tri(left) == t { left } else { right })
}
