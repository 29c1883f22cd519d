//! Under which slot the entry of a diamond stands.

ghost use Rattle.std.specs.Prelude.{◌≡◌, true};
ghost use Rattle.mesh_laws.specs.Diamond.{IsInDiamond};
ghost use Rattle.mesh_laws.specs.Edge.{mate_of};
ghost use Rattle.mesh_laws.specs.Slots.{IsLive, has_children};
ghost use Rattle.triangle_pool.specs.Answer.{triangle_at};
ghost use Rattle.mesh_laws.specs.Chief.{chief_of};

use bintree_addr::Slot;
use triangle_pool::Pool;

/// The slot of the member of a split triangle's diamond that has the lesser address.
///
/// An entry of a diamond stands under this slot, so that it has one whichever member is asked about.
/// Cost (not proved): a few reads; takes no memory.
pub fn chief(pool: &Pool, s: Slot) -> Slot
    requires live { IsLive pool.now.pairs s.0 }
    requires split { has_children pool.now.pairs (triangle_at pool.now s) ≡ true }
    ensures value { triangle_at pool.now result ≡ chief_of (triangle_at pool.now s) }
    ensures live { IsLive pool.now.pairs result.0 }
    ensures split { has_children pool.now.pairs (triangle_at pool.now result) ≡ true }
    ensures same { (t u : Slot) → IsInDiamond pool.now.n (triangle_at pool.now s) (triangle_at pool.now t) →
        triangle_at pool.now u ≡ chief_of (triangle_at pool.now t) → u ≡ result }
    ensures alone { mate_of (triangle_at pool.now s) ≡ 0 → result ≡ s }
{
    let own = pool.tri(s).number();
    match pool.partner(s) {
        Some(mate) => {
            if pool.tri(mate).number() < own {
                mate
            } else {
                s
            }
        }
        None => s,
    }
}
