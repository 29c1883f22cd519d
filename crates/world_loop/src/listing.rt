//! The leaves of a world's mesh.

ghost use Rattle.std.specs.Prelude.{◌≡◌, ◌≤◌, IfSome, slice_index};
ghost use Rattle.mesh_defs.specs.ClosedSet.{leaves_of};
ghost use Rattle.mesh_laws.specs.Slots.{split_set};
ghost use Rattle.mesh_arrays.specs.List.{IsLeafListOf, IsListBefore};

use bintree_addr::Tri;
use mesh_arrays::LeafList;
use triangle_pool::Pool;

/// Lists the leaves of a pool, depth first, after splits and merges, which are of these triangles, if they are known.
pub(crate) fn list_changed(pool: &Pool, changed: Option<&[Tri]>, list: &mut LeafList)
    requires root { slice_index pool.now.pairs 0 ≡ 1 }
    requires room { pool.now.most ≤ list.old.most }
    requires before { IsLeafListOf pool.now.n list.old.leaves }
    requires known { IfSome changed
        (λ triangles. IsListBefore pool.now.n list.old.leaves (split_set pool.now.pairs) triangles.now) }
    ensures leaves { list.new.leaves ≡ leaves_of pool.now.n (split_set pool.now.pairs) }
    ensures most { list.new.most ≡ list.old.most }
{
    match changed {
        Some(triangles) => list.patch(pool, triangles),
        None => list.patch_all(pool),
    }
}
