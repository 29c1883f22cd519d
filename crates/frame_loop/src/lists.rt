//! What an engine lists of its mesh.

ghost use Rattle.std.specs.Prelude.{◌≡◌, ◌*◌, ◌/◌, ◌≤◌, [], IfOk, length, slice_index};
ghost use Rattle.mesh_defs.specs.HeightField.{side_of};
ghost use Rattle.mesh_defs.specs.ClosedSet.{leaves_of};
ghost use Rattle.mesh_defs.specs.declared.level.TheConstants.{GREATEST_LEVEL};
ghost use Rattle.mesh_laws.specs.Slots.{split_set};
ghost use Rattle.triangle_pool.specs.declared.pool.TheConstants.{MOST_LEAVES};
ghost use Rattle.frame_loop.specs.declared.lists.TheConstants.{MENDED_SHARE};

use bintree_addr::Point;
use mesh_arrays::LeafList;
use mesh_defs::NoMemory;
use obj_write::{VertexChange, VertexTable};
use std::alloc::Global;
use triangle_pool::Pool;

/// Leaves and numbers are mended where at most one in so many of the leaves that there is room for was split or
/// merged, and else made anew.
const MENDED_SHARE: usize = 8;

/// What stands where no change was listed yet.
const NO_CHANGE: VertexChange = VertexChange {
    point: Point { x: 0, y: 0 },
    shown: false,
};

/// What an engine lists of its mesh, made by one call, so that what makes an engine owns little where memory runs out.
#[derive(Drop)]
pub(crate) struct Lists {
    /// The leaves, and what changed of them.
    pub(crate) list: LeafList,
    /// A place for each point at which a frame may change vertices.
    pub(crate) vertex_changes: Vec<VertexChange>,
    /// The vertex number of each grid point, or 0.
    pub(crate) numbers: VertexTable,
}

impl Lists {
    /// The leaves of a pool, with room for so many, and a table of the vertices of a grid with this n, without a
    /// vertex.
    pub(crate) fn make(alloc: Global, n: u32, pool: &Pool, room: u32) -> Result<Lists, NoMemory>
        requires in_grid { n ≤ GREATEST_LEVEL }
        requires root { slice_index pool.now.pairs 0 ≡ 1 }
        requires room { pool.now.most ≤ room }
        requires few { room ≤ MOST_LEAVES }
        ensures leaves { IfOk result (λ l. l.list.leaves ≡ leaves_of pool.now.n (split_set pool.now.pairs)) }
        ensures gone { IfOk result (λ l. l.list.gone ≡ []) }
        ensures come { IfOk result (λ l. l.list.come ≡ []) }
        ensures most { IfOk result (λ l. l.list.most ≡ room) }
        ensures numbers { IfOk result (λ l. length l.numbers ≡ side_of n * side_of n) }
        ensures changes { IfOk result (λ l. length l.vertex_changes.items ≡ room / MENDED_SHARE) }
    {
        Ok(Lists {
            list: LeafList::new(alloc, pool, room)?,
            vertex_changes: vec![in alloc; NO_CHANGE; room as usize / MENDED_SHARE]?,
            numbers: VertexTable::new(alloc, n)?,
        })
    }
}
