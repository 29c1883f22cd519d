//! How many leaves have each mark.

ghost use Rattle.std.specs.Prelude.{◌≡◌, ◌+◌, ◌*◌, ◌<◌, ◌≤◌, ◌^◌, cond, length, slice_index};
ghost use Rattle.mesh_defs.specs.Triangle.{level_of};
ghost use Rattle.mesh_defs.specs.ClosedSet.{leaves_of, leaves_under};
ghost use Rattle.mesh_defs.specs.declared.mark.Mark.TheVariants.{Inside, Cut, Outside};
ghost use Rattle.mesh_defs.specs.MeshText.{triangle_mark, is_same_mark};
ghost use Rattle.mesh_laws.specs.Slots.{address_at, split_set, IsLive};
ghost use Rattle.frame_loop.specs.Marks.{HasMarks};

use bintree_addr::{Slot, Tri};
use mesh_defs::Mark;
use triangle_pool::Pool;
use view_priority::{Outlook, view_laws};

/// How many triangles are inside all planes, cut by one, and outside of one.
#[derive(Clone, Copy, Debug)]
pub(crate) struct MarkCounts {
    pub(crate) inside: u32,
    pub(crate) cut: u32,
    pub(crate) outside: u32,
}

impl MarkCounts {
    /// So many triangles of one mark.
    fn all(mark: Mark, count: u32) -> MarkCounts
        ensures { result ≡ record {
          inside = cond (is_same_mark Inside mark) count 0;
          cut = cond (is_same_mark Cut mark) count 0;
          outside = cond (is_same_mark Outside mark) count 0;
        } }
    {
        let mut counts = MarkCounts {
            inside: 0,
            cut: 0,
            outside: 0,
        };
        match mark {
            Mark::Inside => counts.inside = count,
            Mark::Cut => counts.cut = count,
            Mark::Outside => counts.outside = count,
        }
        counts
    }

    /// Those of two lists together.
    fn plus(self, other: MarkCounts) -> MarkCounts
        requires inside { self.inside + other.inside < 2 ^ 32 }
        requires cut { self.cut + other.cut < 2 ^ 32 }
        requires outside { self.outside + other.outside < 2 ^ 32 }
        ensures { result ≡ record {
          inside = self.inside + other.inside;
          cut = self.cut + other.cut;
          outside = self.outside + other.outside;
        } }
    {
        MarkCounts {
            inside: self.inside + other.inside,
            cut: self.cut + other.cut,
            outside: self.outside + other.outside,
        }
    }
}

/// How many leaves of a pool are inside all planes, cut by one, and outside of one.
///
/// Cost (not proved): a step for each triangle of the pool, and a mark for each that is cut and for each child of
/// one; nothing where no plane is in force.
pub(crate) fn count_marks(outlook: &Outlook, pool: &Pool) -> MarkCounts
    requires n { pool.now.n ≡ outlook.now.grid.n }
    requires root { slice_index pool.now.pairs 0 ≡ 1 }
    requires short { pool.now.most < 2 ^ 31 }
    ensures { HasMarks outlook.now
        (leaves_of pool.now.n (split_set pool.now.pairs)) result.inside result.cut result.outside }
{
    let leaves = pool.leaf_count();
    if outlook.planes.len() == 0 {
        return MarkCounts::all(Mark::Inside, leaves);
    }
    let levels = 2 * pool.n();
    let lower = count_under(outlook, pool, Slot(0), levels);
    let upper = count_under(outlook, pool, Slot(1), levels);
    lower.plus(upper)
}

/// The counts of the leaves at and below a slot.
///
/// Where a triangle is Inside, or Outside, all below it is so too, and no mark is looked at there.
fn count_under(outlook: &Outlook, pool: &Pool, s: Slot, levels: u32) -> MarkCounts
    requires live { IsLive pool.now.pairs s.0 }
    requires level { level_of (address_at pool.now.pairs s.0) + levels ≡ 2 * pool.now.n }
    requires n { pool.now.n ≡ outlook.now.grid.n }
    requires short { length (leaves_under levels (split_set pool.now.pairs) (address_at pool.now.pairs s.0)) < 2 ^ 31 }
    ensures { HasMarks outlook.now (leaves_under levels (split_set pool.now.pairs) (address_at pool.now.pairs s.0))
        result.inside result.cut result.outside }
{
    view_laws();
    let _n = pool.n();
    let own = mark(outlook, pool.tri(s));
    match own {
        Mark::Cut => match pool.children(s) {
            Some((left, right)) => {
                let lower = count_under(outlook, pool, left, levels - 1);
                let upper = count_under(outlook, pool, right, levels - 1);
                lower.plus(upper)
            }
            None => MarkCounts::all(own, 1),
        },
        Mark::Inside => MarkCounts::all(own, count_leaves(pool, s, levels)),
        Mark::Outside => MarkCounts::all(own, count_leaves(pool, s, levels)),
    }
}

/// How many leaves there are at and below a slot.
fn count_leaves(pool: &Pool, s: Slot, levels: u32) -> u32
    requires live { IsLive pool.now.pairs s.0 }
    requires level { level_of (address_at pool.now.pairs s.0) + levels ≡ 2 * pool.now.n }
    requires short { length (leaves_under levels (split_set pool.now.pairs) (address_at pool.now.pairs s.0)) < 2 ^ 31 }
    ensures { result ≡ length (leaves_under levels (split_set pool.now.pairs) (address_at pool.now.pairs s.0)) }
{
    let _n = pool.n();
    match pool.children(s) {
        Some((left, right)) => {
            let lower = count_leaves(pool, left, levels - 1);
            let upper = count_leaves(pool, right, levels - 1);
            lower + upper
        }
        None => 1,
    }
}

/// The mark of a triangle.
fn mark(outlook: &Outlook, t: Tri) -> Mark
    requires level { level_of t ≤ 2 * outlook.now.grid.n }
    ensures { result
        ≡ triangle_mark outlook.now.grid.n outlook.now.grid.heights outlook.now.view.spacing outlook.now.view.planes t }
{
    let cuboid = outlook.wedges.cuboid(t, outlook.spacing);
    outlook.planes.mark(&cuboid)
}
