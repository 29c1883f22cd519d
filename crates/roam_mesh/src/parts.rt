//! A mesh half way through a frame, by the slots of its pool.

ghost use Rattle.std.specs.Prelude.{◌≡◌, ℕ, ◌+◌, ◌*◌, ◌<◌, ◌≤◌, ◌^◌, IfOk, [], None, Some, cond, nat_lt, false, length};
ghost use Rattle.std.specs.Prelude.{replicate, slice_index, slice_index_or, slice_set};
ghost use Rattle.mesh_defs.specs.declared.level.TheConstants.{GREATEST_LEVEL};
ghost use Rattle.mesh_laws.specs.Slots.{IsLive, IsPool};
ghost use Rattle.triangle_pool.specs.declared.pool.TheConstants.{MOST_LEAVES};
ghost use Rattle.roam_mesh.specs.Parts.{IsParts, blank, entry_at, leaf_rank};
ghost use Rattle.roam_mesh.specs.Base.{AreEmpty};

use crate::entry::Entry;
use bintree_addr::Slot;
use lazy_priority::Lazy;
use merge_queue::MergeQueue;
use mesh_defs::NoMemory;
use split_queue::SplitQueue;
use std::alloc::Global;
use std::marker::Model;
use triangle_pool::Pool;

/// A pool, three heaps over its slots, and what is kept of each slot.
///
/// A slot that is out of its place stands in no heap: that of a fresh entry, and within a step that of an entry that
/// changes its role. `IsPlaced` says of all others where they stand; it is no invariant of this type, since it does
/// not hold half way through a step, but of `QueuedParts`.
#[derive(Drop)]
pub struct Parts {
    pub pool: Pool,
    pub entries: Vec<Entry>,
    /// The leaves by the best that their priority can be.
    pub split_queue: SplitQueue,
    /// The diamonds that can be merged, under their chiefs, by the better of the worst that the two priorities can be.
    pub merge_queue: MergeQueue,
    /// The entries by the odometer from which on they are due.
    pub deadlines: Lazy,
    /// The slots that were asked in this frame, in the first places.
    pub asked: Vec<Slot>,
    pub asked_count: u32,
    /// The slots that are fresh, in the first places, the next one last.
    pub fresh: Vec<Slot>,
    pub fresh_count: u32,
}

impl Model for Parts {
    ghost use Rattle.std.specs.Prelude.{◌≡◌, ◌*◌, ◌≤◌, length};
    ghost use Rattle.roam_mesh.specs.Parts.{PartsState, IsWhole, parts_of};

    ghost Value = { PartsState };

    ghost view = { λ m. parts_of m.pool m.entries.items m.split_queue m.merge_queue m.deadlines m.asked.items
        m.asked_count m.fresh.items m.fresh_count };

    ghost invariant = { λ m. IsWhole
        (parts_of m.pool m.entries.items m.split_queue m.merge_queue m.deadlines m.asked.items
        m.asked_count m.fresh.items m.fresh_count)
        × ((length m.asked.items ≡ 2 * length m.pool.pairs) × (m.asked_count ≤ length m.asked.items))
        × ((length m.fresh.items ≡ 2 * length m.pool.pairs) × (m.fresh_count ≤ length m.fresh.items)) };
}

impl Parts {
    /// The two halves of the square, leaves without a stamp, in their places.
    pub fn new(alloc: Global, n: u32, leaves: u32) -> Result<Parts, NoMemory>
        requires n { (1 ≤ n) × (n ≤ GREATEST_LEVEL) }
        requires some { 2 ≤ leaves }
        requires few { leaves ≤ MOST_LEAVES }
        ensures n { IfOk result (λ m. m.pool.n ≡ n) }
        ensures most { IfOk result (λ m. m.pool.most ≡ leaves) }
        ensures base { IfOk result (λ m. (i : ℕ) → slice_index m.pool.pairs i ≡ cond (nat_lt 0 i) 0 1) }
        ensures splits { IfOk result (λ m. m.pool.splits ≡ 0) }
        ensures merges { IfOk result (λ m. m.pool.merges ≡ 0) }
        ensures entries { IfOk result (λ m. (s : ℕ) → entry_at m s ≡ blank) }
        ensures parts { IfOk result (λ m. IsParts m) }
        ensures fresh { IfOk result (λ m. m.fresh ≡ []) }
    {
        let mut parts = Parts::empty(alloc, n, leaves)?;
        parts.begin_leaf(Slot(0));
        parts.begin_leaf(Slot(1));
        Ok(parts)
    }

    /// The two halves of the square, with nothing in its place.
    fn empty(alloc: Global, n: u32, leaves: u32) -> Result<Parts, NoMemory>
        requires n { (1 ≤ n) × (n ≤ GREATEST_LEVEL) }
        requires some { 2 ≤ leaves }
        requires few { leaves ≤ MOST_LEAVES }
        ensures n { IfOk result (λ m. m.pool.n ≡ n) }
        ensures most { IfOk result (λ m. m.pool.most ≡ leaves) }
        ensures base { IfOk result (λ m. (i : ℕ) → slice_index m.pool.pairs i ≡ cond (nat_lt 0 i) 0 1) }
        ensures splits { IfOk result (λ m. m.pool.splits ≡ 0) }
        ensures merges { IfOk result (λ m. m.pool.merges ≡ 0) }
        ensures valid { IfOk result (λ m. IsPool m.pool.n m.pool.pairs) }
        ensures heaps { IfOk result (AreEmpty leaves) }
    {
        let slots = 2 * leaves - 2;
        let tables = Tables::blank(alloc, slots)?;
        let pool = Pool::new(alloc, n, leaves)?;
        let _leaves = pool.leaf_count();
        let queues = Queues::none(alloc, slots)?;
        Ok(Parts {
            pool,
            entries: tables.entries,
            split_queue: queues.split,
            merge_queue: queues.merge,
            deadlines: queues.due,
            asked: tables.asked,
            asked_count: 0,
            fresh: tables.fresh,
            fresh_count: 0,
        })
    }

    /// A leaf without a stamp in its place: it is due at every odometer.
    fn begin_leaf(&mut self, s: Slot)
        requires live { IsLive self.old.pool.pairs s.0 }
        requires vacant { slice_index_or self.old.split s.0 None ≡ None }
        ensures { self.new ≡ record self.old {
          split = slice_set self.old.split s.0
              (Some (leaf_rank self.old s.0));
          due = slice_set self.old.due s.0 (Some 0);
        } }
    {
        let rank = self.leaf_rank(s);
        self.split_queue.put(s, rank);
        self.deadlines.stamp(s, 0, 0);
        self.deadlines.expire(s);
    }
}

/// The heaps of new parts. They are made apart from the tables, since each value that a function owns at a `?` is
/// dropped there, on one more way that its proof has to go.
#[derive(Drop)]
struct Queues {
    split: SplitQueue,
    merge: MergeQueue,
    due: Lazy,
}

impl Queues {
    /// Heaps of so many slots with none in them.
    fn none(alloc: Global, slots: u32) -> Result<Queues, NoMemory>
        ensures split { IfOk result (λ q. q.split ≡ replicate slots None) }
        ensures merge { IfOk result (λ q. q.merge ≡ replicate slots None) }
        ensures due { IfOk result (λ q. q.due ≡ replicate slots None) }
    {
        Ok(Queues {
            split: SplitQueue::new(alloc, slots)?,
            merge: MergeQueue::new(alloc, slots)?,
            due: Lazy::new(alloc, slots)?,
        })
    }
}

/// The tables of new parts.
#[derive(Drop)]
struct Tables {
    entries: Vec<Entry>,
    asked: Vec<Slot>,
    fresh: Vec<Slot>,
}

impl Tables {
    /// Tables of so many slots.
    fn blank(alloc: Global, slots: u32) -> Result<Tables, NoMemory>
        ensures entries { IfOk result (λ t. t.entries.items ≡ replicate slots blank) }
        ensures asked { IfOk result (λ t. length t.asked.items ≡ slots) }
        ensures fresh { IfOk result (λ t. length t.fresh.items ≡ slots) }
    {
        Ok(Tables {
            entries: vec![in alloc; Entry::blank(); slots as usize]?,
            asked: vec![in alloc; Slot(0); slots as usize]?,
            fresh: vec![in alloc; Slot(0); slots as usize]?,
        })
    }
}
