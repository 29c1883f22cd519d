//! The queue.

ghost use Rattle.std.specs.Prelude.{◌≡◌, ◌<◌, ◌↔◌, Some, None, IfOk, IfSome, IsSome, IsNone, length, replicate};
ghost use Rattle.std.specs.Prelude.{slice_set};
ghost use Rattle.slot_heap.specs.Keys.{key_of, IsEmpty};
ghost use Rattle.merge_queue.specs.Last.{IsLastEntry};

use bintree_addr::{Rank, Slot, rank_order_laws};
use mesh_defs::NoMemory;
use slot_heap::SlotHeap;
use std::alloc::Global;
use std::cmp::Reverse;
use std::marker::Model;

/// The ranks of some slots; it knows an entry that ranks last.
#[derive(Drop)]
pub struct MergeQueue {
    heap: SlotHeap<Reverse<Rank>>,
}

impl Model for MergeQueue {
    ghost use Rattle.std.specs.Prelude.{List, Option};
    ghost use Rattle.bintree_addr.specs.declared.rank.Rank.{Rank};

    ghost Value = { List (Option Rank) };

    ghost use Rattle.merge_queue.specs.Turned.{ranks_of};

    ghost view = { λ q. ranks_of q.heap };
}

impl MergeQueue {
    /// A queue for so many slots, with no entry.
    pub fn new(alloc: Global, slots: u32) -> Result<MergeQueue, NoMemory>
        ensures { IfOk result (λ queue. queue ≡ replicate slots None) }
    {
        Ok(MergeQueue {
            heap: SlotHeap::new(alloc, slots)?,
        })
    }

    /// Puts a slot in that is not there.
    ///
    /// Cost (not proved): that of `SlotHeap::put`; takes no memory. So do `take` and `rekey`.
    pub fn put(&mut self, slot: Slot, rank: Rank)
        requires in_range { slot.0 < length self.old }
        requires vacant { key_of self.old slot ≡ None }
        ensures { self.new ≡ slice_set self.old slot.0 (Some rank) }
    {
        self.heap.put(slot, Reverse(rank));
    }

    /// Takes a slot out, and answers its rank.
    pub fn take(&mut self, slot: Slot) -> Rank
        requires present { IsSome (key_of self.old slot) }
        ensures rank { key_of self.old slot ≡ Some result }
        ensures rest { self.new ≡ slice_set self.old slot.0 None }
    {
        self.heap.take(slot).0
    }

    /// Gives a slot that is there another rank.
    pub fn rekey(&mut self, slot: Slot, rank: Rank)
        requires present { IsSome (key_of self.old slot) }
        ensures { self.new ≡ slice_set self.old slot.0 (Some rank) }
    {
        self.heap.rekey(slot, Reverse(rank));
    }

    /// A slot's rank.
    pub fn rank(&self, slot: Slot) -> Option<Rank>
        ensures { result ≡ key_of self.now slot }
    {
        match self.heap.key(slot) {
            Some(key) => Some(key.0),
            None => None,
        }
    }

    /// An entry that ranks before no other.
    pub fn last(&self) -> Option<(Slot, Rank)>
        ensures empty { IsNone result ↔ IsEmpty self.now }
        ensures last { IfSome result (λ last. IsLastEntry self.now last.0 last.1) }
    {
        rank_order_laws();
        match self.heap.head() {
            Some((slot, key)) => Some((slot, key.0)),
            None => None,
        }
    }
}
