//! The queue.

ghost use Rattle.std.specs.Prelude.{◌≡◌, ◌<◌, ◌↔◌, Some, None, IfOk, IfSome, IsSome, IsNone, length, replicate};
ghost use Rattle.std.specs.Prelude.{slice_set};
ghost use Rattle.slot_heap.specs.Keys.{key_of, IsEmpty};
ghost use Rattle.split_queue.specs.First.{IsFirstEntry};
ghost use Rattle.split_queue.specs.Present.{present_ranks};

use bintree_addr::{Rank, Slot, rank_order_laws};
use mesh_defs::NoMemory;
use slot_heap::SlotHeap;
use std::alloc::Global;
use std::marker::Model;

/// The ranks of some slots; it knows an entry that ranks first.
#[derive(Drop)]
pub struct SplitQueue {
    /// The ranks. That of a slot which was taken out stays here until the slot is put in again, or until the rank
    /// comes to the front: most are put in again before, with nearly the same rank, and to take them out would
    /// cost a second walk through the heap.
    heap: SlotHeap<Rank>,
    /// Which slots have an entry.
    present: Vec<bool>,
    /// What `first` answers.
    first: Option<(Slot, Rank)>,
}

impl Model for SplitQueue {
    ghost use Rattle.std.specs.Prelude.{◌≡◌, ◌↔◌, List, Option, IsNone, IfSome, length};
    ghost use Rattle.bintree_addr.specs.declared.rank.Rank.{Rank};
    ghost use Rattle.slot_heap.specs.Keys.{IsEmpty};
    ghost use Rattle.split_queue.specs.First.{IsFirstEntry};
    ghost use Rattle.split_queue.specs.Present.{present_ranks};

    ghost Value = { List (Option Rank) };

    ghost view = { λ q. present_ranks q.heap q.present.items };

    ghost invariant = { λ q.
        (length q.present.items ≡ length q.heap)
        × (IsNone q.first ↔ IsEmpty (present_ranks q.heap q.present.items))
        × IfSome q.first (λ first. IsFirstEntry (present_ranks q.heap q.present.items) first.0 first.1) };
}

impl SplitQueue {
    /// A queue for so many slots, with no entry.
    ///
    /// Cost (not proved): 25 bytes a slot.
    pub fn new(alloc: Global, slots: u32) -> Result<SplitQueue, NoMemory>
        ensures { IfOk result (λ queue. queue ≡ replicate slots None) }
    {
        Ok(SplitQueue {
            heap: SlotHeap::new(alloc, slots)?,
            present: vec![in alloc; false; slots as usize]?,
            first: None,
        })
    }

    /// Puts a slot in that is not there.
    ///
    /// Cost (not proved): that of `SlotHeap::put`, and for each entry that was taken out and comes to the front that
    /// of `SlotHeap::take`; takes no memory. So do `take` and `rekey`.
    pub fn put(&mut self, slot: Slot, rank: Rank)
        requires in_range { slot.0 < length self.old }
        requires vacant { key_of self.old slot ≡ None }
        ensures { self.new ≡ slice_set self.old slot.0 (Some rank) }
    {
        self.set(slot, rank);
    }

    /// Takes a slot out, and answers its rank.
    pub fn take(&mut self, slot: Slot) -> Rank
        requires present { IsSome (key_of self.old slot) }
        ensures rank { key_of self.old slot ≡ Some result }
        ensures rest { self.new ≡ slice_set self.old slot.0 None }
    {
        let rank = self.heap.key(slot).unwrap();
        self.present[slot.0 as usize] = false;
        self.first = settle(&mut self.heap, &self.present);
        rank
    }

    /// Gives a slot that is there another rank.
    pub fn rekey(&mut self, slot: Slot, rank: Rank)
        requires present { IsSome (key_of self.old slot) }
        ensures { self.new ≡ slice_set self.old slot.0 (Some rank) }
    {
        self.set(slot, rank);
    }

    /// Gives a slot a rank, in place of the one that it may have.
    fn set(&mut self, slot: Slot, rank: Rank)
        requires { slot.0 < length self.old }
        ensures { self.new ≡ slice_set self.old slot.0 (Some rank) }
    {
        self.heap.set(slot, rank);
        self.present[slot.0 as usize] = true;
        self.first = settle(&mut self.heap, &self.present);
    }

    /// A slot's rank.
    pub fn rank(&self, slot: Slot) -> Option<Rank>
        ensures { result ≡ key_of self.now slot }
    {
        let rank = self.heap.key(slot)?;
        if self.present[slot.0 as usize] {
            Some(rank)
        } else {
            None
        }
    }

    /// An entry that no other ranks before.
    pub fn first(&self) -> Option<(Slot, Rank)>
        ensures empty { IsNone result ↔ IsEmpty self.now }
        ensures first { IfSome result (λ first. IsFirstEntry self.now first.0 first.1) }
    {
        self.first
    }
}

/// Takes the ranks of slots that are not present from the front of the heap, and answers the first entry.
fn settle(heap: &mut SlotHeap<Rank>, present: &[bool]) -> Option<(Slot, Rank)>
    requires { length present.now ≡ length heap.old }
    ensures same { present_ranks heap.new present.now ≡ present_ranks heap.old present.now }
    ensures count { length heap.new ≡ length heap.old }
    ensures empty { IsNone result ↔ IsEmpty (present_ranks heap.new present.now) }
    ensures first { IfSome result (λ first. IsFirstEntry (present_ranks heap.new present.now) first.0 first.1) }
{
    rank_order_laws();
    'absent: loop {
        let (slot, rank) = heap.head()?;
        if present[slot.0 as usize] {
            return Some((slot, rank));
        }
        heap.take(slot);
    }
}
