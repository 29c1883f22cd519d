//! The heap.

ghost use Rattle.std.specs.Prelude.{◌≡◌, ◌<◌, ◌↔◌, Some, None, IfOk, IfSome, IsSome, IsNone, length, replicate};
ghost use Rattle.std.specs.Prelude.{slice_set};
ghost use Rattle.slot_heap.specs.Keys.{key_of, IsEmpty, IsLeastKey};

use crate::change::{NOWHERE, add, remove, replace};
use crate::entries::Entries;
use crate::entry::Entry;
use bintree_addr::Slot;
use mesh_defs::NoMemory;
use std::alloc::Global;
use std::marker::Model;

/// A finite map from slots to keys that knows one of its least keys.
#[derive(Drop)]
pub struct SlotHeap<K: Copy + Ord> {
    entries: Entries<K>,
    /// Where the entry of a slot stands; it says nothing where the entry there is of another slot.
    places: Vec<u32>,
}

impl<K: Copy + Ord> Model for SlotHeap<K> {
    ghost use Rattle.std.specs.Prelude.{List, Option};
    ghost use Rattle.slot_heap.specs.Entries.{keys_of};
    ghost use Rattle.slot_heap.specs.Sound.{IsSoundHeap};

    ghost Value = { List (Option K) };

    ghost view = { λ h. keys_of h.entries.items h.places.items };

    ghost invariant = { λ h. IsSoundHeap K.cmp h.entries.items h.places.items h.entries.capacity };
}

impl<K: Copy + Ord> SlotHeap<K> {
    /// A heap for so many slots, none of which has a key.
    ///
    /// Cost (not proved): 24 bytes a slot where a key has 16, and 16 bytes where a key has 8.
    pub fn new(alloc: Global, slots: u32) -> Result<SlotHeap<K>, NoMemory>
        ensures { IfOk result (λ heap. heap ≡ replicate slots None) }
    {
        Ok(SlotHeap {
            entries: Entries::with_capacity(alloc, slots as usize)?,
            places: vec![in alloc; NOWHERE; slots as usize]?,
        })
    }

    /// Gives a key to a slot that has none.
    ///
    /// Cost (not proved): a step for each level of the tree; takes no memory.
    pub fn put(&mut self, slot: Slot, key: K)
        requires in_range { slot.0 < length self.old }
        requires vacant { key_of self.old slot ≡ None }
        ensures { self.new ≡ slice_set self.old slot.0 (Some key) }
    {
        add(&mut self.entries, &mut self.places, Entry { key, slot });
    }

    /// Takes a slot's key away, and answers it.
    ///
    /// Cost (not proved): as `put`.
    pub fn take(&mut self, slot: Slot) -> K
        requires present { IsSome (key_of self.old slot) }
        ensures key { key_of self.old slot ≡ Some result }
        ensures rest { self.new ≡ slice_set self.old slot.0 None }
    {
        remove(&mut self.entries, &mut self.places, slot)
    }

    /// Gives another key to a slot that has one.
    ///
    /// Cost (not proved): as `put`.
    pub fn rekey(&mut self, slot: Slot, key: K)
        requires present { IsSome (key_of self.old slot) }
        ensures { self.new ≡ slice_set self.old slot.0 (Some key) }
    {
        replace(&mut self.entries, &mut self.places, Entry { key, slot });
    }

    /// Gives a key to a slot, in place of the one that it may have.
    ///
    /// Cost (not proved): as `put`.
    pub fn set(&mut self, slot: Slot, key: K)
        requires in_range { slot.0 < length self.old }
        ensures { self.new ≡ slice_set self.old slot.0 (Some key) }
    {
        match self.key(slot) {
            Some(_) => self.rekey(slot, key),
            None => self.put(slot, key),
        }
    }

    /// A slot's key.
    pub fn key(&self, slot: Slot) -> Option<K>
        ensures { result ≡ key_of self.now slot }
    {
        let at = *self.places.as_slice().get(slot.0 as usize)?;
        let entry = self.entries.get(at as usize)?;
        if entry.slot == slot {
            Some(entry.key)
        } else {
            None
        }
    }

    /// A slot with a key that no other slot's key is less than.
    pub fn head(&self) -> Option<(Slot, K)>
        ensures empty { IsNone result ↔ IsEmpty self.now }
        ensures least { IfSome result (λ head. IsLeastKey K.cmp self.now head.0 head.1) }
    {
        let first = self.entries.get(0)?;
        Some((first.slot, first.key))
    }
}
