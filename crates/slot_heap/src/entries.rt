//! The vector of a heap's entries.

ghost use Rattle.std.specs.Prelude.{◌≡◌, ◌<◌, [], ◌∷◌, ◌++◌, IfOk, length};
ghost use Rattle.std.specs.Prelude.{slice_get, slice_index_or, slice_set};

use crate::entry::Entry;
use bintree_addr::Slot;
use mesh_defs::NoMemory;
use std::alloc::Global;
use std::marker::Model;

/// A vector of entries. The keys stand in one vector and the slots in another, so that no bytes go
/// to the padding of an entry, and sifting reads no other key than those that it compares.
#[derive(Drop)]
pub struct Entries<K: Copy> {
    keys: Vec<K>,
    slots: Vec<Slot>,
}

impl<K: Copy> Model for Entries<K> {
    ghost use Rattle.std.specs.Prelude.{◌≡◌, length, vec_capacity};
    ghost use Rattle.slot_heap.specs.EntriesState.{EntriesState, entries_of};

    ghost Value = { EntriesState K };

    ghost view = { λ e. record { items = entries_of e.keys.items e.slots.items; capacity = vec_capacity e.keys } };

    ghost invariant = { λ e. (length e.slots.items ≡ length e.keys.items) × (vec_capacity e.slots ≡ vec_capacity e.keys) };
}

impl<K: Copy> Entries<K> {
    /// No entries, and room for so many.
    pub fn with_capacity(alloc: Global, capacity: usize) -> Result<Entries<K>, NoMemory>
        ensures items { IfOk result (λ entries. entries.items ≡ []) }
        ensures capacity { IfOk result (λ entries. entries.capacity ≡ capacity) }
    {
        Ok(Entries {
            keys: Vec::with_capacity(alloc, capacity)?,
            slots: Vec::with_capacity(alloc, capacity)?,
        })
    }

    /// How many entries there are.
    #[inline]
    pub fn len(&self) -> usize
        ensures { result ≡ length self.now.items }
    {
        self.keys.len()
    }

    /// The entry at a place, if there is one.
    #[inline]
    pub fn get(&self, at: usize) -> Option<Entry<K>>
        ensures { result ≡ slice_get self.now.items at }
    {
        let key = *self.keys.as_slice().get(at)?;
        Some(Entry {
            key,
            slot: self.slots[at],
        })
    }

    /// The entry at a place that has one.
    #[inline]
    pub fn read(&self, at: usize) -> Entry<K>
        requires { at < length self.now.items }
        ensures { result ≡ slice_index_or self.now.items at result }
    {
        Entry {
            key: self.keys[at],
            slot: self.slots[at],
        }
    }

    /// Puts an entry in the place of another.
    #[inline]
    pub fn write(&mut self, at: usize, entry: Entry<K>)
        requires { at < length self.old.items }
        ensures items { self.new.items ≡ slice_set self.old.items at entry }
        ensures capacity { self.new.capacity ≡ self.old.capacity }
    {
        self.keys[at] = entry.key;
        self.slots[at] = entry.slot;
    }

    /// Puts an entry behind the others, for which there is room.
    #[inline]
    pub fn push_reserved(&mut self, entry: Entry<K>)
        requires { length self.old.items < self.old.capacity }
        ensures items { self.new.items ≡ self.old.items ++ entry ∷ [] }
        ensures capacity { self.new.capacity ≡ self.old.capacity }
    {
        self.keys.push_reserved(entry.key);
        self.slots.push_reserved(entry.slot);
    }

    /// Takes the last entry away, and answers it.
    #[inline]
    pub fn pop(&mut self) -> Entry<K>
        requires { 0 < length self.old.items }
        ensures items { self.old.items ≡ self.new.items ++ result ∷ [] }
        ensures capacity { self.new.capacity ≡ self.old.capacity }
    {
        let key = self.keys.pop().unwrap();
        let slot = self.slots.pop().unwrap();
        Entry { key, slot }
    }
}
