//! The changes of a heap, over its vectors. Each call of `SlotHeap` that changes it is one of these.

ghost use Rattle.std.specs.Prelude.{◌≡◌, ◌<◌, Some, None, IsSome, length, slice_set};
ghost use Rattle.slot_heap.specs.Keys.{key_of};
ghost use Rattle.slot_heap.specs.Entries.{keys_of};
ghost use Rattle.slot_heap.specs.Sound.{IsSoundHeap};

use crate::entries::Entries;
use crate::entry::Entry;
use crate::sift::place;
use bintree_addr::Slot;

/// A place past every entry. Nothing rests on it: it only saves `SlotHeap::key` the look at an entry
/// of another slot.
pub const NOWHERE: u32 = u32::MAX;

/// Adds the entry of a slot that has none.
#[inline]
pub fn add<K: Copy + Ord>(entries: &mut Entries<K>, places: &mut Vec<u32>, entry: Entry<K>)
    requires sound { IsSoundHeap K.cmp entries.old.items places.old.items entries.old.capacity }
    requires in_range { entry.slot.0 < length (keys_of entries.old.items places.old.items) }
    requires vacant { key_of (keys_of entries.old.items places.old.items) entry.slot ≡ None }
    ensures sound { IsSoundHeap K.cmp entries.new.items places.new.items entries.new.capacity }
    ensures keys { keys_of entries.new.items places.new.items ≡
        slice_set (keys_of entries.old.items places.old.items) entry.slot.0 (Some entry.key) }
{
    let at = entries.len();
    entries.push_reserved(entry);
    place(entries, places, at, entry);
}

/// Removes the entry of a slot, and answers its key.
#[inline]
pub fn remove<K: Copy + Ord>(entries: &mut Entries<K>, places: &mut Vec<u32>, slot: Slot) -> K
    requires sound { IsSoundHeap K.cmp entries.old.items places.old.items entries.old.capacity }
    requires present { IsSome (key_of (keys_of entries.old.items places.old.items) slot) }
    ensures sound { IsSoundHeap K.cmp entries.new.items places.new.items entries.new.capacity }
    ensures key { key_of (keys_of entries.old.items places.old.items) slot ≡ Some result }
    ensures keys { keys_of entries.new.items places.new.items ≡
        slice_set (keys_of entries.old.items places.old.items) slot.0 None }
{
    let key = take_out(entries, places, slot);
    places[slot.0 as usize] = NOWHERE;
    key
}

/// Removes the entry of a slot, and answers its key. What `places` says of the slot stays as it was.
fn take_out<K: Copy + Ord>(entries: &mut Entries<K>, places: &mut Vec<u32>, slot: Slot) -> K
    requires sound { IsSoundHeap K.cmp entries.old.items places.old.items entries.old.capacity }
    requires present { IsSome (key_of (keys_of entries.old.items places.old.items) slot) }
    ensures sound { IsSoundHeap K.cmp entries.new.items places.new.items entries.new.capacity }
    ensures key { key_of (keys_of entries.old.items places.old.items) slot ≡ Some result }
    ensures keys { keys_of entries.new.items places.new.items ≡
        slice_set (keys_of entries.old.items places.old.items) slot.0 None }
{
    let at = places[slot.0 as usize] as usize;
    let key = entries.read(at).key;
    let last = entries.pop();
    if at < entries.len() {
        place(entries, places, at, last);
    }
    key
}

/// Puts an entry in the place of the one that its slot has.
#[inline]
pub fn replace<K: Copy + Ord>(entries: &mut Entries<K>, places: &mut Vec<u32>, entry: Entry<K>)
    requires sound { IsSoundHeap K.cmp entries.old.items places.old.items entries.old.capacity }
    requires present { IsSome (key_of (keys_of entries.old.items places.old.items) entry.slot) }
    ensures sound { IsSoundHeap K.cmp entries.new.items places.new.items entries.new.capacity }
    ensures keys { keys_of entries.new.items places.new.items ≡
        slice_set (keys_of entries.old.items places.old.items) entry.slot.0 (Some entry.key) }
{
    let at = places[entry.slot.0 as usize] as usize;
    place(entries, places, at, entry);
}
