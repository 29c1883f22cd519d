//! How one entry goes to its place among the others.
//!
//! In each of these the entry to be placed is held apart, and the clauses see it at `at`.

ghost use Rattle.std.specs.Prelude.{◌≡◌, ◌+◌, ◌*◌, ◌^◌, ◌<◌, ◌≤◌, length, slice_set};
ghost use Rattle.slot_heap.specs.Entries.{HasPlaces, HasKeysOf};
ghost use Rattle.slot_heap.specs.Order.{IsHeap, IsHeapButAt, IsNotBelow, IsNotAbove, IsLeastChild};

use crate::entries::Entries;
use crate::entry::{Entry, is_less};

/// The children of a node: four, so that the tree is half as deep as one of two.
const ARITY: usize = 4;

/// Moves an entry into a place whose old entry is gone, and from there to where its key belongs.
#[inline]
pub fn place<K: Copy + Ord>(
    entries: &mut Entries<K>,
    places: &mut [u32],
    at: usize,
    entry: Entry<K>,
)
    requires in_heap { at < length entries.old.items }
    requires few { length entries.old.items < 2 ^ 32 }
    requires linked { HasPlaces (slice_set entries.old.items at entry) (slice_set places.old entry.slot.0 at) }
    requires order { IsHeapButAt K.cmp (slice_set entries.old.items at entry) at }
    ensures linked { HasPlaces entries.new.items places.new }
    ensures order { IsHeap K.cmp entries.new.items }
    ensures same { HasKeysOf (slice_set entries.old.items at entry) (slice_set places.old entry.slot.0 at)
        entries.new.items places.new }
    ensures count { length entries.new.items ≡ length entries.old.items }
    ensures room { entries.new.capacity ≡ entries.old.capacity }
{
    if at > 0 && is_less(entry, entries.read((at - 1) / ARITY)) {
        rise(entries, places, at, entry);
    } else {
        sink(entries, places, at, entry);
    }
}

/// Moves an entry up while its parent's key is greater.
fn rise<K: Copy + Ord>(entries: &mut Entries<K>, places: &mut [u32], mut at: usize, entry: Entry<K>)
    requires in_heap { at < length entries.old.items }
    requires few { length entries.old.items < 2 ^ 32 }
    requires linked { HasPlaces (slice_set entries.old.items at entry) (slice_set places.old entry.slot.0 at) }
    requires order { IsHeapButAt K.cmp (slice_set entries.old.items at entry) at }
    requires children { IsNotAbove K.cmp (slice_set entries.old.items at entry) at }
    ensures linked { HasPlaces entries.new.items places.new }
    ensures order { IsHeap K.cmp entries.new.items }
    ensures same { HasKeysOf (slice_set entries.old.items at entry) (slice_set places.old entry.slot.0 at)
        entries.new.items places.new }
    ensures count { length entries.new.items ≡ length entries.old.items }
    ensures room { entries.new.capacity ≡ entries.old.capacity }
{
    while at > 0 {
        let above = (at - 1) / ARITY;
        let parent = entries.read(above);
        if !is_less(entry, parent) {
            break;
        }
        store(entries, places, at, parent);
        at = above;
    }
    store(entries, places, at, entry);
}

/// Moves an entry down while a child's key is less.
fn sink<K: Copy + Ord>(entries: &mut Entries<K>, places: &mut [u32], mut at: usize, entry: Entry<K>)
    requires in_heap { at < length entries.old.items }
    requires few { length entries.old.items < 2 ^ 32 }
    requires linked { HasPlaces (slice_set entries.old.items at entry) (slice_set places.old entry.slot.0 at) }
    requires order { IsHeapButAt K.cmp (slice_set entries.old.items at entry) at }
    requires parent { IsNotBelow K.cmp (slice_set entries.old.items at entry) at }
    ensures linked { HasPlaces entries.new.items places.new }
    ensures order { IsHeap K.cmp entries.new.items }
    ensures same { HasKeysOf (slice_set entries.old.items at entry) (slice_set places.old entry.slot.0 at)
        entries.new.items places.new }
    ensures count { length entries.new.items ≡ length entries.old.items }
    ensures room { entries.new.capacity ≡ entries.old.capacity }
{
    while ARITY * at + 1 < entries.len() {
        let below = least_child(entries, at);
        let child = entries.read(below);
        if !is_less(child, entry) {
            break;
        }
        store(entries, places, at, child);
        at = below;
    }
    store(entries, places, at, entry);
}

/// Puts an entry at a place, and notes the place.
fn store<K: Copy + Ord>(entries: &mut Entries<K>, places: &mut [u32], at: usize, entry: Entry<K>)
    requires in_heap { at < length entries.old.items }
    requires few { length entries.old.items < 2 ^ 32 }
    requires slot { entry.slot.0 < length places.old }
    ensures entries { entries.new.items ≡ slice_set entries.old.items at entry }
    ensures places { places.new ≡ slice_set places.old entry.slot.0 at }
    ensures room { entries.new.capacity ≡ entries.old.capacity }
{
    entries.write(at, entry);
    places[entry.slot.0 as usize] = at as u32;
}

/// The place of the child with the least key.
fn least_child<K: Copy + Ord>(entries: &Entries<K>, at: usize) -> usize
    requires { 4 * at + 1 < length entries.now.items }
    ensures { IsLeastChild K.cmp entries.now.items at result }
{
    let len = entries.len();
    let first = ARITY * at + 1;
    let end = first + ARITY.min(len - first);
    let mut least = first;
    for i in first + 1..end {
        if is_less(entries.read(i), entries.read(least)) {
            least = i;
        }
    }
    least
}
