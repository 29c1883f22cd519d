//! Keys of slots: random calls beside a list.

ghost use Rattle.std.specs.Prelude.{◌≡◌, ◌<◌, length};

use bintree_addr::{Rank, Slot, Tri};
use slot_heap::{NoMemory, SlotHeap};
use std::alloc::Global;
use std::cmp::Reverse;

/// How many slots the heaps of the random calls have.
const SLOTS: u32 = 40;

/// The next number of a linear congruential generator.
fn next(random: u32) -> u32 {
    random.wrapping_mul(1_664_525).wrapping_add(1_013_904_223)
}

/// How many random calls a heap takes before it differs from a list; a call for each key.
fn calls_that_agree<K: Copy + Ord>(alloc: Global, keys: &[K]) -> Result<usize, NoMemory> {
    let mut heap: SlotHeap<K> = SlotHeap::new(alloc, SLOTS)?;
    let mut list: Vec<Option<K>> = vec![in alloc; None; SLOTS as usize]?;
    let mut random = 1u32;
    for (place, key) in keys.iter().enumerate() {
        random = next(random);
        let slot = Slot((random >> 8) % SLOTS);
        call(&mut heap, &mut list, slot, *key, random >> 31 == 0);
        if !agrees(&heap, &list) {
            return Ok(place);
        }
    }
    Ok(keys.len())
}

/// Puts where the slot has no key, and else rekeys or takes, in the heap and in the list.
fn call<K: Copy + Ord>(
    heap: &mut SlotHeap<K>,
    list: &mut [Option<K>],
    slot: Slot,
    key: K,
    again: bool,
)
    requires slots { length heap.old ≡ 40 }
    requires in_range { slot.0 < 40 }
    ensures { length heap.new ≡ 40 }
{
    let entry = match heap.key(slot) {
        None => {
            heap.put(slot, key);
            Some(key)
        }
        Some(_) if again => {
            heap.rekey(slot, key);
            Some(key)
        }
        Some(_) => {
            heap.take(slot);
            None
        }
    };
    if let Some(listed) = list.get_mut(slot.0 as usize) {
        *listed = entry;
    }
}

/// Whether each slot has the key of the list, and the head is a slot with the least of them.
fn agrees<K: Copy + Ord>(heap: &SlotHeap<K>, list: &[Option<K>]) -> bool {
    let mut least: Option<K> = None;
    let mut slot = 0u32;
    for listed in list.iter() {
        if heap.key(Slot(slot)) != *listed {
            return false;
        }
        slot = slot.wrapping_add(1);
        least = match (least, *listed) {
            (Some(first), Some(second)) => Some(first.min(second)),
            (None, key) => key,
            (key, None) => key,
        };
    }
    match heap.head() {
        Some((slot, key)) => least == Some(key) && heap.key(slot) == Some(key),
        None => least.is_none(),
    }
}

/// A rank of one of 64 priorities and 30 triangles.
fn rank_of(random: u32) -> Option<Rank> {
    let tri = Tri::new(2 + (random >> 16) % 30)?;
    Some(Rank {
        p: u64::from(random >> 26),
        tri,
    })
}

/// A thousand random ranks, many of them equal.
fn ranks(alloc: Global) -> Option<Vec<Rank>> {
    let mut ranks = Vec::new(alloc);
    let mut random = 1u32;
    for _ in 0..1000 {
        random = next(random);
        ranks.push(rank_of(random)?).ok()?;
    }
    Some(ranks)
}

/// How many calls agree with keys that are the priorities of these ranks, the ranks, and the ranks the other way round.
fn agreements(alloc: Global) -> Option<[usize; 3]> {
    let ranks = ranks(alloc)?;
    let mut priorities = Vec::new(alloc);
    let mut turned = Vec::new(alloc);
    for rank in ranks.iter() {
        priorities.push(rank.p).ok()?;
        turned.push(Reverse(*rank)).ok()?;
    }
    Some([
        calls_that_agree(alloc, priorities.as_slice()).ok()?,
        calls_that_agree(alloc, ranks.as_slice()).ok()?,
        calls_that_agree(alloc, turned.as_slice()).ok()?,
    ])
}

#[test]
fn a_thousand_random_calls_agree_with_a_list(rt: HostRuntime) {
    assert_eq!(rt; agreements(rt.alloc()), Some([1000, 1000, 1000]));
}
