//! Random calls of an addressable heap. `bench/heap.rs` makes the same calls of one in plain Rust.

ghost use Rattle.std.specs.Prelude.{◌≡◌, ◌<◌, length};

use bintree_addr::{Rank, Slot, Tri};
use slot_heap::SlotHeap;
use std::alloc::Global;

/// How many slots the heap has.
const SLOTS: u32 = 262_144;

/// How many calls are made.
const HEAP_CALLS: u32 = 1_000_000;

/// Puts, rekeys and takes ranks at random slots, with a `head` after each, and counts the calls and,
/// as a sum that wraps, the priorities of the heads.
pub fn heap_calls(alloc: Global) -> (u32, u32) {
    let mut number = 1u64;
    let mut calls = 0u32;
    let mut found = 0u32;
    let Ok(mut heap) = SlotHeap::new(alloc, SLOTS) else {
        return (0, 0);
    };
    for _ in 0..HEAP_CALLS {
        let choice = next(&mut number);
        let slot = Slot((choice % u64::from(SLOTS)) as u32);
        let rest = next(&mut number);
        let Some(tri) = Tri::new((rest % 16_777_214) as u32 + 2) else {
            continue;
        };
        let rank = Rank { p: rest >> 24, tri };
        call(&mut heap, slot, rank, choice >> 20 & 1 == 0);
        calls = calls.saturating_add(1);
        if let Some((_, first)) = heap.head() {
            found = found.wrapping_add((first.p % (1 << 32)) as u32);
        }
    }
    (calls, found)
}

/// The next number of a linear congruential generator, without its lowest bits.
fn next(number: &mut u64) -> u64 {
    *number = number
        .wrapping_mul(6_364_136_223_846_793_005)
        .wrapping_add(1_442_695_040_888_963_407);
    *number >> 16
}

/// Puts where the slot has no key, and else rekeys or takes.
fn call(heap: &mut SlotHeap<Rank>, slot: Slot, rank: Rank, again: bool)
    requires in_range { slot.0 < length heap.old }
    ensures { length heap.new ≡ length heap.old }
{
    match heap.key(slot) {
        None => heap.put(slot, rank),
        Some(_) if again => heap.rekey(slot, rank),
        Some(_) => {
            heap.take(slot);
        }
    }
}
