//! The pool of linked triangles: made, filled, emptied, and refined by force.

use bintree_addr::Slot;
use force_split::{carry_out, plan};
use std::alloc::Global;
use triangle_pool::Pool;

/// The level of the grid, and the greatest number of leaves that a pool may have.
const LEVEL: u32 = 11;

const MOST: u32 = 1 << 20;

/// What is done with a full pool.
#[derive(Clone, Copy, PartialEq, Eq)]
pub enum Work {
    Fill,
    FillAndEmpty,
    FillAndPlan,
}

/// Makes the greatest pool, and counts the calls and the leaves.
pub fn made(alloc: Global) -> (u32, u32) {
    let mut calls = 0u32;
    let mut found = 0u32;
    for _ in 0..10 {
        if let Ok(pool) = Pool::new(alloc, LEVEL, MOST) {
            calls = calls.saturating_add(1);
            found = found.saturating_add(pool.leaf_count());
        }
    }
    (calls, found)
}

/// Splits the leaf at the slot, if there is one that can be split, and keeps the children's slots.
fn grow(pool: &mut Pool, s: Slot, slots: &mut Vec<Slot>) -> bool {
    if !pool.is_live(s) || !pool.is_leaf(s) || !pool.may_split(s) || pool.room() < 2 {
        return false;
    }
    if pool.tri(s).level() >= 2 * pool.n() || pool.splits() >= 1 << 62 {
        return false;
    }
    let born = pool.split(s);
    let mut kept = slots.push(born.first.0).is_ok() && slots.push(born.first.1).is_ok();
    if let Some((left, right)) = born.second {
        kept = kept && slots.push(left).is_ok() && slots.push(right).is_ok();
    }
    kept
}

/// Merges the diamond at the slot, if there is one that can be merged.
fn shrink(pool: &mut Pool, s: Slot) -> bool {
    if !pool.is_live(s) || !pool.merge_ready(s) || pool.merges() >= 1 << 62 {
        return false;
    }
    let _gone = pool.merge(s);
    true
}

/// Splits level by level until the pool is full, and then does the work. Counts the diamonds, and adds up the answers.
pub fn filled(alloc: Global, work: Work) -> (u32, u32) {
    let mut calls = 0u32;
    let mut found = 0u32;
    if let (Ok(mut pool), Ok(mut slots)) = (
        Pool::new(alloc, LEVEL, MOST),
        Vec::with_capacity(alloc, 2 * MOST as usize),
    ) {
        let _first = slots.push(Slot(0)).is_ok() && slots.push(Slot(1)).is_ok();
        for place in 0..2 * MOST as usize {
            if place < slots.len() {
                let s = slots[place];
                if grow(&mut pool, s, &mut slots) {
                    calls = calls.saturating_add(1);
                }
            }
        }
        found = pool.leaf_count();
        if work == Work::FillAndEmpty {
            for place in 0..slots.len() {
                let s = slots[slots.len() - 1 - place];
                if shrink(&mut pool, s) {
                    calls = calls.saturating_add(1);
                }
            }
            found = pool.leaf_count();
        }
        if work == Work::FillAndPlan {
            for s in slots.iter() {
                if pool.is_live(*s) && pool.is_leaf(*s) && pool.tri(*s).level() < 2 * pool.n() {
                    calls = calls.saturating_add(1);
                    found = found.saturating_add(plan(&pool, *s).gain);
                }
            }
        }
    }
    (calls, found)
}

/// The leaf to which the digits of the number lead.
fn leaf(pool: &Pool, number: u32) -> Option<Slot> {
    let mut s = Slot(number & 1);
    for digit in 1u32..24 {
        if !pool.is_live(s) {
            return None;
        }
        match pool.children(s) {
            None => return Some(s),
            Some((left, right)) => {
                s = if (number >> digit) & 1 == 0 {
                    left
                } else {
                    right
                };
            }
        }
    }
    None
}

/// Refines by force at random leaves until the pool is full, or only walks to them. Counts the leaves, and adds up
/// the gains.
pub fn refined(alloc: Global, forced: bool) -> (u32, u32) {
    let mut calls = 0u32;
    let mut found = 0u32;
    let mut number = 1u32;
    if let Ok(mut pool) = Pool::new(alloc, LEVEL, MOST) {
        for _ in 0..400_000 {
            number = number.wrapping_mul(1664525).wrapping_add(1013904223);
            let Some(s) = leaf(&pool, number >> 8) else {
                continue;
            };
            calls = calls.saturating_add(1);
            if !forced {
                found = found.saturating_add(s.0 & 1);
            } else if pool.is_live(s) && pool.is_leaf(s) && pool.tri(s).level() < 2 * pool.n() {
                let chain = plan(&pool, s);
                if chain.gain <= pool.room() && pool.splits() < (1 << 62) - 60 {
                    let born = carry_out(&mut pool, &chain);
                    found = found.saturating_add(born.len() as u32);
                }
            }
        }
        found = found.saturating_add(pool.leaf_count());
    }
    (calls, found)
}
