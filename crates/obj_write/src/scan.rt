//! The next place at which a number stands.

ghost use Rattle.std.specs.Prelude.{◌≡◌, ℕ, ◌+◌, ◌<◌, ◌≤◌, length, slice_index, IfSome};
ghost use Rattle.obj_write.specs.Scan.{IsClear, IsFirstIn, first_set};
ghost use Rattle.obj_write.specs.Table.{AreFlagged};
ghost use Rattle.obj_write.specs.declared.scan.TheConstants.{LANES};

use crate::table::BLOCK;
use std::simd::prelude::*;

/// How many places are looked at together.
const LANES: usize = 16;

/// The first place from this one on with a number other than 0, or the number of places. Where flags are there, a block
/// whose flag is not set is not looked at.
///
/// Cost (not proved): a step for each block that is passed, and one for each sixteen places of those whose flag is set,
/// or of all.
#[inline(always)]
pub(crate) fn first_from(numbers: &[u32], used: Option<&[bool]>, from: usize) -> usize
    requires flagged { IfSome used (λ used. AreFlagged numbers.now used.now) }
    requires from { from ≤ length numbers.now }
    ensures later { from ≤ result }
    ensures within { result ≤ length numbers.now }
    ensures clear { IsClear numbers.now from result }
    ensures number { result < length numbers.now → slice_index numbers.now result ≡ 0 → ⊥ }
{
    match used {
        Some(used) => first_numbered(numbers, used, from),
        None => first_of_all(numbers, from),
    }
}

/// The same where no flags are there.
#[inline(never)]
fn first_of_all(numbers: &[u32], from: usize) -> usize
    requires from { from ≤ length numbers.now }
    ensures later { from ≤ result }
    ensures within { result ≤ length numbers.now }
    ensures clear { IsClear numbers.now from result }
    ensures number { result < length numbers.now → slice_index numbers.now result ≡ 0 → ⊥ }
{
    first_before(numbers, from, numbers.len())
}

/// The same with flags.
#[inline(always)]
fn first_numbered(numbers: &[u32], used: &[bool], from: usize) -> usize
    requires flagged { AreFlagged numbers.now used.now }
    requires from { from ≤ length numbers.now }
    ensures later { from ≤ result }
    ensures within { result ≤ length numbers.now }
    ensures clear { IsClear numbers.now from result }
    ensures number { result < length numbers.now → slice_index numbers.now result ≡ 0 → ⊥ }
{
    let mut at = from;
    while at < numbers.len() {
        let block = at / BLOCK;
        let end = (BLOCK * block + BLOCK).min(numbers.len());
        if used[block] {
            at = first_before(numbers, at, end);
            if at < end {
                return at;
            }
        } else {
            at = end;
        }
    }
    at
}

/// The first place from this one on with a number other than 0, if it is before the end; else a place from the end on
/// before which no number stands.
#[inline(always)]
fn first_before(numbers: &[u32], from: usize, end: usize) -> usize
    requires from { from ≤ end }
    requires end { end ≤ length numbers.now }
    ensures later { from ≤ result }
    ensures within { result ≤ length numbers.now }
    ensures clear { IsClear numbers.now from result }
    ensures number { result < end → slice_index numbers.now result ≡ 0 → ⊥ }
{
    let mut at = from;
    while at < end {
        if numbers.len() - at < LANES {
            return first_left(numbers, at);
        }
        let passed = clear_lanes(numbers, at);
        at += passed;
        if passed < LANES {
            return at;
        }
    }
    at
}

/// How many of sixteen places come before the first with a number other than 0; sixteen where there is none.
#[inline(always)]
fn clear_lanes(numbers: &[u32], at: usize) -> usize
    requires { at + LANES ≤ length numbers.now }
    ensures { IsFirstIn numbers.now at LANES result }
{
    let lanes = u32x16::from_slice(&numbers[at..]);
    let some = lanes.simd_ne(u32x16::splat(0));
    first_set(some.to_bitmask(), LANES)
}

/// The place of the lowest bit that is set, or the number of lanes.
#[inline(always)]
fn first_set(mask: u64, lanes: usize) -> usize
    ensures { result ≡ first_set mask lanes }
{
    if mask == 0 {
        lanes
    } else {
        mask.trailing_zeros() as usize
    }
}

/// The first place from this one on with a number other than 0, or the number of places, of the last places, one
/// after another.
fn first_left(numbers: &[u32], from: usize) -> usize
    requires { from ≤ length numbers.now }
    ensures later { from ≤ result }
    ensures within { result ≤ length numbers.now }
    ensures clear { IsClear numbers.now from result }
    ensures number { result < length numbers.now → slice_index numbers.now result ≡ 0 → ⊥ }
{
    for at in from..numbers.len() {
        if numbers[at] != 0 {
            return at;
        }
    }
    numbers.len()
}
