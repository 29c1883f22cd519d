//! A row of samples that is raised or lowered within its bounds.

ghost use Rattle.std.specs.Prelude.{◌≡◌, ◌+◌, ◌-◌, ◌≤◌, ◌≤ℤ◌, unsigned_abs, length, map, min, All};
ghost use Rattle.roam_lanes.specs.Raising.{least_change, greatest_change, raised};

use crate::lanes::{greater, lesser};
use std::simd::prelude::*;

/// The samples of a block.
const LANES: usize = 8;

/// Adds `delta` to each sample and brings it into 0 to `maxval`.
///
/// Cost (not proved): a step for each block of eight samples.
pub fn raise_row(row: &mut [u16], delta: i32, maxval: u16)
    requires at_least { least_change ≤ℤ delta }
    requires at_most { delta ≤ℤ greatest_change }
    requires bounded { All (λ h. h ≤ maxval) row.old }
    ensures value { row.new ≡ map (λ h. raised maxval delta h) row.old }
{
    if delta < 0 {
        lower_by(row, size_of_step(delta));
    } else {
        raise_by(row, size_of_step(delta), maxval);
    }
}

/// The plain twin of `raise_row`: sample by sample.
pub fn raise_row_plain(row: &mut [u16], delta: i32, maxval: u16)
    requires at_least { least_change ≤ℤ delta }
    requires at_most { delta ≤ℤ greatest_change }
    requires bounded { All (λ h. h ≤ maxval) row.old }
    ensures value { row.new ≡ map (λ h. raised maxval delta h) row.old }
{
    if delta < 0 {
        lower_by_plain(row, size_of_step(delta));
    } else {
        raise_by_plain(row, size_of_step(delta), maxval);
    }
}

/// How far a step goes, up or down.
fn size_of_step(delta: i32) -> u16
    requires at_least { least_change ≤ℤ delta }
    requires at_most { delta ≤ℤ greatest_change }
    ensures { result ≡ unsigned_abs delta }
{
    delta.unsigned_abs() as u16
}

/// Adds to each sample, up to `maxval`.
fn raise_by(row: &mut [u16], by: u16, maxval: u16)
    ensures { row.new ≡ map (λ h. min (h + by) maxval) row.old }
{
    let blocks = row.len() / LANES;
    for k in 0..blocks {
        raise_block(&mut row[8 * k..8 * k + 8], by, maxval);
    }
    raise_by_plain(&mut row[8 * blocks..], by, maxval);
}

/// The plain twin of `raise_by`.
fn raise_by_plain(row: &mut [u16], by: u16, maxval: u16)
    ensures { row.new ≡ map (λ h. min (h + by) maxval) row.old }
{
    for i in 0..row.len() {
        row[i] = row[i].saturating_add(by).min(maxval);
    }
}

/// Adds to each sample of a block, up to `maxval`: what is above the room for the sum is cut off first.
#[inline(always)]
fn raise_block(block: &mut [u16], by: u16, maxval: u16)
    requires { length block.old ≡ 8 }
    ensures { block.new ≡ map (λ h. min (h + by) maxval) block.old }
{
    let by = by.min(maxval);
    let lanes = lesser(u16x8::from_slice(block), u16x8::splat(maxval - by));
    (lanes + u16x8::splat(by)).copy_to_slice(block);
}

/// Takes from each sample, down to 0.
fn lower_by(row: &mut [u16], by: u16)
    ensures { row.new ≡ map (λ h. h - by) row.old }
{
    let blocks = row.len() / LANES;
    for k in 0..blocks {
        lower_block(&mut row[8 * k..8 * k + 8], by);
    }
    lower_by_plain(&mut row[8 * blocks..], by);
}

/// The plain twin of `lower_by`.
fn lower_by_plain(row: &mut [u16], by: u16)
    ensures { row.new ≡ map (λ h. h - by) row.old }
{
    for i in 0..row.len() {
        row[i] = row[i].saturating_sub(by);
    }
}

/// Takes from each sample of a block, down to 0.
#[inline(always)]
fn lower_block(block: &mut [u16], by: u16)
    requires { length block.old ≡ 8 }
    ensures { block.new ≡ map (λ h. h - by) block.old }
{
    lowered(u16x8::from_slice(block), by).copy_to_slice(block);
}

/// Takes from each lane, down to 0: what is below `by` is filled up first.
#[inline(always)]
fn lowered(lanes: u16x8, by: u16) -> u16x8
    ensures { result ≡ map (λ h. h - by) lanes }
{
    greater(lanes, u16x8::splat(by)) - u16x8::splat(by)
}
