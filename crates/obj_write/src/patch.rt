//! Vertex numbers mended where a few vertices came and went.

ghost use Rattle.std.specs.Prelude.{◌≡◌, ◌≢◌, ℕ, ◌+◌, ◌*◌, ◌/◌, ◌^◌, ◌<◌, ◌≤◌, if◌then◌else◌, List, All, length, take};
ghost use Rattle.std.specs.Prelude.{slice_index, slice_set};
ghost use Rattle.mesh_defs.specs.HeightField.{side_of};
ghost use Rattle.mesh_defs.specs.MeshText.{vertices_of};
ghost use Rattle.bintree_laws.specs.Corners.{IsInSquare};
ghost use Rattle.mesh_defs.specs.declared.level.TheConstants.{GREATEST_LEVEL};
ghost use Rattle.obj_write.specs.Numbers.{numbers_of};
ghost use Rattle.obj_write.specs.VertexMarks.{grid_place};
ghost use Rattle.obj_write.specs.Table.{AreFlagged, block_end};
ghost use Rattle.obj_write.specs.Patch.{AreNumbers, AreChanges, with_changes, last_number};

use crate::table::{BLOCK, VertexTable, number_blocks};
use crate::vertices::place;
use bintree_addr::Point;

/// A grid point at which a vertex may have come or gone.
#[derive(Clone, Copy, Debug)]
pub struct VertexChange {
    pub point: Point,
    /// Whether it is a vertex now.
    pub shown: bool,
}

impl VertexTable {
    /// Mends the numbers where vertices came and went, and answers how many vertices there are.
    ///
    /// A point may stand among the changes more than once, and one at which nothing has changed, too.
    /// It is `number` in other steps: where the table has the numbers of some triangles, and others have the same
    /// vertices but for the points of the changes, it has the numbers of the others then. What those triangles are is
    /// not asked.
    ///
    /// Cost (not proved): a step for each change; a look back to the last number before the first block of 64 places
    /// that has a change; from there on a pass over the blocks in which a vertex stands or stood, and a look at the
    /// flag of each block.
    pub fn patch(&mut self, changes: &[VertexChange], n: u32) -> u32
        requires in_grid { n ≤ GREATEST_LEVEL }
        requires within { All (λ c. IsInSquare (2 ^ n) c.point) changes.now }
        requires numbers { AreNumbers n self.old }
        ensures numbers { (before after : List ℕ) → self.old ≡ numbers_of n before →
            AreChanges n before after changes.now → self.new ≡ numbers_of n after }
        ensures count { (before after : List ℕ) → self.old ≡ numbers_of n before →
            AreChanges n before after changes.now → result ≡ length (vertices_of n after) }
        ensures places { length self.new ≡ length self.old }
    {
        let numbers = self.numbers.as_mut_slice();
        let used = self.used.as_mut_slice();
        let first = put_changes(changes, n, numbers, used);
        let before = last_before(numbers, used, first);
        number_blocks(numbers, used, first, before)
    }
}

/// Puts 1 at the point of each change that is a vertex now, and 0 at that of each other one; flags their blocks, and
/// answers the first of these, or the number of blocks where there is no change.
fn put_changes(changes: &[VertexChange], n: u32, numbers: &mut [u32], used: &mut [bool]) -> usize
    requires in_grid { n ≤ GREATEST_LEVEL }
    requires within { All (λ c. IsInSquare (2 ^ n) c.point) changes.now }
    requires room { length numbers.old ≡ side_of n * side_of n }
    requires flagged { AreFlagged numbers.old used.old }
    ensures numbers { numbers.new ≡ with_changes n changes.now numbers.old }
    ensures flagged { AreFlagged numbers.new used.new }
    ensures front { (k : ℕ) → k / 64 < result →
        slice_index numbers.new k ≡ slice_index numbers.old k }
    ensures first { result ≤ length used.old }
{
    let mut first = used.len();
    for change in changes {
        let block = put_change(n, numbers, used, *change);
        first = first.min(block);
    }
    first
}

/// The same for one change; answers its block.
fn put_change(n: u32, numbers: &mut [u32], used: &mut [bool], change: VertexChange) -> usize
    requires in_grid { n ≤ GREATEST_LEVEL }
    requires within { IsInSquare (2 ^ n) change.point }
    requires room { length numbers.old ≡ side_of n * side_of n }
    requires flagged { AreFlagged numbers.old used.old }
    ensures number { numbers.new ≡ slice_set numbers.old (grid_place n change.point)
        (if change.shown then 1 else 0) }
    ensures flagged { AreFlagged numbers.new used.new }
    ensures block { result ≡ grid_place n change.point / 64 }
{
    let at = place(n, change.point);
    numbers[at] = if change.shown { 1 } else { 0 };
    used[at / BLOCK] = true;
    at / BLOCK
}

/// The last number before a block, or 0 where there is none.
fn last_before(numbers: &[u32], used: &[bool], block: usize) -> u32
    requires room { length numbers.now < 2 ^ 32 }
    requires flagged { AreFlagged numbers.now used.now }
    requires block { block ≤ length used.now }
    ensures { result ≡ last_number 0 (take (block_end numbers.now block) numbers.now) }
{
    for back in 0..block {
        let at = block - 1 - back;
        if used[at] {
            let last = last_in_block(numbers, at);
            if last != 0 {
                return last;
            }
        }
    }
    0
}

/// The last number in a block, or 0 where there is none.
fn last_in_block(numbers: &[u32], block: usize) -> u32
    requires room { length numbers.now < 2 ^ 32 }
    requires block { block < 2 ^ 32 }
    ensures none { result ≡ 0 → last_number 0 (take (block_end numbers.now (block + 1)) numbers.now)
        ≡ last_number 0 (take (block_end numbers.now block) numbers.now) }
    ensures some { result ≢ 0 →
        last_number 0 (take (block_end numbers.now (block + 1)) numbers.now) ≡ result }
{
    let start = (BLOCK * block).min(numbers.len());
    let end = (BLOCK * block + BLOCK).min(numbers.len());
    let mut last = 0;
    for k in start..end {
        if numbers[k] != 0 {
            last = numbers[k];
        }
    }
    last
}
