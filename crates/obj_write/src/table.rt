//! A table of vertex numbers that is cleared and counted only where numbers stand.

ghost use Rattle.std.specs.Prelude.{◌≡◌, ◌≢◌, ℕ, ◌+◌, ◌*◌, ◌/◌, ◌^◌, ◌<◌, ◌≤◌, List, All, IfOk, length, replicate};
ghost use Rattle.std.specs.Prelude.{false, slice_index, slice_set};
ghost use Rattle.mesh_defs.specs.HeightField.{side_of};
ghost use Rattle.mesh_defs.specs.Triangle.{level_of};
ghost use Rattle.mesh_defs.specs.MeshText.{vertices_of};
ghost use Rattle.bintree_laws.specs.Corners.{IsInSquare};
ghost use Rattle.mesh_defs.specs.declared.level.TheConstants.{GREATEST_LEVEL};
ghost use Rattle.obj_write.specs.Numbers.{numbers_of};
ghost use Rattle.obj_write.specs.VertexMarks.{grid_place, vertex_marks, numbered, marked};
ghost use Rattle.obj_write.specs.Table.{AreFlagged, IsCounted, block_end};

use crate::vertices::place;
use crate::walk::{corners_on_the_way, first_steps};
use bintree_addr::{Point, Tri};
use pgm_grid::side_for;
use roam_edge::NoMemory;
use std::alloc::Global;
use std::marker::Model;

/// How many places a flag tells of.
pub(crate) const BLOCK: usize = 64;

/// The vertex number of each grid point of a mesh, or 0, by y and then by x.
///
/// For meshes that follow one another over the same grid: what is done for a mesh of few triangles
/// on a large grid is bounded by the triangles, but for a look at one flag in 64 places.
#[derive(Drop)]
pub struct VertexTable {
    pub(crate) numbers: Vec<u32>,
    /// For each block of places whether a number may stand there.
    pub(crate) used: Vec<bool>,
}

impl Model for VertexTable {
    ghost use Rattle.std.specs.Prelude.{ℕ, List};
    ghost use Rattle.obj_write.specs.Table.{AreFlagged};

    ghost Value = { List ℕ };

    ghost view = { λ t. t.numbers.items };

    ghost invariant = { λ t. AreFlagged t.numbers.items t.used.items };
}

impl VertexTable {
    /// The table of a grid with this n, without a vertex.
    pub fn new(alloc: Global, n: u32) -> Result<VertexTable, NoMemory>
        requires in_grid { n ≤ GREATEST_LEVEL }
        ensures { IfOk result (λ t. t ≡ replicate (side_of n * side_of n) 0) }
    {
        let places = side_for(n) * side_for(n);
        Ok(VertexTable {
            numbers: vec![in alloc; 0; places]?,
            used: vec![in alloc; false; places / BLOCK + 1]?,
        })
    }

    /// The numbers.
    pub fn numbers(&self) -> &[u32]
        ensures { result.now ≡ self.now }
    {
        &self.numbers
    }

    /// Gives each vertex of the leaves its number, counted from 1, and answers how many there are.
    /// It is `number_vertices` in other steps.
    ///
    /// Cost (not proved): for each leaf that of `corners_on_the_way`, a step or two in depth-first
    /// order; three passes over the blocks of 64 places in which a vertex stands or stood before,
    /// and a look at the flags of all blocks.
    pub fn number(&mut self, leaves: &[Tri], n: u32) -> u32
        requires in_grid { (1 ≤ n) × (n ≤ GREATEST_LEVEL) }
        requires levels { All (λ a. level_of a ≤ 2 * n) leaves.now }
        requires room { length self.old ≡ side_of n * side_of n }
        ensures numbers { self.new ≡ numbers_of n leaves.now }
        ensures count { result ≡ length (vertices_of n leaves.now) }
        ensures places { length self.new ≡ length self.old }
    {
        let numbers = self.numbers.as_mut_slice();
        let used = self.used.as_mut_slice();
        clear(numbers, used);
        mark_vertices(leaves, n, numbers, used);
        number_blocks(numbers, used, 0, 0)
    }
}

/// Clears the blocks whose flag is set, and the flags.
fn clear(numbers: &mut [u32], used: &mut [bool])
    requires few { length numbers.old < 2 ^ 32 }
    requires flagged { AreFlagged numbers.old used.old }
    ensures numbers { numbers.new ≡ replicate (length numbers.old) 0 }
    ensures flagged { AreFlagged numbers.new used.new }
{
    for block in 0..used.len() {
        if used[block] {
            clear_block(numbers, block);
            used[block] = false;
        }
    }
}

/// Puts 0 at each place of a block.
fn clear_block(numbers: &mut [u32], block: usize)
    requires room { length numbers.old < 2 ^ 32 }
    requires few { block < 2 ^ 32 }
    ensures length { length numbers.new ≡ length numbers.old }
    ensures cleared { (k : ℕ) → k / 64 ≡ block → slice_index numbers.new k ≡ 0 }
    ensures others { (k : ℕ) → k / 64 ≢ block → slice_index numbers.new k ≡ slice_index numbers.old k }
{
    let start = (BLOCK * block).min(numbers.len());
    let end = (BLOCK * block + BLOCK).min(numbers.len());
    for k in start..end {
        numbers[k] = 0;
    }
}

/// Marks the place of each corner by 1, and flags its block.
fn mark_vertices(leaves: &[Tri], n: u32, numbers: &mut [u32], used: &mut [bool])
    requires in_grid { (1 ≤ n) × (n ≤ GREATEST_LEVEL) }
    requires levels { All (λ a. level_of a ≤ 2 * n) leaves.now }
    requires clear { numbers.old ≡ replicate (side_of n * side_of n) 0 }
    requires flagged { AreFlagged numbers.old used.old }
    ensures marks { numbers.new ≡ vertex_marks n leaves.now }
    ensures flagged { AreFlagged numbers.new used.new }
{
    let mut steps = first_steps(n);
    for leaf in leaves {
        let corners = corners_on_the_way(&mut steps, n, *leaf);
        mark_vertex(n, numbers, used, corners.apex);
        mark_vertex(n, numbers, used, corners.v0);
        mark_vertex(n, numbers, used, corners.v1);
    }
}

/// Marks the place of a point, and flags its block.
fn mark_vertex(n: u32, numbers: &mut [u32], used: &mut [bool], point: Point)
    requires in_grid { n ≤ GREATEST_LEVEL }
    requires within { IsInSquare (2 ^ n) point }
    requires room { length numbers.old ≡ side_of n * side_of n }
    requires flagged { AreFlagged numbers.old used.old }
    ensures mark { numbers.new ≡ slice_set numbers.old (grid_place n point) 1 }
    ensures flagged { AreFlagged numbers.new used.new }
{
    let at = place(n, point);
    numbers[at] = 1;
    used[at / BLOCK] = true;
}

/// Puts in place of each mark how many marks there are up to it, from a block on, where those before it are counted
/// and numbered, so many; answers how many there are in all.
pub(crate) fn number_blocks(numbers: &mut [u32], used: &[bool], first: usize, before: u32) -> u32
    requires room { length numbers.old < 2 ^ 32 }
    requires flagged { AreFlagged numbers.old used.now }
    requires first { first ≤ length used.now }
    requires counted { IsCounted numbers.old numbers.old before (block_end numbers.old first) }
    ensures numbers { numbers.new ≡ numbered 0 numbers.old }
    ensures count { result ≡ marked numbers.old }
    ensures flagged { AreFlagged numbers.new used.now }
{
    let mut count = before;
    for block in first..used.len() {
        if used[block] {
            count = number_block(numbers, block, count);
        }
    }
    count
}

/// Numbers the marks of a block, where there are so many before it, and answers how many there are
/// up to its end.
fn number_block(numbers: &mut [u32], block: usize, before: u32) -> u32
    requires room { length numbers.old < 2 ^ 32 }
    requires few { before ≤ block_end numbers.old block }
    requires block { block < 2 ^ 32 }
    ensures counted { (marks : List ℕ) → IsCounted marks numbers.old before (block_end numbers.old block) →
        IsCounted marks numbers.new result (block_end numbers.old (block + 1)) }
    ensures length { length numbers.new ≡ length numbers.old }
    ensures others { (k : ℕ) → k / 64 ≢ block → slice_index numbers.new k ≡ slice_index numbers.old k }
    ensures few { result ≤ block_end numbers.old (block + 1) }
{
    let start = (BLOCK * block).min(numbers.len());
    let end = (BLOCK * block + BLOCK).min(numbers.len());
    let mut count = before;
    for k in start..end {
        if numbers[k] != 0 {
            count += 1;
            numbers[k] = count;
        }
    }
    count
}
