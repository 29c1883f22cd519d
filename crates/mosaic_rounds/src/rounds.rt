//! What is kept of the tiles.

ghost use Rattle.std.specs.Prelude.{◌≡◌, ◌≢◌, ℕ, ◌+◌, ◌*◌, ◌%◌, ◌^◌, ◌<◌, ◌≤◌, ◌↔◌, All, IfOk, IfSome, IfNone, IsErr};
ghost use Rattle.std.specs.Prelude.{OnErr};
ghost use Rattle.std.specs.Prelude.{IsNone, IsTrue, OnOk, false, length, nat_eq, take};
ghost use Rattle.std.specs.List.{IsDistinct};
ghost use Rattle.mesh_defs.specs.declared.point.Point.{Point};
ghost use Rattle.mesh_defs.specs.Triangle.{level_of, IsSplittable};
ghost use Rattle.mesh_defs.specs.ClosedSet.{among};
ghost use Rattle.mesh_defs.specs.declared.level.TheConstants.{GREATEST_LEVEL};
ghost use Rattle.mesh_laws.specs.Ancestors.{ancestors_of};
ghost use Rattle.mosaic_laws.specs.Tile.{IsTile};
ghost use Rattle.mosaic_rounds.specs.declared.shape.TheConstants.{MOST_ACROSS};
ghost use Rattle.mosaic_rounds.specs.Rounds.{splits, IsAskedOf, IsSettled, Lacks, turn_of, wait_of};
ghost use Rattle.mosaic_rounds.specs.BorderPoints.{has_split, IsKept};

use crate::asked::{lacks, tell};
use crate::border_points::BorderPoints;
use crate::kept::put_mesh;
use crate::shape::{MOST_ACROSS, Shape};
use crate::turn::{next_turn, tile_in_turn};
use bintree_addr::Tri;
use mesh_defs::{NoMemory, Point};
use std::alloc::Global;
use std::marker::Model;

/// A mesh lacks a border point, or the centre, that the tile's mesh before had: it was found with less required.
#[derive(Clone, Copy, Debug, PartialEq, Eq)]
pub struct Shrunk;

/// Of each tile of a rectangle, which of its border points are vertices of its mesh, and whether its centre is.
///
/// Memory: at most 2 bits for each border point of each tile, and those of one tile once more.
#[derive(Drop)]
pub struct Rounds {
    shape: Shape,
    /// The turn from which on the next tile is looked for.
    turn: u64,
    /// The bits of all tiles, row by row.
    words: Vec<u64>,
    /// Room for what one mesh has.
    fresh: BorderPoints,
}

impl Model for Rounds {
    ghost use Rattle.mosaic_rounds.specs.Rounds.{RoundsState, rounds_of, IsRoomFor};

    ghost Value = { RoundsState };

    ghost view = { λ r. rounds_of r.shape r.turn r.words.items };

    ghost invariant = { λ r. IsRoomFor r.shape r.turn r.words.items r.fresh };
}

impl Rounds {
    /// So many columns and rows of tiles of side 2^n, of which none has a mesh yet.
    pub fn make(alloc: Global, columns: u32, rows: u32, n: u32) -> Result<Rounds, NoMemory>
        requires in_grid { (1 ≤ n) × (n ≤ GREATEST_LEVEL) }
        requires columns { (1 ≤ columns) × (columns ≤ MOST_ACROSS) }
        requires rows { (1 ≤ rows) × (rows ≤ MOST_ACROSS) }
        ensures columns { IfOk result (λ r. r.columns ≡ columns) }
        ensures rows { IfOk result (λ r. r.rows ≡ rows) }
        ensures n { IfOk result (λ r. r.n ≡ n) }
        ensures turn { IfOk result (λ r. r.turn ≡ 0) }
        ensures splits { IfOk result (λ r. (t : Point) (a : ℕ) → splits r t a ≡ false) }
    {
        let shape = Shape { columns, rows, n };
        let bits = (columns as usize * rows as usize) << (n + 2);
        let words = vec![in alloc; 0u64; bits / 64 + 1]?;
        let fresh = BorderPoints::make(alloc, n)?;
        Ok(Rounds {
            shape,
            turn: 0,
            words,
            fresh,
        })
    }

    /// How many columns of tiles there are.
    pub fn columns(&self) -> u32
        ensures value { result ≡ self.now.columns }
        ensures some { 1 ≤ result }
        ensures few { result ≤ MOST_ACROSS }
    {
        self.shape.columns
    }

    /// How many rows.
    pub fn rows(&self) -> u32
        ensures value { result ≡ self.now.rows }
        ensures some { 1 ≤ result }
        ensures few { result ≤ MOST_ACROSS }
    {
        self.shape.rows
    }

    /// The n of the tiles, whose side is 2^n.
    pub fn n(&self) -> u32
        ensures value { result ≡ self.now.n }
        ensures in_grid { (1 ≤ result) × (result ≤ GREATEST_LEVEL) }
    {
        self.shape.n
    }

    /// The next tile that has to be fitted: something is asked of it that its mesh has not split. None exactly where
    /// each tile has what is asked of it, so that all are one mesh without cracks.
    ///
    /// Tiles whose column and row add up to an even number come before the others, so that these are fitted once with
    /// all that their neighbours have. The search goes on behind the last answer; so calls without a `put` between go
    /// round all tiles that have to be fitted, for as many workers as there are.
    /// Cost (not proved): a step for each 64 border points of each tile that is passed.
    pub fn next(&mut self) -> Option<Point>
        ensures none { IsNone result ↔ IsSettled self.old }
        ensures tile { IfSome result (λ t. IsTile self.old.columns self.old.rows t × Lacks self.old t) }
        ensures order { IfSome result (λ t. (u : Point) → IsTile self.old.columns self.old.rows u →
            Lacks self.old u → wait_of self.old t ≤ wait_of self.old u) }
        ensures turn { IfSome result (λ t. self.new.turn ≡ turn_of self.old t + 1) }
        ensures same { IfNone result (self.new.turn ≡ self.old.turn) }
        ensures columns { self.new.columns ≡ self.old.columns }
        ensures rows { self.new.rows ≡ self.old.rows }
        ensures n { self.new.n ≡ self.old.n }
        ensures splits { (t : Point) (a : ℕ) → splits self.new t a ≡ splits self.old t a }
    {
        let turn = next_turn(&self.words, self.shape, self.turn)?;
        self.turn = turn + 1;
        Some(tile_in_turn(self.shape, turn))
    }

    /// Whether something is asked of the tile that its mesh has not split, so that it has to be fitted.
    pub fn lacks(&self, t: Point) -> bool
        requires tile { IsTile self.now.columns self.now.rows t }
        ensures value { IsTrue result ↔ Lacks self.now t }
    {
        lacks(&self.words, self.shape, t)
    }

    /// Puts the triangles that have to be split in this tile to the front of the list, and answers how many there are:
    /// 2, whose centre is the tile's, and those with their base on a side whose mirror image beyond it is split in the
    /// tile there.
    ///
    /// The list has room for one more than all border points.
    pub fn required(&self, t: Point, list: &mut [Tri]) -> usize
        requires tile { IsTile self.now.columns self.now.rows t }
        requires room { 2 ^ (self.now.n + 2) ≤ length list.old }
        ensures just { (a : ℕ) →
            (IsTrue (among (take result list.new) a) ↔ IsAskedOf self.now t a) }
        ensures distinct { IsDistinct nat_eq (take result list.new) }
        ensures splittable { All (λ a. IsSplittable self.now.n a) (take result list.new) }
        ensures within { result ≤ 2 ^ (self.now.n + 2) }
    {
        tell(&self.words, self.shape, t, list)
    }

    /// Keeps what a mesh of the tile has, by its triangles; those that do not touch the border nor lie below 2 may be
    /// left out.
    ///
    /// A mesh that was found with less required than is by now is taken: it may be late. One that lacks what the mesh
    /// before it had is refused.
    /// Cost (not proved): a few steps for each triangle, and one for each 64 border points.
    pub fn put(&mut self, t: Point, leaves: &[Tri]) -> Result<(), Shrunk>
        requires tile { IsTile self.old.columns self.old.rows t }
        requires levels { All (λ a. level_of a ≤ 2 * self.old.n) leaves.now }
        ensures ok { OnOk result ((a : ℕ) → IsKept self.old.n a →
            splits self.new t a ≡ ancestors_of leaves.now a) }
        ensures only { OnOk result ((a : ℕ) → IsTrue (splits self.new t a) → IsTrue (ancestors_of leaves.now a)) }
        ensures shrunk { IsErr result ↔ ((a : ℕ) × IsTrue (splits self.old t a)
            × (ancestors_of leaves.now a ≡ false)) }
        ensures err { OnErr result ((u : Point) (a : ℕ) → splits self.new u a ≡ splits self.old u a) }
        ensures others { (u : Point) (a : ℕ) → IsTile self.old.columns self.old.rows u → u ≢ t →
            splits self.new u a ≡ splits self.old u a }
        ensures columns { self.new.columns ≡ self.old.columns }
        ensures rows { self.new.rows ≡ self.old.rows }
        ensures n { self.new.n ≡ self.old.n }
        ensures turn { self.new.turn ≡ self.old.turn }
    {
        self.fresh.clear();
        self.fresh.add_leaves(leaves);
        if !put_mesh(&mut self.words, self.fresh.bits(), self.shape, t) {
            return Err(Shrunk);
        }
        Ok(())
    }

    /// Keeps what a mesh of the tile has, by its border points: as `put` does by the mesh itself.
    pub fn put_border(&mut self, t: Point, border: &BorderPoints) -> Result<(), Shrunk>
        requires tile { IsTile self.old.columns self.old.rows t }
        requires n { border.now.n ≡ self.old.n }
        ensures ok { OnOk result ((a : ℕ) → splits self.new t a ≡ has_split border.now a) }
        ensures shrunk { IsErr result ↔ ((a : ℕ) × IsTrue (splits self.old t a)
            × (has_split border.now a ≡ false)) }
        ensures err { OnErr result ((u : Point) (a : ℕ) → splits self.new u a ≡ splits self.old u a) }
        ensures others { (u : Point) (a : ℕ) → IsTile self.old.columns self.old.rows u → u ≢ t →
            splits self.new u a ≡ splits self.old u a }
        ensures columns { self.new.columns ≡ self.old.columns }
        ensures rows { self.new.rows ≡ self.old.rows }
        ensures n { self.new.n ≡ self.old.n }
        ensures turn { self.new.turn ≡ self.old.turn }
    {
        if !put_mesh(&mut self.words, border.bits(), self.shape, t) {
            return Err(Shrunk);
        }
        Ok(())
    }
}
