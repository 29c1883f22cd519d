//! What is asked of a tile: what its neighbours have on the common sides, and its centre.

ghost use Rattle.std.specs.Prelude.{◌≡◌, ℕ, ◌+◌, ◌-◌, ◌*◌, ◌^◌, ◌<◌, ◌≤◌, ◌↔◌, ◌⊎◌, true, All, IsTrue, take, length};
ghost use Rattle.std.specs.Prelude.{nat_eq};
ghost use Rattle.std.specs.List.{IsDistinct};
ghost use Rattle.mesh_defs.specs.declared.point.Point.{Point};
ghost use Rattle.mesh_defs.specs.Triangle.{IsSplittable};
ghost use Rattle.mesh_defs.specs.ClosedSet.{among};
ghost use Rattle.mosaic_laws.specs.Tile.{IsTile};
ghost use Rattle.mosaic_rounds.specs.Shape.{IsShape};
ghost use Rattle.mosaic_rounds.specs.Across.{IsAcross, LacksAcross, IsAskedBy, LacksBy};

use crate::bits::is_set;
use crate::border::border_tri;
use crate::shape::{Shape, first_bit, side_bit, side_exceeds};
use crate::side::{beyond, facing};
use bintree_addr::Tri;
use mesh_defs::Point;

/// Whether something is asked of the tile that it has not split.
pub fn lacks(words: &[u64], shape: Shape, t: Point) -> bool
    requires shape { IsShape shape }
    requires room { shape.columns * shape.rows * 2 ^ (shape.n + 2) ≤ 64 * length words.now }
    requires tile { IsTile shape.columns shape.rows t }
    ensures value { (result ≡ true) ↔ LacksBy shape words.now t 4 }
{
    if !is_set(words, first_bit(shape, t)) {
        return true;
    }
    for side in 0..4 {
        if lacks_across(words, shape, t, side) {
            return true;
        }
    }
    false
}

/// Whether the tile beyond this side has split something there that this one has not.
fn lacks_across(words: &[u64], shape: Shape, t: Point, side: u32) -> bool
    requires shape { IsShape shape }
    requires room { shape.columns * shape.rows * 2 ^ (shape.n + 2) ≤ 64 * length words.now }
    requires tile { IsTile shape.columns shape.rows t }
    requires side { side < 4 }
    ensures value { (result ≡ true) ↔ LacksAcross shape words.now t side }
{
    let Some(u) = beyond(shape, t, side) else {
        return false;
    };
    let there = first_bit(shape, u);
    let opposite = side_bit(shape.n, facing(side), 0);
    let here = first_bit(shape, t);
    let own = side_bit(shape.n, side, 0);
    side_exceeds(shape.n, words, there + opposite, words, here + own)
}

/// Puts what is asked of the tile to the front of the list, and answers how many there are.
pub fn tell(words: &[u64], shape: Shape, t: Point, list: &mut [Tri]) -> usize
    requires shape { IsShape shape }
    requires room { shape.columns * shape.rows * 2 ^ (shape.n + 2) ≤ 64 * length words.now }
    requires tile { IsTile shape.columns shape.rows t }
    requires list { 2 ^ (shape.n + 2) ≤ length list.old }
    ensures just { (a : ℕ) →
        (IsTrue (among (take result list.new) a) ↔ IsAskedBy shape words.now t 4 a) }
    ensures distinct { IsDistinct nat_eq (take result list.new) }
    ensures within { result ≤ 2 ^ (shape.n + 2) }
{
    list[0] = Tri::LOWER;
    let mut count = 1;
    for side in 0..4 {
        count = tell_across(words, shape, t, side, list, count);
    }
    count
}

/// Puts what is asked for across this side behind the first ones, and answers how many there are now.
fn tell_across(
    words: &[u64],
    shape: Shape,
    t: Point,
    side: u32,
    list: &mut [Tri],
    count: usize,
) -> usize
    requires shape { IsShape shape }
    requires room { shape.columns * shape.rows * 2 ^ (shape.n + 2) ≤ 64 * length words.now }
    requires tile { IsTile shape.columns shape.rows t }
    requires side { side < 4 }
    requires list { count + 2 ^ shape.n ≤ length list.old }
    ensures room { length list.new ≡ length list.old }
    ensures just { (a : ℕ) → (IsTrue (among (take result list.new) a)
        ↔ (IsTrue (among (take count list.old) a) ⊎ IsAcross shape words.now t side a)) }
    ensures distinct { ((a : ℕ) → IsTrue (among (take count list.old) a) → IsAcross shape words.now t side a → ⊥) →
        IsDistinct nat_eq (take count list.old) → IsDistinct nat_eq (take result list.new) }
    ensures within { (count ≤ result) × (result < count + 2 ^ shape.n) }
{
    let Some(u) = beyond(shape, t, side) else {
        return count;
    };
    let there = first_bit(shape, u);
    let mut next = count;
    for place in 1..1u32 << shape.n {
        if is_set(words, there + side_bit(shape.n, facing(side), place)) {
            list[next] = border_tri(side, place);
            next += 1;
        }
    }
    next
}
