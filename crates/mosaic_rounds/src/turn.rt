//! Whose turn it is.

ghost use Rattle.std.specs.Prelude.{◌≡◌, ℕ, ◌+◌, ◌*◌, ◌%◌, ◌^◌, ◌<◌, ◌≤◌, ◌↔◌, true, IfSome, IfNone, length};
ghost use Rattle.mesh_defs.specs.declared.point.Point.{Point};
ghost use Rattle.mosaic_laws.specs.Tile.{IsTile};
ghost use Rattle.mosaic_rounds.specs.Shape.{IsShape};
ghost use Rattle.mosaic_rounds.specs.Turn.{turn_in, Waits};

use crate::asked::lacks;
use crate::shape::Shape;
use mesh_defs::Point;

/// The first turn, from this one on, of a tile that lacks something; after the last turn comes the first.
pub fn next_turn(words: &[u64], shape: Shape, turn: u64) -> Option<u64>
    requires shape { IsShape shape }
    requires room { shape.columns * shape.rows * 2 ^ (shape.n + 2) ≤ 64 * length words.now }
    requires turn { turn ≤ 2 * (shape.columns * shape.rows) }
    ensures waits { IfSome result (λ at. Waits shape words.now at) }
    ensures within { IfSome result (λ at. at < 2 * (shape.columns * shape.rows)) }
    ensures first { IfSome result (λ at. turn ≤ at → (v : ℕ) → turn ≤ v → v < at →
        Waits shape words.now v → ⊥) }
    ensures later { IfSome result (λ at. at < turn → (v : ℕ) → turn ≤ v →
        v < 2 * (shape.columns * shape.rows) → Waits shape words.now v → ⊥) }
    ensures wrapped { IfSome result (λ at. at < turn → (v : ℕ) → v < at →
        Waits shape words.now v → ⊥) }
    ensures none { IfNone result ((v : ℕ) → v < 2 * (shape.columns * shape.rows) →
        Waits shape words.now v → ⊥) }
{
    match first_waiting(words, shape, turn, 2 * tiles(shape)) {
        Some(at) => Some(at),
        None => first_waiting(words, shape, 0, turn),
    }
}

/// The first of these turns of a tile that lacks something.
fn first_waiting(words: &[u64], shape: Shape, from: u64, to: u64) -> Option<u64>
    requires shape { IsShape shape }
    requires room { shape.columns * shape.rows * 2 ^ (shape.n + 2) ≤ 64 * length words.now }
    requires to { to ≤ 2 * (shape.columns * shape.rows) }
    ensures waits { IfSome result (λ at. Waits shape words.now at) }
    ensures within { IfSome result (λ at. (from ≤ at) × (at < to)) }
    ensures first { IfSome result (λ at. (v : ℕ) → from ≤ v → v < at → Waits shape words.now v → ⊥) }
    ensures none { IfNone result ((v : ℕ) → from ≤ v → v < to → Waits shape words.now v → ⊥) }
{
    for at in from..to {
        if waits(words, shape, at) {
            return Some(at);
        }
    }
    None
}

/// Whether this is the turn of a tile that lacks something.
fn waits(words: &[u64], shape: Shape, turn: u64) -> bool
    requires shape { IsShape shape }
    requires room { shape.columns * shape.rows * 2 ^ (shape.n + 2) ≤ 64 * length words.now }
    requires turn { turn < 2 * (shape.columns * shape.rows) }
    ensures value { (result ≡ true) ↔ Waits shape words.now turn }
{
    let t = tile_in_turn(shape, turn);
    turn_of(shape, t) == turn && lacks(words, shape, t)
}

/// The tile whose turn it may be: no other has this turn, and some turns are of none.
pub fn tile_in_turn(shape: Shape, turn: u64) -> Point
    requires shape { IsShape shape }
    ensures tile { IsTile shape.columns shape.rows result }
    ensures only { (t : Point) → IsTile shape.columns shape.rows t → turn_in shape t ≡ turn →
        t ≡ result }
{
    let number = turn % tiles(shape);
    let columns = shape.columns as u64;
    Point {
        x: (number % columns) as u32,
        y: (number / columns) as u32,
    }
}

/// The turn of a tile.
pub fn turn_of(shape: Shape, t: Point) -> u64
    requires shape { IsShape shape }
    requires tile { IsTile shape.columns shape.rows t }
    ensures value { result ≡ turn_in shape t }
    ensures within { result < 2 * (shape.columns * shape.rows) }
{
    let number = t.y as u64 * shape.columns as u64 + t.x as u64;
    (t.x + t.y) as u64 % 2 * tiles(shape) + number
}

/// How many tiles there are.
fn tiles(shape: Shape) -> u64
    requires shape { IsShape shape }
    ensures value { result ≡ shape.columns * shape.rows }
    ensures some { 1 ≤ result }
    ensures few { result ≤ 2 ^ 32 }
{
    shape.columns as u64 * shape.rows as u64
}
