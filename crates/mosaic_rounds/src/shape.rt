//! How many tiles there are and of which side, and where a tile's bits are.

ghost use Rattle.std.specs.Prelude.{◌≡◌, ℕ, ◌+◌, ◌*◌, ◌^◌, ◌<◌, ◌≤◌, ◌↔◌, true, false, IsTrue, length};
ghost use Rattle.mesh_defs.specs.declared.point.Point.{Point};
ghost use Rattle.mesh_defs.specs.declared.level.TheConstants.{GREATEST_LEVEL};
ghost use Rattle.mosaic_laws.specs.Tile.{IsTile};
ghost use Rattle.mosaic_rounds.specs.Bits.{has_bit};
ghost use Rattle.mosaic_rounds.specs.Shape.{first_of, IsShape};
ghost use Rattle.mosaic_rounds.specs.declared.shape.TheConstants.{MOST_ACROSS};

use crate::bits::exceeds;
use mesh_defs::Point;

/// The most columns, and the most rows: at n = 14 a terrain of 2^30 points a side.
pub const MOST_ACROSS: u32 = 65_536;

/// So many columns and rows of tiles of side 2^n.
#[derive(Clone, Copy, Debug, PartialEq, Eq)]
pub struct Shape {
    pub columns: u32,
    pub rows: u32,
    pub n: u32,
}

/// The number of a tile's first bit.
pub fn first_bit(shape: Shape, t: Point) -> usize
    requires shape { IsShape shape }
    requires tile { IsTile shape.columns shape.rows t }
    ensures value { result ≡ first_of shape t }
    ensures small { result < 2 ^ 48 }
    ensures room { result + 2 ^ (shape.n + 2) ≤ shape.columns * shape.rows * 2 ^ (shape.n + 2) }
{
    (t.y as usize * shape.columns as usize + t.x as usize) << (shape.n + 2)
}

/// The number of the bit at this place of this side, of those of a tile.
pub fn side_bit(n: u32, side: u32, place: u32) -> usize
    requires in_grid { n ≤ GREATEST_LEVEL }
    requires side { side < 4 }
    requires place { place < 2 ^ n }
    ensures value { result ≡ side * 2 ^ n + place }
    ensures within { result < 2 ^ (n + 2) }
{
    ((side as usize) << n) + place as usize
}

/// Whether a place of one side has its bit set, and the same place of another side has not; their bits begin at these.
pub fn side_exceeds(n: u32, words: &[u64], side: usize, others: &[u64], other: usize) -> bool
    requires in_grid { n ≤ GREATEST_LEVEL }
    requires room { side + 2 ^ n ≤ 64 * length words.now }
    requires others { other + 2 ^ n ≤ 64 * length others.now }
    requires small { (side < 2 ^ 63) × (other < 2 ^ 63) }
    ensures value { (result ≡ true) ↔ ((p : ℕ) × (1 ≤ p) × (p < 2 ^ n) × IsTrue (has_bit words.now (side + p))
        × (has_bit others.now (other + p) ≡ false)) }
{
    let places = (1usize << n) - 1;
    exceeds(words, side + 1, others, other + 1, places)
}

/// What the limit is, as a number. It does nothing.
pub fn limit_laws()
    ensures most_across { MOST_ACROSS ≡ 2 ^ 16 }
{}
