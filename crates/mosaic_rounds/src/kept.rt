//! The bits of a mesh beside those that are kept of its tile.

ghost use Rattle.std.specs.Prelude.{◌≡◌, ℕ, ◌+◌, ◌*◌, ◌%◌, ◌^◌, ◌<◌, ◌≤◌, ◌↔◌, ◌⊎◌, ◌&&◌, ◌||◌, true, false, IsTrue};
ghost use Rattle.std.specs.Prelude.{◌≢◌, length, nat_lt};
ghost use Rattle.mesh_defs.specs.declared.point.Point.{Point};
ghost use Rattle.mesh_defs.specs.declared.level.TheConstants.{GREATEST_LEVEL};
ghost use Rattle.mosaic_laws.specs.Tile.{IsTile};
ghost use Rattle.mosaic_rounds.specs.Bits.{has_bit, splits_at};
ghost use Rattle.mosaic_rounds.specs.Shape.{first_of, IsShape};

use crate::bits::{add, exceeds};
use crate::shape::{Shape, first_bit, side_bit, side_exceeds};
use mesh_defs::Point;

/// Puts the bits of a mesh among those of its tile, and answers whether it did: not if the mesh lacks something that is
/// kept of the tile.
pub fn put_mesh(words: &mut [u64], fresh: &[u64], shape: Shape, t: Point) -> bool
    requires shape { IsShape shape }
    requires room { shape.columns * shape.rows * 2 ^ (shape.n + 2) ≤ 64 * length words.old }
    requires fresh { 2 ^ (shape.n + 2) ≤ 64 * length fresh.now }
    requires tile { IsTile shape.columns shape.rows t }
    ensures words { length words.new ≡ length words.old }
    ensures splits { result ≡ true → (a : ℕ) →
        splits_at shape.n words.new (first_of shape t) a ≡ splits_at shape.n fresh.now 0 a }
    ensures shrunk { (result ≡ false) ↔ ((a : ℕ) ×
        IsTrue (splits_at shape.n words.old (first_of shape t) a) × (splits_at shape.n fresh.now 0 a ≡ false)) }
    ensures kept { result ≡ false → words.new ≡ words.old }
    ensures others { (u : Point) (a : ℕ) → IsTile shape.columns shape.rows u → u ≢ t →
        splits_at shape.n words.new (first_of shape u) a
        ≡ splits_at shape.n words.old (first_of shape u) a }
{
    let first = first_bit(shape, t);
    if lacks_kept(fresh, words, first, shape.n) {
        return false;
    }
    let bits = 1usize << (shape.n + 2);
    add(words, first, fresh, 0, bits);
    true
}

/// Whether the mesh lacks something that is kept of its tile, whose bits begin at this one.
fn lacks_kept(fresh: &[u64], words: &[u64], first: usize, n: u32) -> bool
    requires in_grid { (1 ≤ n) × (n ≤ GREATEST_LEVEL) }
    requires room { first + 2 ^ (n + 2) ≤ 64 * length words.now }
    requires small { first < 2 ^ 62 }
    requires fresh { 2 ^ (n + 2) ≤ 64 * length fresh.now }
    ensures value { (result ≡ true) ↔ ((a : ℕ) × IsTrue (splits_at n words.now first a)
        × (splits_at n fresh.now 0 a ≡ false)) }
{
    if exceeds(words, first, fresh, 0, 1) {
        return true;
    }
    for side in 0..4 {
        let from = side_bit(n, side, 0);
        if side_exceeds(n, words, first + from, fresh, from) {
            return true;
        }
    }
    false
}
