//! What a mesh has split on the sides of its tile, by its leaves.

ghost use Rattle.std.specs.Prelude.{◌≡◌, ℕ, ◌-◌, ◌+◌, ◌*◌, ◌/◌, ◌^◌, ◌<◌, ◌≤◌, IsTrue, All, take, length};
ghost use Rattle.mesh_defs.specs.Triangle.{level_of};
ghost use Rattle.mesh_defs.specs.declared.level.TheConstants.{GREATEST_LEVEL};
ghost use Rattle.mosaic_rounds.specs.Border.{is_border, side_of, place_of};
ghost use Rattle.mosaic_rounds.specs.Marks.{Marks, MarksAll, IsClear};

use crate::bits::set;
use crate::border::backwards;
use crate::shape::side_bit;
use bintree_addr::Tri;

/// No bit is set any more.
pub fn clear(words: &mut [u64])
    ensures room { length words.new ≡ length words.old }
    ensures clear { (n : ℕ) → IsClear n words.new }
{
    words.fill(0);
}

/// Sets the bits of what lies above the leaves: of 2, and of the triangles with their base on a side.
///
/// Cost (not proved): a few steps for each leaf, and one more for each triangle above it that is on a side.
pub fn mark_splits(words: &mut [u64], n: u32, leaves: &[Tri])
    requires in_grid { (1 ≤ n) × (n ≤ GREATEST_LEVEL) }
    requires room { 2 ^ (n + 2) ≤ 64 * length words.old }
    requires levels { All (λ a. level_of a ≤ 2 * n) leaves.now }
    ensures room { length words.new ≡ length words.old }
    ensures marks { MarksAll n leaves.now words.old words.new }
{
    for &leaf in leaves {
        mark_above(words, n, leaf);
    }
}

/// Sets the bits of what lies above the leaf.
pub fn mark_above(words: &mut [u64], n: u32, leaf: Tri)
    requires in_grid { (1 ≤ n) × (n ≤ GREATEST_LEVEL) }
    requires room { 2 ^ (n + 2) ≤ 64 * length words.old }
    requires level { level_of leaf ≤ 2 * n }
    ensures room { length words.new ≡ length words.old }
    ensures marks { Marks n leaf 0 words.old words.new }
{
    let number = leaf.number();
    let level = leaf.level();
    if level == 0 {
        return;
    }
    if number >> level == 2 {
        set(words, 0);
    }
    mark_below(words, n, number, level - 1, number >> (level - 1) & 3, 1);
}

/// Sets the bits of the triangles on a side that lie above the leaf, from the one so many levels above it down.
///
/// That one is on this side at this place. Below it there are others only as long as the way to the leaf goes by
/// second and third grandchildren.
fn mark_below(words: &mut [u64], n: u32, leaf: u32, above: u32, side: u32, place: u32)
    requires in_grid { (1 ≤ n) × (n ≤ GREATEST_LEVEL) }
    requires room { 2 ^ (n + 2) ≤ 64 * length words.old }
    requires address { 2 ≤ leaf }
    requires level { level_of leaf ≤ 2 * n }
    requires above { above < level_of leaf }
    requires border { IsTrue (is_border (leaf / 2 ^ above)) }
    requires side { side ≡ side_of (leaf / 2 ^ above) }
    requires place { place ≡ place_of (leaf / 2 ^ above) }
    ensures room { length words.new ≡ length words.old }
    ensures marks { Marks n leaf (level_of leaf - above) words.old words.new }
{
    if above == 0 {
        return;
    }
    set(words, side_bit(n, side, place));
    if above == 1 {
        return;
    }
    let last = leaf >> (above - 2) & 3;
    if last == 0 || last == 3 {
        return;
    }
    let half = (last + 1 + backwards(side)) % 2;
    mark_below(words, n, leaf, above - 2, side, 2 * place + half);
}
