//! The triangles with their base on a side, by side and place.

ghost use Rattle.std.specs.Prelude.{◌≡◌, ℕ, ◌+◌, ◌*◌, ◌^◌, ◌<◌, ◌≤◌, ◌&&◌, ◌||◌, IsTrue, length};
ghost use Rattle.mesh_defs.specs.Triangle.{level_of};
ghost use Rattle.mesh_defs.specs.declared.level.TheConstants.{GREATEST_LEVEL};
ghost use Rattle.mesh_laws.specs.Ancestors.{is_above};
ghost use Rattle.mosaic_rounds.specs.Border.{backward, is_border, side_of, place_of};
ghost use Rattle.mosaic_rounds.specs.Bits.{is_kept, splits_at};

use crate::bits::set;
use bintree_addr::Tri;

/// The triangle with its base at this place of this side.
///
/// Cost (not proved): a step for each binary digit of the place.
pub fn border_tri(side: u32, place: u32) -> Tri
    requires side { side < 4 }
    requires place { (1 ≤ place) × (place < 2 ^ GREATEST_LEVEL) }
    ensures big { 4 ≤ result }
    ensures border { IsTrue (is_border result) }
    ensures side { side_of result ≡ side }
    ensures place { place_of result ≡ place }
{
    if place == 1 {
        return quarter(side);
    }
    let above = border_tri(side, place / 2);
    if (place + backwards(side)) % 2 == 0 {
        above.left().right()
    } else {
        above.right().left()
    }
}

/// 1 on a side along which coordinates fall, counterclockwise.
pub fn backwards(side: u32) -> u32
    requires side { side < 4 }
    ensures value { result ≡ backward side }
{
    if side == 1 || side == 2 { 1 } else { 0 }
}

/// The quarter at this side.
fn quarter(side: u32) -> Tri
    requires side { side < 4 }
    ensures value { result ≡ 4 + side }
{
    match side {
        0 => Tri::LOWER.left(),
        1 => Tri::LOWER.right(),
        2 => Tri::UPPER.left(),
        _ => Tri::UPPER.right(),
    }
}
