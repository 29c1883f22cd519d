//! Setting a height, and the triangles that hold its point.

ghost use Rattle.std.specs.Prelude.{◌≡◌, ℕ, ◌*◌, ◌^◌, ◌≤◌, false, slice_set};
ghost use Rattle.mesh_defs.specs.HeightField.{place_of};
ghost use Rattle.mesh_defs.specs.Triangle.{IsAddress};
ghost use Rattle.mesh_defs.specs.Thickness.{thickness_of};
ghost use Rattle.mesh_defs.specs.BoundingBox.{box_of, holds_point, point};
ghost use Rattle.height_edit.specs.Holders.{holders};

use crate::holders::{HOLDERS, holders};
use arrayvec::ArrayVec;
use bintree_addr::Tri;
use bintree_laws::{corner_laws, level_laws};
use wedgie_tree::{Wedges, edit_laws};

/// Makes `h` the height of the point in column `x` from the left and row `y` from the bottom, and lists the
/// triangles of all levels that hold the point, by address.
///
/// At most eight triangles of one level hold a point, and there are at most 29 levels.
/// Cost (not proved): that of `Wedges::set`, and at most sixteen walks down to corners for each level. Takes no
/// memory.
pub fn set_point(wedges: &mut Wedges, x: u32, y: u32, h: u16) -> ArrayVec<Tri, HOLDERS>
    requires in_columns { x ≤ 2 ^ wedges.old.n }
    requires in_rows { y ≤ 2 ^ wedges.old.n }
    requires bounded { h ≤ wedges.old.maxval }
    ensures value { wedges.new ≡ record wedges.old {
      heights = slice_set wedges.old.heights (place_of wedges.old.n x y) h;
    } }
    ensures listed { result.items ≡ holders wedges.old.n (point x y) }
    // A triangle that does not hold the point keeps its thickness and its box.
    ensures same_thickness { (a : ℕ) → IsAddress wedges.old.n a → holds_point wedges.old.n a (point x y) ≡ false
        → thickness_of wedges.old.n wedges.new.heights a ≡ thickness_of wedges.old.n wedges.old.heights a }
    ensures same_box { (a spacing : ℕ) → IsAddress wedges.old.n a → holds_point wedges.old.n a (point x y) ≡ false
        → box_of wedges.old.n wedges.new.heights spacing a ≡ box_of wedges.old.n wedges.old.heights spacing a }
{
    corner_laws();
    level_laws();
    edit_laws();
    let n = wedges.grid().n();
    wedges.set(x, y, h);
    holders(n, x, y)
}
