//! Raising an area, and the triangles that meet it.

ghost use Rattle.std.specs.Prelude.{◌≡◌, ℕ, ◌*◌, ◌^◌, ◌≤◌, ◌≤ℤ◌, ◌↔◌, IsTrue};
ghost use Rattle.roam_lanes.specs.Raising.{least_change, greatest_change};
ghost use Rattle.mesh_defs.specs.Triangle.{IsAddress, level_of, corners_of};
ghost use Rattle.mesh_defs.specs.Thickness.{thickness_of};
ghost use Rattle.mesh_defs.specs.BoundingBox.{box_of};
ghost use Rattle.mesh_defs.specs.State.{raised_heights};
ghost use Rattle.mesh_defs.specs.declared.level.TheConstants.{GREATEST_LEVEL};
ghost use Rattle.bintree_laws.specs.Areas.{MeetsArea};
ghost use Rattle.wedgie_tree.specs.Edits.{area_between};

use bintree_addr::Tri;
use bintree_laws::{corner_laws, level_laws};
use wedgie_tree::{Area, Wedges, edit_laws};

/// Whether a triangle's bounding rectangle shares a grid point with the area of the columns `x0` to `x1` and
/// the rows `y0` to `y1`, both ends included.
///
/// Cost (not proved): that of `Tri::corners`.
pub fn meets(t: Tri, n: u32, x0: u32, y0: u32, x1: u32, y1: u32) -> bool
    requires in_grid { (1 ≤ n) × (n ≤ GREATEST_LEVEL) }
    requires level { level_of t ≤ 2 * n }
    requires columns { x0 ≤ x1 }
    requires rows { y0 ≤ y1 }
    ensures { IsTrue result ↔ MeetsArea (corners_of n t) (area_between x0 y0 x1 y1) }
{
    Area::new(x0, y0, x1, y1).meets(t.corners(n))
}

/// Raises each height of the columns `x0` to `x1` and the rows `y0` to `y1` by `dz`, lowers it where `dz` is
/// negative, and brings it into 0 to the bound of heights.
///
/// Cost (not proved): a step for each point of the area and for each triangle that meets it. Takes no memory.
pub fn raise_area(wedges: &mut Wedges, x0: u32, y0: u32, x1: u32, y1: u32, dz: i32)
    requires columns { x0 ≤ x1 }
    requires in_columns { x1 ≤ 2 ^ wedges.old.n }
    requires rows { y0 ≤ y1 }
    requires in_rows { y1 ≤ 2 ^ wedges.old.n }
    requires at_least { least_change ≤ℤ dz }
    requires at_most { dz ≤ℤ greatest_change }
    ensures value { wedges.new
        ≡ record wedges.old { heights = raised_heights wedges.old (area_between x0 y0 x1 y1) dz } }
    // A triangle that does not meet the area keeps its thickness and its box.
    ensures same_thickness { (a : ℕ) → IsAddress wedges.old.n a
        → (MeetsArea (corners_of wedges.old.n a) (area_between x0 y0 x1 y1) → ⊥)
        → thickness_of wedges.old.n wedges.new.heights a ≡ thickness_of wedges.old.n wedges.old.heights a }
    ensures same_box { (a spacing : ℕ) → IsAddress wedges.old.n a
        → (MeetsArea (corners_of wedges.old.n a) (area_between x0 y0 x1 y1) → ⊥)
        → box_of wedges.old.n wedges.new.heights spacing a ≡ box_of wedges.old.n wedges.old.heights spacing a }
{
    corner_laws();
    level_laws();
    edit_laws();
    wedges.raise(Area::new(x0, y0, x1, y1), dz);
}
