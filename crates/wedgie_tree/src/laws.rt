//! Laws of thickness and of least and greatest heights, as a clause each of a function with an empty body.

ghost use Rattle.std.specs.Prelude.{◌≡◌, ℕ, ◌+◌, ◌-◌, ◌*◌, ◌^◌, ◌<◌, ◌≤◌, List, min, max, true, ◌||◌};
ghost use Rattle.mesh_defs.specs.HeightField.{HeightField, IsHeightField};
ghost use Rattle.mesh_defs.specs.Triangle.{level_of, corners_of, IsSplittable};
ghost use Rattle.mesh_defs.specs.Thickness.{height_of, deviation, thickness_of};
ghost use Rattle.mesh_defs.specs.BoundingBox.{low_of, high_of, least_of_3, greatest_of_3, box_of, holds_point};
ghost use Rattle.mesh_defs.specs.declared.point.Point.{Point};
ghost use Rattle.bintree_laws.specs.Areas.{IsInRectangle};
ghost use Rattle.wedgie_tree.specs.Edits.{AgreesOn};
ghost use Rattle.wedgie_tree.specs.declared.wedges.TheConstants.{GREATEST_SPACING};

/// What holds of a triangle by its children, and of a finest one by its corners.
///
/// With the children's thickness, least and greatest height, a triangle's own cost a step. A child is at
/// most as thick as its parent, and its heights lie within its parent's.
pub fn wedge_laws()
    // A finest triangle has no thickness, and holds no points but its corners.
    ensures finest_thickness { (n : ℕ) (heights : List ℕ) (a : ℕ) → level_of a ≡ 2 * n →
        thickness_of n heights a ≡ 0 }
    ensures finest_low { (n : ℕ) (heights : List ℕ) (a : ℕ) → 2 ≤ a → level_of a ≡ 2 * n →
        low_of n heights a ≡ least_of_3 (height_of n heights (corners_of n a).apex)
        (height_of n heights (corners_of n a).v0) (height_of n heights (corners_of n a).v1) }
    ensures finest_high { (n : ℕ) (heights : List ℕ) (a : ℕ) → 2 ≤ a → level_of a ≡ 2 * n →
        high_of n heights a ≡ greatest_of_3 (height_of n heights (corners_of n a).apex)
        (height_of n heights (corners_of n a).v0) (height_of n heights (corners_of n a).v1) }

    // A splittable triangle holds the points of its children.
    ensures thickness { (n : ℕ) (heights : List ℕ) (a : ℕ) → IsSplittable n a →
        thickness_of n heights a ≡ max (thickness_of n heights (2 * a)) (thickness_of n heights (2 * a + 1))
        + deviation n heights (corners_of n a) }
    ensures low { (n : ℕ) (heights : List ℕ) (a : ℕ) → IsSplittable n a →
        low_of n heights a ≡ min (low_of n heights (2 * a)) (low_of n heights (2 * a + 1)) }
    ensures high { (n : ℕ) (heights : List ℕ) (a : ℕ) → IsSplittable n a →
        high_of n heights a ≡ max (high_of n heights (2 * a)) (high_of n heights (2 * a + 1)) }

    // Each triangle holds points.
    ensures ordered { (n : ℕ) (heights : List ℕ) (a : ℕ) → 2 ≤ a → level_of a ≤ 2 * n →
        low_of n heights a ≤ high_of n heights a }

    // A level adds at most twice the greatest height, and there are at most 2 n levels below a triangle.
    ensures bounded { (g : HeightField) (a : ℕ) → IsHeightField g → thickness_of g.n g.heights a ≤ 262140 * g.n }
{}

/// What a change of heights leaves as it was: the thickness and the box of each triangle that holds no
/// point whose height changed.
pub fn edit_laws()
    ensures same_thickness { (n : ℕ) (heights others : List ℕ) (a : ℕ) → 2 ≤ a → level_of a ≤ 2 * n →
        AgreesOn n heights others a →
        thickness_of n heights a ≡ thickness_of n others a }
    ensures same_box { (n : ℕ) (heights others : List ℕ) (spacing a : ℕ) → AgreesOn n heights others a →
        box_of n heights spacing a ≡ box_of n others spacing a }

    // A triangle holds the points that its children hold, and only points of its bounding rectangle.
    ensures children { (n a : ℕ) (r : Point) → IsSplittable n a →
        holds_point n a r ≡ (holds_point n (2 * a) r || holds_point n (2 * a + 1) r) }
    ensures rectangle { (n a : ℕ) (r : Point) → 2 ≤ a → level_of a ≤ 2 * n → holds_point n a r ≡ true →
        IsInRectangle (corners_of n a) r }
{}

/// What the limit is, as a number. It does nothing.
pub fn limit_laws()
    ensures greatest_spacing { GREATEST_SPACING ≡ 1024 }
{}
