//! Laws of the definitions, each a clause of a function with an empty body.

ghost use Rattle.std.specs.Prelude.{◌≡◌, ℕ, ◌+◌, ◌*◌, ◌^◌, ◌<◌, ◌≤◌, List, All, IsTrue};
ghost use Rattle.mesh_defs.specs.declared.point.Point.{Point};
ghost use Rattle.mesh_defs.specs.Triangle.{IsAddress, corners_of, IsCorner};
ghost use Rattle.mesh_defs.specs.Thickness.{height_of, thickness_of};
ghost use Rattle.mesh_defs.specs.BoundingBox.{point, holds_point};
ghost use Rattle.fit_laws.specs.PlaneHeight.{area_of, weighted, plane_height, off_plane, deviation_of};
ghost use Rattle.fit_laws.specs.PlaneHeight.{thickest_of};

/// Plane heights are whole, and twice the deviation is at most 2^n times the greatest thickness.
pub fn deviation_laws()
    ensures some_area { (n a : ℕ) → IsAddress n a → 0 < area_of (corners_of n a) }
    ensures exact { (n : ℕ) (heights : List ℕ) (a : ℕ) (r : Point) → IsAddress n a →
        area_of (corners_of n a) * plane_height n heights a r
        ≡ 2 ^ n * weighted (corners_of n a) (height_of n heights) r }
    ensures corner { (n : ℕ) (heights : List ℕ) (a : ℕ) (r : Point) → IsAddress n a → IsCorner (corners_of n a) r →
        plane_height n heights a r ≡ 2 ^ n * height_of n heights r }
    ensures row { (n : ℕ) (heights : List ℕ) (a x y : ℕ) → IsAddress n a → IsTrue (holds_point n a (point x y)) →
        IsTrue (holds_point n a (point (x + 1) y)) → IsTrue (holds_point n a (point (x + 2) y)) →
        plane_height n heights a (point x y) + plane_height n heights a (point (x + 2) y)
        ≡ 2 * plane_height n heights a (point (x + 1) y) }
    ensures triangle { (n : ℕ) (heights : List ℕ) (a : ℕ) (r : Point) → IsAddress n a → IsTrue (holds_point n a r) →
        2 * off_plane n heights a r ≤ 2 ^ n * thickness_of n heights a }
    ensures list { (n : ℕ) (heights triangles : List ℕ) → All (IsAddress n) triangles →
        2 * deviation_of n heights triangles ≤ 2 ^ n * thickest_of n heights triangles }
{}
