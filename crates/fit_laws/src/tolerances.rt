//! Laws of the definitions, each a clause of a function with an empty body.

ghost use Rattle.std.specs.Prelude.{ℕ, ◌*◌, ◌^◌, ◌≤◌, ◌↔◌, Bool, IsTrue, List, All};
ghost use Rattle.mesh_defs.specs.declared.point.Point.{Point};
ghost use Rattle.mesh_defs.specs.Triangle.{IsAddress};
ghost use Rattle.mesh_defs.specs.Thickness.{height_of};
ghost use Rattle.mesh_defs.specs.BoundingBox.{holds_point};
ghost use Rattle.mesh_defs.specs.Priority.{worst_of};
ghost use Rattle.fit_laws.specs.PlaneHeight.{off_plane};
ghost use Rattle.fit_laws.specs.Error.{error_of, IsExactAtFinest};
ghost use Rattle.fit_laws.specs.Required.{IsLeastMeshWith};
ghost use Rattle.fit_laws.specs.Excess.{excess_of, AreWithin, AreCommon};

/// The excess of a triangle over the tolerances of its grid points is an error.
///
/// `finest` no finest triangle has one, so all laws of errors hold of it; `within` a list of triangles has none
/// exactly where the surface is at each grid point at most the point's tolerance from the plane. `common` where all
/// points have one tolerance, the least meshes without an excess are the least meshes for that tolerance. `uncounted` a
/// point whose tolerance is at least 2^n times the greatest height does not count: no surface exceeds it.
pub fn tolerance_laws()
    ensures finest { (n : ℕ) (heights tolerances : List ℕ) → IsExactAtFinest n (excess_of n heights tolerances) }
    ensures within { (n : ℕ) (heights tolerances triangles : List ℕ) → All (IsAddress n) triangles →
        (worst_of (excess_of n heights tolerances) triangles ≤ 0 ↔ AreWithin n heights tolerances triangles) }
    ensures common { (n tolerance : ℕ) (heights tolerances : List ℕ) (required : ℕ → Bool) (triangles : List ℕ) →
        AreCommon n tolerances tolerance →
        (IsLeastMeshWith n 0 (excess_of n heights tolerances) required triangles
        ↔ IsLeastMeshWith n tolerance (error_of n heights) required triangles) }
    ensures uncounted { (n top : ℕ) (heights tolerances : List ℕ) (a : ℕ) (r : Point) → All (λ h. h ≤ top) heights →
        IsAddress n a → IsTrue (holds_point n a r) → 2 ^ n * top ≤ height_of n tolerances r →
        off_plane n heights a r ≤ height_of n tolerances r }
{}
