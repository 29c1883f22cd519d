//! Laws of the definitions, each a clause of a function with an empty body.

ghost use Rattle.std.specs.Prelude.{◌≡◌, ◌⊎◌, ℕ, ◌/◌, ◌≤◌, ◌↔◌, ◌<◌, Bool, IsTrue, List, length};
ghost use Rattle.mesh_defs.specs.declared.point.Point.{Point};
ghost use Rattle.mesh_defs.specs.Triangle.{IsSplittable};
ghost use Rattle.mesh_defs.specs.ClosedSet.{IsSubset, IsLeastClosed, leaves_of};
ghost use Rattle.mesh_laws.specs.Ancestors.{is_above, ancestors_of, AreLeaves};
ghost use Rattle.mesh_laws.specs.Least.{IsLeastMesh};
ghost use Rattle.fit_laws.specs.Error.{IsExactAtFinest};
ghost use Rattle.fit_laws.specs.Settled.{IsLeastSettled};
ghost use Rattle.fit_laws.specs.Required.{is_wanted, IsTestFor, IsRaised, raise, IsLeastSettledWith};
ghost use Rattle.fit_laws.specs.Required.{IsLeastMeshWith};
ghost use Rattle.fit_laws.specs.Points.{IsPointTest};

/// Required splits: a raised error asks for them.
///
/// `wanted` what is wanted, in words, and `parent` with a triangle its parent is; `words` that is a test for
/// what is required, `closure` so is the closure, which one pass over flags makes, and `points` so is, for
/// triangles with a base on the border, whether its midpoint lies inside an edge. `raise` there is a
/// raised error, and `exact` no finest triangle has one. `set` and `mesh` what is least
/// for it is the least that splits all that is required; `found` there is such a set, whatever the
/// tolerance. `leaves` a list of its leaves is such a mesh, and `list` what is split in such a mesh is such
/// a set. `more` where more is required more is split, `grown` so there are more triangles, and `same` what
/// is split already changes nothing. `unique` there is one such mesh, up to the order of its triangles, and
/// `one` depth first there is one.
pub fn required_laws()
    ensures wanted { (n : ℕ) (required : ℕ → Bool) → ((a : ℕ) → IsTrue (required a) → IsSplittable n a) →
        (a : ℕ) → 2 ≤ a → (IsTrue (is_wanted n required a) ↔
        ((r : ℕ) × IsTrue (required r) × ((r ≡ a) ⊎ IsTrue (is_above a r)))) }
    ensures parent { (n : ℕ) (required : ℕ → Bool) → ((a : ℕ) → IsTrue (required a) → IsSplittable n a) →
        (a : ℕ) → 4 ≤ a → IsTrue (is_wanted n required a) → IsTrue (is_wanted n required (a / 2)) }
    ensures words { (n : ℕ) (required : ℕ → Bool) → ((a : ℕ) → IsTrue (required a) → IsSplittable n a) →
        IsTestFor n required (is_wanted n required) }
    ensures closure { (n : ℕ) (required has : ℕ → Bool) → IsLeastClosed n required has →
        IsTestFor n required has }
    ensures points { (n : ℕ) (points : Point → Bool) (required wanted : ℕ → Bool) →
        IsPointTest n points required wanted → IsTestFor n required wanted }
    ensures raise { (tolerance : ℕ) (wanted : ℕ → Bool) (error : ℕ → ℕ) →
        IsRaised tolerance wanted error (raise tolerance wanted error) }
    ensures exact { (n tolerance : ℕ) (required wanted : ℕ → Bool) (error raised : ℕ → ℕ) →
        ((a : ℕ) → IsTrue (required a) → IsSplittable n a) → IsTestFor n required wanted →
        IsRaised tolerance wanted error raised → IsExactAtFinest n error → IsExactAtFinest n raised }
    ensures set { (n tolerance : ℕ) (required wanted : ℕ → Bool) (error raised : ℕ → ℕ) →
        ((a : ℕ) → IsTrue (required a) → IsSplittable n a) → IsTestFor n required wanted →
        IsRaised tolerance wanted error raised → (has : ℕ → Bool) →
        (IsLeastSettled n tolerance raised has ↔ IsLeastSettledWith n tolerance error required has) }
    ensures mesh { (n tolerance : ℕ) (required wanted : ℕ → Bool) (error raised : ℕ → ℕ) →
        ((a : ℕ) → IsTrue (required a) → IsSplittable n a) → IsTestFor n required wanted →
        IsRaised tolerance wanted error raised → (triangles : List ℕ) →
        (IsLeastMesh n tolerance raised triangles ↔ IsLeastMeshWith n tolerance error required triangles) }
    ensures found { (n tolerance : ℕ) (required : ℕ → Bool) (error : ℕ → ℕ) →
        ((a : ℕ) → IsTrue (required a) → IsSplittable n a) → IsExactAtFinest n error →
        ((has : ℕ → Bool) × IsLeastSettledWith n tolerance error required has) }
    ensures leaves { (n tolerance : ℕ) (error : ℕ → ℕ) (required has : ℕ → Bool) (triangles : List ℕ) →
        IsLeastSettledWith n tolerance error required has → AreLeaves n has triangles →
        IsLeastMeshWith n tolerance error required triangles }
    ensures list { (n tolerance : ℕ) (error : ℕ → ℕ) (required : ℕ → Bool) (triangles : List ℕ) →
        IsLeastMeshWith n tolerance error required triangles →
        IsLeastSettledWith n tolerance error required (ancestors_of triangles) }
    ensures more { (n tolerance : ℕ) (error : ℕ → ℕ) (required more has next : ℕ → Bool) →
        IsSubset required more → IsLeastSettledWith n tolerance error required has →
        IsLeastSettledWith n tolerance error more next → IsSubset has next }
    ensures grown { (n tolerance : ℕ) (error : ℕ → ℕ) (required more has next : ℕ → Bool) (t : ℕ) →
        IsSubset required more → IsLeastSettledWith n tolerance error required has →
        IsLeastSettledWith n tolerance error more next → IsTrue (next t) → (IsTrue (has t) → ⊥) →
        length (leaves_of n has) < length (leaves_of n next) }
    ensures same { (n tolerance : ℕ) (error : ℕ → ℕ) (required more has : ℕ → Bool) →
        IsSubset required more → IsSubset more has → IsLeastSettledWith n tolerance error required has →
        IsLeastSettledWith n tolerance error more has }
    ensures unique { (n tolerance : ℕ) (error : ℕ → ℕ) (required : ℕ → Bool) (triangles others : List ℕ) →
        IsLeastMeshWith n tolerance error required triangles →
        IsLeastMeshWith n tolerance error required others →
        (a : ℕ) → ancestors_of triangles a ≡ ancestors_of others a }
    ensures one { (n tolerance : ℕ) (error : ℕ → ℕ) (required : ℕ → Bool) (triangles others : List ℕ) →
        IsLeastMeshWith n tolerance error required triangles →
        IsLeastMeshWith n tolerance error required others →
        leaves_of n (ancestors_of triangles) ≡ triangles →
        leaves_of n (ancestors_of others) ≡ others → triangles ≡ others }
{}
