//! Laws of the definitions, each a clause of a function with an empty body.

ghost use Rattle.std.specs.Prelude.{◌≡◌, ℕ, ◌+◌, ◌*◌, ◌^◌, ◌<◌, ◌≤◌, ◌↔◌, Bool, false, List, length, Contains};
ghost use Rattle.mesh_defs.specs.Tiling.{IsConforming};
ghost use Rattle.mesh_defs.specs.ClosedSet.{IsClosed, IsLeastClosed, leaves_of};
ghost use Rattle.mesh_defs.specs.Greedy.{with_triangle};
ghost use Rattle.mesh_defs.specs.Priority.{worst_of};
ghost use Rattle.mesh_defs.specs.Falling.{IsFalling};
ghost use Rattle.mesh_laws.specs.Ancestors.{ancestors_of};
ghost use Rattle.fit_laws.specs.PlaneHeight.{deviation_of};
ghost use Rattle.mesh_laws.specs.Least.{is_worse, IsLeastMesh};
ghost use Rattle.fit_laws.specs.Error.{error_of, IsExactAtFinest};
ghost use Rattle.fit_laws.specs.Settled.{both, IsFineEnough, IsNeeded, IsLeastSettled, IsMadeBy};
ghost use Rattle.fit_laws.specs.Budget.{IsBudgetMesh};

/// Settled sets: closed, and no leaf has an error above the tolerance.
///
/// `meet` what two of them have in common is one, and `list` so is what is split in a conforming list
/// within the tolerance. What each of them has: `nothing` at first, `step` what the split of a leaf
/// above the tolerance forces, `lower` and at a lower tolerance no less. `grown` each such split gives
/// more leaves, and `most` there are never more than finest triangles, so splitting comes to an end.
pub fn settled_laws()
    ensures meet { (n tolerance : ℕ) (error : ℕ → ℕ) (some other : ℕ → Bool) →
        IsFineEnough n tolerance error some → IsFineEnough n tolerance error other →
        IsFineEnough n tolerance error (both some other) }
    ensures list { (n tolerance : ℕ) (error : ℕ → ℕ) (others : List ℕ) → IsConforming n others →
        worst_of error others ≤ tolerance → IsFineEnough n tolerance error (ancestors_of others) }
    ensures nothing { (n tolerance : ℕ) (error : ℕ → ℕ) → IsNeeded n tolerance error (λ a. false) }
    ensures step { (n tolerance : ℕ) (error : ℕ → ℕ) (has next : ℕ → Bool) (t : ℕ) →
        IsClosed n has → IsNeeded n tolerance error has →
        Contains (leaves_of n has) t → tolerance < error t →
        IsLeastClosed n (with_triangle has t) next → IsNeeded n tolerance error next }
    ensures lower { (n tolerance : ℕ) (error : ℕ → ℕ) (has : ℕ → Bool) (less : ℕ) →
        less ≤ tolerance → IsNeeded n tolerance error has → IsNeeded n less error has }
    ensures grown { (n : ℕ) (has next : ℕ → Bool) (t : ℕ) → IsClosed n has →
        Contains (leaves_of n has) t → IsLeastClosed n (with_triangle has t) next →
        length (leaves_of n has) < length (leaves_of n next) }
    ensures most { (n : ℕ) (has : ℕ → Bool) → length (leaves_of n has) ≤ 2 * 4 ^ n }
{}

/// The least settled set: there is one for each tolerance, and its leaves are a least mesh.
///
/// `end` is how a loop reaches it: a needed closed set none of whose leaves exceeds the tolerance.
/// `mesh` each conforming list within the tolerance refines its leaves. `fewer` a looser tolerance
/// never takes more triangles, and `tight` the set is also the one for its own greatest error.
/// `falling` where priorities fall from parent to child, it is the closure of all that is worse.
pub fn fit_laws()
    ensures end { (n tolerance : ℕ) (error : ℕ → ℕ) (has : ℕ → Bool) → IsClosed n has →
        IsNeeded n tolerance error has → worst_of error (leaves_of n has) ≤ tolerance →
        IsLeastSettled n tolerance error has }
    ensures found { (n tolerance : ℕ) (error : ℕ → ℕ) → IsExactAtFinest n error →
        ((has : ℕ → Bool) × IsLeastSettled n tolerance error has) }
    ensures unique { (n tolerance : ℕ) (error : ℕ → ℕ) (has other : ℕ → Bool) →
        IsLeastSettled n tolerance error has → IsLeastSettled n tolerance error other →
        (a : ℕ) → has a ≡ other a }
    ensures mesh { (n tolerance : ℕ) (error : ℕ → ℕ) (has : ℕ → Bool) →
        IsLeastSettled n tolerance error has → IsLeastMesh n tolerance error (leaves_of n has) }
    ensures fewer { (n tolerance looser : ℕ) (error : ℕ → ℕ) (has other : ℕ → Bool) →
        tolerance ≤ looser → IsLeastSettled n tolerance error has →
        IsLeastSettled n looser error other →
        length (leaves_of n other) ≤ length (leaves_of n has) }
    ensures tight { (n tolerance : ℕ) (error : ℕ → ℕ) (has : ℕ → Bool) →
        IsLeastSettled n tolerance error has →
        IsLeastSettled n (worst_of error (leaves_of n has)) error has }
    ensures falling { (n tolerance : ℕ) (priority : ℕ → ℕ) (has : ℕ → Bool) →
        IsFalling n priority →
        (IsLeastClosed n (is_worse n tolerance priority) has ↔ IsLeastSettled n tolerance priority has) }
{}

/// The mesh of a budget with the least greatest error: there is one for each budget of at least 2.
///
/// `end` is how a loop knows that it has it: a set that is needed at the next lower error has too many
/// leaves; `exact` or there is no error. `unique` all such meshes split the same triangles. `fewer` a
/// greater budget never has a greater error. `certificate` the same from reasons alone: whoever made
/// the mesh, no conforming list within the budget has a lower greatest error.
pub fn budget_laws()
    ensures end { (n budget : ℕ) (error : ℕ → ℕ) (has over : ℕ → Bool) →
        IsLeastSettled n (worst_of error (leaves_of n has)) error has →
        length (leaves_of n has) ≤ budget →
        (tolerance : ℕ) → worst_of error (leaves_of n has) ≤ tolerance + 1 →
        IsNeeded n tolerance error over → budget < length (leaves_of n over) →
        IsBudgetMesh n budget error (leaves_of n has) }
    ensures exact { (n budget : ℕ) (error : ℕ → ℕ) (has : ℕ → Bool) →
        IsLeastSettled n 0 error has → length (leaves_of n has) ≤ budget →
        IsBudgetMesh n budget error (leaves_of n has) }
    ensures found { (n budget : ℕ) (error : ℕ → ℕ) → IsExactAtFinest n error → 2 ≤ budget →
        ((has : ℕ → Bool) × IsClosed n has × IsBudgetMesh n budget error (leaves_of n has)) }
    ensures unique { (n budget : ℕ) (error : ℕ → ℕ) (triangles others : List ℕ) →
        IsBudgetMesh n budget error triangles → IsBudgetMesh n budget error others →
        (a : ℕ) → ancestors_of triangles a ≡ ancestors_of others a }
    ensures fewer { (n budget more : ℕ) (error : ℕ → ℕ) (triangles others : List ℕ) →
        budget ≤ more → IsBudgetMesh n budget error triangles →
        IsBudgetMesh n more error others → worst_of error others ≤ worst_of error triangles }
    ensures certificate { (n budget tolerance : ℕ) (error : ℕ → ℕ) (reasons triangles : List ℕ)
        (has : ℕ → Bool) → IsMadeBy n tolerance error reasons has →
        budget < length (leaves_of n has) → worst_of error triangles ≤ tolerance + 1 →
        (others : List ℕ) → IsConforming n others → length others ≤ budget →
        worst_of error triangles ≤ worst_of error others }
{}

/// How far the surface is from a triangle's plane is such an error, and the greatest of a list is its
/// deviation.
pub fn error_laws()
    ensures finest { (n : ℕ) (heights : List ℕ) → IsExactAtFinest n (error_of n heights) }
    ensures deviation { (n : ℕ) (heights triangles : List ℕ) →
        worst_of (error_of n heights) triangles ≡ deviation_of n heights triangles }
{}
