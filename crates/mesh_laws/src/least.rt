//! Laws of the definitions, each a clause of a function with an empty body.

ghost use Rattle.std.specs.Prelude.{◌≡◌, ℕ, ◌+◌, ◌*◌, ◌/◌, ◌^◌, ◌<◌, ◌≤◌, Bool, false, IsTrue, List, Option, ◌↔◌};
ghost use Rattle.bintree_addr.specs.declared.blocked.Blocked.{Blocked};
ghost use Rattle.mesh_defs.specs.Triangle.{IsSplittable};
ghost use Rattle.mesh_defs.specs.Tiling.{IsConforming};
ghost use Rattle.mesh_defs.specs.ClosedSet.{IsSubset, IsLeastClosed, leaves_of};
ghost use Rattle.mesh_defs.specs.Priority.{worst_of};
ghost use Rattle.mesh_defs.specs.Falling.{IsFalling};
ghost use Rattle.mesh_laws.specs.Ancestors.{ancestors_of};
ghost use Rattle.mesh_laws.specs.Frame.{IsFrame};
ghost use Rattle.mesh_laws.specs.Least.{is_worse, IsLeastList, IsLeastMesh};
ghost use Rattle.mesh_laws.specs.Sweep.{IsSwept, IsMarked};

/// The least mesh: there is one, it is within the tolerance, and every mesh within the tolerance refines it.
///
/// `wanted` is what is worse than a tolerance, in words; `found` and `unique` say that there is one list for
/// each tolerance, `mesh` that it is a least mesh, `inside` which set lies in every other, `below` that nothing has to
/// be asked below a triangle that is not worse, and `frame` that a frame of worst 0 splits just what tolerance 0 wants.
pub fn least_laws()
    ensures wanted { (n tolerance : ℕ) (priority : ℕ → ℕ) (a : ℕ) →
        IsTrue (is_worse n tolerance priority a) ↔ (IsSplittable n a × (tolerance < priority a)) }
    ensures found { (n tolerance : ℕ) (priority : ℕ → ℕ) →
        ((has : ℕ → Bool) × IsLeastClosed n (is_worse n tolerance priority) has) }
    ensures unique { (n tolerance : ℕ) (priority : ℕ → ℕ) (triangles others : List ℕ) →
        IsLeastList n tolerance priority triangles → IsLeastList n tolerance priority others → triangles ≡ others }
    ensures mesh { (n tolerance : ℕ) (priority : ℕ → ℕ) (triangles : List ℕ) → IsFalling n priority →
        IsLeastList n tolerance priority triangles → IsLeastMesh n tolerance priority triangles }
    ensures inside { (n tolerance : ℕ) (priority : ℕ → ℕ) (has : ℕ → Bool) → IsFalling n priority →
        IsLeastClosed n (is_worse n tolerance priority) has → (others : List ℕ) → IsConforming n others →
        worst_of priority others ≤ tolerance → IsSubset has (ancestors_of others) }
    ensures below { (n tolerance : ℕ) (priority : ℕ → ℕ) (a : ℕ) → IsFalling n priority → 4 ≤ a →
        is_worse n tolerance priority (a / 2) ≡ false → is_worse n tolerance priority a ≡ false }
    ensures frame { (n budget : ℕ) (priority : ℕ → ℕ) (has : ℕ → Bool) (blocked : Option Blocked) →
        IsFrame n budget priority has 0 blocked → IsFalling n priority →
        IsLeastClosed n (is_worse n 0 priority) has }
{}

/// The closure of any splittable triangles by one flag an address, visited once each from the last one down.
///
/// `at_first` the flags are those of what is wanted, `skip` and `mark` are a visit of an address that has no
/// flag or has one, `at_last` after 2 was visited the flags are the least closed set.
pub fn sweep_laws()
    ensures at_first { (n : ℕ) (wanted : ℕ → Bool) → ((a : ℕ) → IsTrue (wanted a) → IsSplittable n a) →
        IsSwept n wanted wanted (2 ^ (2 * n + 1)) }
    ensures skip { (n : ℕ) (wanted has : ℕ → Bool) (k : ℕ) → IsSwept n wanted has (k + 1) → has k ≡ false →
        IsSwept n wanted has k }
    ensures mark { (n : ℕ) (wanted has next : ℕ → Bool) (k : ℕ) → IsSwept n wanted has (k + 1) → IsTrue (has k) →
        IsMarked n k has next → IsSwept n wanted next k }
    ensures at_last { (n : ℕ) (wanted has : ℕ → Bool) → IsSwept n wanted has 2 → IsLeastClosed n wanted has }
{}
