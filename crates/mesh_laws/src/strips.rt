//! Laws of the definitions, each a clause of a function with an empty body.

ghost use Rattle.std.specs.Prelude.{◌≡◌, ◌≢◌, ℕ, Bool, List, nat_eq, Contains, count_by};
ghost use Rattle.mesh_defs.specs.ClosedSet.{IsClosed, leaves_of};
ghost use Rattle.mesh_laws.specs.Ancestors.{AreLeaves};
ghost use Rattle.mesh_laws.specs.Strip.{strip_of, IsRing};
ghost use Rattle.mesh_laws.specs.Turn.{IsLeftTurn, IsRightTurn};

/// The strip of a closed set holds each of its leaves once, and is a ring of shared edges.
pub fn strip_laws()
    ensures leaves { (n : ℕ) (has : ℕ → Bool) → AreLeaves n has (strip_of n has) }
    ensures once { (n a : ℕ) (has : ℕ → Bool) → Contains (strip_of n has) a →
        count_by (λ t. nat_eq t a) (strip_of n has) ≡ 1 }
    ensures ring { (n : ℕ) (has : ℕ → Bool) → IsClosed n has → IsRing n (strip_of n has) }
{}

/// No turn between leaves of one mesh is to both sides.
pub fn turn_laws()
    ensures one_side { (n before t after : ℕ) (has : ℕ → Bool) → IsClosed n has →
        Contains (leaves_of n has) before → Contains (leaves_of n has) t → Contains (leaves_of n has) after →
        before ≢ after → IsLeftTurn n before t after → IsRightTurn n before t after → ⊥ }
{}
