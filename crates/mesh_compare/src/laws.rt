//! What a first difference tells of two texts, as the clauses of a function with an empty body.

ghost use Rattle.std.specs.Prelude.{◌≡◌, ◌≢◌, ◌↔◌, ℕ, List, Some, None, take, slice_get};
ghost use Rattle.mesh_compare.specs.Differs.{first_difference};

/// Two texts have no first difference exactly where they are the same. Else they are the same before that place, and
/// at that place they have different bytes or only one has a byte. It does nothing.
pub fn difference_laws()
    ensures none { (text bytes : List ℕ) → (first_difference text bytes ≡ None) ↔ (text ≡ bytes) }
    ensures before { (text bytes : List ℕ) (at : ℕ) → first_difference text bytes ≡ Some at →
        take at text ≡ take at bytes }
    ensures differs { (text bytes : List ℕ) (at : ℕ) → first_difference text bytes ≡ Some at →
        slice_get text at ≢ slice_get bytes at }
{}
