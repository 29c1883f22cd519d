//! Laws of the definitions, each a clause of a function with an empty body.

ghost use Rattle.std.specs.Prelude.{◌≡◌, ℕ, ◌+◌, ◌*◌, ◌/◌, ◌^◌, ◌<◌, ◌≤◌, ◌↔◌, ◌⊎◌};
ghost use Rattle.mesh_defs.specs.Triangle.{level_of, corners_of, child, midpoint, IsAddress, IsSplittable, IsMate};
ghost use Rattle.mesh_defs.specs.Triangle.{HasBorderBase};
ghost use Rattle.bintree_laws.specs.Corners.{IsWithin, HasEvenBase, IsReversed};

/// The level of an address by powers of 2, by its children and by its parent.
#[tactic(auto, using(crate::proofs::LevelLemmas::levels))]
pub fn level_laws()
    ensures below { (a k : ℕ) → 2 ≤ a → ((level_of a < k) ↔ (a < 2 ^ (k + 1))) }
    ensures left { (a : ℕ) → 2 ≤ a → level_of (2 * a) ≡ level_of a + 1 }
    ensures right { (a : ℕ) → 2 ≤ a → level_of (2 * a + 1) ≡ level_of a + 1 }
    ensures parent { (a : ℕ) → 4 ≤ a → level_of a ≡ level_of (a / 2) + 1 }
{}

/// The corners of children, and where corners lie.
#[tactic(auto, using(crate::proofs::LatticeLemmas::corner_facts))]
pub fn corner_laws()
    ensures left { (n a : ℕ) → 2 ≤ a → corners_of n (2 * a) ≡ child 0 (corners_of n a) }
    ensures right { (n a : ℕ) → 2 ≤ a → corners_of n (2 * a + 1) ≡ child 1 (corners_of n a) }
    ensures within { (n a : ℕ) → IsWithin (2 ^ n) (corners_of n a) }
    ensures even { (n a : ℕ) → level_of a < 2 * n → HasEvenBase (corners_of n a) }
{}

/// Mates: at most one, each the other's, none exactly at the border, and told by the base's midpoint.
#[tactic(auto, using(crate::proofs::CentreLemmas::mate_facts))]
pub fn mate_laws()
    ensures unique { (n a b c : ℕ) → IsAddress n a → IsMate n a b → IsMate n a c → b ≡ c }
    ensures symmetric { (n a b : ℕ) → IsAddress n a → IsMate n a b → IsMate n b a }
    ensures found { (n a : ℕ) → IsAddress n a → (HasBorderBase n a ⊎ ((b : ℕ) × IsMate n a b)) }
    ensures border { (n a b : ℕ) → IsAddress n a → HasBorderBase n a → IsMate n a b → ⊥ }

    // The one base runs against the other, so the two triangles lie on two sides of it.
    ensures reversed { (n a b : ℕ) → IsAddress n a → IsMate n a b → IsReversed (corners_of n a) (corners_of n b) }

    // Two splittable triangles with one midpoint of the base are equal or mates.
    ensures midpoint { (n a b : ℕ) → IsSplittable n a → IsSplittable n b →
        midpoint (corners_of n a).v0 (corners_of n a).v1 ≡ midpoint (corners_of n b).v0 (corners_of n b).v1 →
        ((b ≡ a) ⊎ IsMate n a b) }
{}
