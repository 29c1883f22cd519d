//! Laws of the definitions, each a clause of a function with an empty body.

ghost use Rattle.std.specs.Prelude.{◌≡◌, ℕ, ◌+◌, ◌*◌, ◌/◌, ◌<◌, ◌≤◌, Bool, IsTrue, List, [], ◌∷◌, length, All};
ghost use Rattle.std.specs.Prelude.{Contains, count_by, ◌↔◌, ◌^◌};
ghost use Rattle.mesh_defs.specs.Triangle.{level_of, corners_of, IsAddress, IsSplittable};
ghost use Rattle.mesh_defs.specs.Tiling.{IsSample, is_inside, Tiles, IsConforming};
ghost use Rattle.mesh_defs.specs.ClosedSet.{IsClosed, leaves_of};
ghost use Rattle.bintree_laws.specs.Corners.{IsCounterclockwise, AreApart};
ghost use Rattle.mesh_laws.specs.Ancestors.{is_above, ancestors_of, AreLeaves};

/// Samples in triangles: no sample lies on an edge, so each is inside one triangle of each level.
pub fn sample_laws()
    ensures child { (n a x y : ℕ) → IsSplittable n a → IsSample n x y →
        count_by (is_inside n x y) ((2 * a) ∷ ((2 * a + 1) ∷ [])) ≡ count_by (is_inside n x y) (a ∷ []) }
    ensures some { (n a : ℕ) → IsAddress n a →
        ((x : ℕ) × (y : ℕ) × IsSample n x y × IsTrue (is_inside n x y a)) }
    ensures level { (n x y a b : ℕ) → IsSample n x y → IsAddress n a → IsAddress n b →
        level_of a ≡ level_of b → IsTrue (is_inside n x y a) → IsTrue (is_inside n x y b) → a ≡ b }
{}

/// The corners of a triangle are three points, named counterclockwise.
pub fn orientation_laws()
    ensures counterclockwise { (n a : ℕ) → IsAddress n a → IsCounterclockwise (corners_of n a) }
    ensures apart { (n a : ℕ) → IsAddress n a → AreApart (corners_of n a) }
{}

/// The leaves of any test of addresses: they are addresses of the grid, and they tile the square.
pub fn leaf_laws()
    ensures addresses { (n : ℕ) (has : ℕ → Bool) → All (IsAddress n) (leaves_of n has) }
    ensures tiles { (n : ℕ) (has : ℕ → Bool) → Tiles n (leaves_of n has) }
{}

/// A list is conforming exactly if it is the leaves of a closed set, each once.
///
/// The closed set of a conforming list is that of all proper ancestors of its entries.
///
/// `above` says what a proper ancestor is: an address to which halving leads.
pub fn conformity_laws()
    ensures above { (a e : ℕ) → (IsTrue (is_above a e) ↔ ((2 ≤ a) × ((k : ℕ) × (e / 2 ^ (k + 1) ≡ a)))) }
    ensures conforming { (n : ℕ) (has : ℕ → Bool) → IsClosed n has → IsConforming n (leaves_of n has) }
    ensures any_order { (n : ℕ) (has : ℕ → Bool) (others : List ℕ) → IsClosed n has →
        AreLeaves n has others → IsConforming n others }
    ensures closed { (n : ℕ) (others : List ℕ) → IsConforming n others → IsClosed n (ancestors_of others) }
    ensures each_once { (n : ℕ) (others : List ℕ) → IsConforming n others → AreLeaves n (ancestors_of others) others }
    ensures same_count { (n : ℕ) (others : List ℕ) → IsConforming n others →
        length (leaves_of n (ancestors_of others)) ≡ length others }
{}
