//! Laws of the definitions, each a clause of a function with an empty body.

ghost use Rattle.std.specs.Prelude.{◌≡◌, ℕ, ◌+◌, ◌*◌, ◌/◌, ◌^◌, ◌<◌, ◌≤◌, ◌↔◌, ◌⊎◌, Bool, Option, Some, None, IfSome};
ghost use Rattle.std.specs.Prelude.{IsNone, List, [], ◌∷◌, ◌++◌, length, get_or, All, Contains, IsTrue, count_by};
ghost use Rattle.std.specs.Prelude.{nat_eq};
ghost use Rattle.mesh_defs.specs.Triangle.{IsAddress, IsSplittable};
ghost use Rattle.mesh_defs.specs.Tiling.{IsConforming};
ghost use Rattle.mesh_defs.specs.BoundingBox.{point};
ghost use Rattle.mesh_defs.specs.Thickness.{height_of};
ghost use Rattle.mesh_defs.specs.MeshText.{vertices_of, mesh_text, numbers_line};
ghost use Rattle.mesh_defs.specs.ClosedSet.{IsClosed, IsSubset, IsLeastClosed, leaves_of, among};
ghost use Rattle.mesh_defs.specs.Ranking.{IsRanking, IsRankClosure, IsBlockedBy};
ghost use Rattle.mesh_defs.specs.Greedy.{IsFirstLeaf, with_triangle, IsGreedyEnd};
ghost use Rattle.mesh_defs.specs.BestMesh.{IsBestMesh};
ghost use Rattle.mesh_defs.specs.GridSet.{IsAscending, IsGain};
ghost use Rattle.mesh_defs.specs.Falling.{IsFalling};
ghost use Rattle.mesh_defs.specs.declared.level.TheConstants.{GREATEST_LEVEL};
ghost use Rattle.bintree_addr.specs.declared.blocked.Blocked.{Blocked};
ghost use Rattle.mesh_laws.specs.Frame.{IsFrame};

/// Least closed sets and their leaves, for every test of addresses.
pub fn closed_set_laws()
    ensures unique { (n : ℕ) (wanted has other : ℕ → Bool) → IsLeastClosed n wanted has →
        IsLeastClosed n wanted other → (a : ℕ) → has a ≡ other a }
    ensures larger { (n : ℕ) (some all has other : ℕ → Bool) → IsSubset some all →
        IsLeastClosed n some has → IsLeastClosed n all other → IsSubset has other }
    ensures found { (n : ℕ) (has : ℕ → Bool) (t : ℕ) → IsClosed n has → IsSplittable n t →
        ((next : ℕ → Bool) × IsLeastClosed n (with_triangle has t) next) }
    ensures same_leaves { (n : ℕ) (has other : ℕ → Bool) → ((a : ℕ) → has a ≡ other a) →
        leaves_of n has ≡ leaves_of n other }
    ensures more_leaves { (n : ℕ) (has other : ℕ → Bool) → IsSubset has other →
        length (leaves_of n has) ≤ length (leaves_of n other) }
    ensures counted { (n : ℕ) (members : List ℕ) →
        ((a : ℕ) → IsTrue (among members a) → count_by (λ t. nat_eq t a) members ≡ 1) →
        IsClosed n (among members) → length (leaves_of n (among members)) ≡ length members + 2 }
{}

/// The leaves of a closed set.
///
/// A leaf is a triangle of the grid that is no member and whose parent is a member, unless it is 2 or 3. Each
/// stands once, there are at most as many as finest triangles, and they determine the set.
pub fn set_leaf_laws()
    ensures leaf { (n : ℕ) (has : ℕ → Bool) (a : ℕ) → IsClosed n has →
        (Contains (leaves_of n has) a ↔ (IsAddress n a × (IsTrue (has a) → ⊥) × (4 ≤ a → IsTrue (has (a / 2))))) }
    ensures once { (n : ℕ) (has : ℕ → Bool) (a : ℕ) → count_by (λ t. nat_eq t a) (leaves_of n has) ≤ 1 }
    ensures most { (n : ℕ) (has : ℕ → Bool) → length (leaves_of n has) ≤ 2 * 4 ^ n }
    ensures determine { (n : ℕ) (has other : ℕ → Bool) → IsClosed n has → IsClosed n other →
        ((v : ℕ) → Contains (leaves_of n has) v ↔ Contains (leaves_of n other) v) → (a : ℕ) → has a ≡ other a }
{}

/// Sets as ascending lists: the list is determined by its members, and so is a gain.
pub fn member_laws()
    ensures same { (xs ys : List ℕ) → IsAscending xs → IsAscending ys →
        ((a : ℕ) → among xs a ≡ among ys a) → xs ≡ ys }
    ensures gain { (n : ℕ) (members : List ℕ) (t gain other : ℕ) →
        IsGain n members t gain → IsGain n members t other → gain ≡ other }
{}

/// The rank closure of a budget is unique, and so are the blocking triangle and its need.
pub fn rank_laws()
    ensures closure { (n budget : ℕ) (ranking : List ℕ) (i j : ℕ) (has other : ℕ → Bool) →
        IsRankClosure n budget ranking i has → IsRankClosure n budget ranking j other →
        ((i ≡ j) × ((a : ℕ) → has a ≡ other a)) }
    ensures blocked { (n : ℕ) (ranking : List ℕ) (chosen a b need other : ℕ) →
        IsBlockedBy n ranking chosen a need → IsBlockedBy n ranking chosen b other →
        ((a ≡ b) × (need ≡ other)) }
{}

/// Greedy refinement over priorities that fall from parent to child.
///
/// It ends at the rank closure and nowhere else; the first leaf in rank there, if there is one, is the blocking
/// triangle, and the set with it has the need as number of leaves. No conforming list within the
/// budget has a lower worst.
pub fn greedy_laws()
    ensures closure { (n budget : ℕ) (priority : ℕ → ℕ) (ranking : List ℕ) (has : ℕ → Bool) →
        IsRanking n priority ranking → IsFalling n priority → 2 ≤ budget →
        IsGreedyEnd n budget priority has → ((chosen : ℕ) × IsRankClosure n budget ranking chosen has) }
    ensures end { (n budget : ℕ) (priority : ℕ → ℕ) (ranking : List ℕ) (chosen : ℕ) (has : ℕ → Bool) →
        IsRanking n priority ranking → IsFalling n priority →
        IsRankClosure n budget ranking chosen has → IsGreedyEnd n budget priority has }
    ensures blocked { (n budget : ℕ) (priority : ℕ → ℕ) (ranking : List ℕ) (chosen : ℕ)
        (has next : ℕ → Bool) (f : ℕ) →
        IsRanking n priority ranking → IsFalling n priority → 2 ≤ budget →
        IsGreedyEnd n budget priority has → IsRankClosure n budget ranking chosen has →
        IsFirstLeaf n priority has f → IsLeastClosed n (with_triangle has f) next →
        IsBlockedBy n ranking chosen f (length (leaves_of n next)) }
    ensures first { (n budget : ℕ) (priority : ℕ → ℕ) (ranking : List ℕ) (chosen : ℕ) (has : ℕ → Bool) →
        IsRanking n priority ranking → IsFalling n priority → 2 ≤ budget →
        IsGreedyEnd n budget priority has → IsRankClosure n budget ranking chosen has →
        chosen < length ranking → IsFirstLeaf n priority has (get_or ranking chosen 0) }
    ensures best { (n budget : ℕ) (priority : ℕ → ℕ) (has : ℕ → Bool) → IsFalling n priority →
        2 ≤ budget → IsGreedyEnd n budget priority has → IsBestMesh n budget priority (leaves_of n has) }
{}

/// The frame of a budget is unique, and over priorities that fall from parent to child it is a best mesh.
///
/// What blocks certifies that: it is a leaf of the worst priority, and with it there are more leaves than the
/// budget. Nothing blocks exactly where every leaf has priority 0.
pub fn frame_laws()
    ensures unique { (n budget : ℕ) (priority : ℕ → ℕ) (has instead : ℕ → Bool) (worst other : ℕ)
        (blocked blocks : Option Blocked) →
        IsFrame n budget priority has worst blocked → IsFrame n budget priority instead other blocks →
        (((a : ℕ) → has a ≡ instead a) × (worst ≡ other) × (blocked ≡ blocks)) }
    ensures same { (n budget : ℕ) (priority : ℕ → ℕ) (has other : ℕ → Bool) (worst : ℕ) (blocked : Option Blocked) →
        ((a : ℕ) → has a ≡ other a) → IsFrame n budget priority has worst blocked →
        IsFrame n budget priority other worst blocked }
    ensures best { (n budget : ℕ) (priority : ℕ → ℕ) (has : ℕ → Bool) (worst : ℕ) (blocked : Option Blocked) →
        IsFrame n budget priority has worst blocked → IsFalling n priority → 2 ≤ budget →
        IsBestMesh n budget priority (leaves_of n has) }
    ensures unblocked { (n budget : ℕ) (priority : ℕ → ℕ) (has : ℕ → Bool) (worst : ℕ)
        (blocked : Option Blocked) →
        IsFrame n budget priority has worst blocked → IsFalling n priority → 2 ≤ budget →
        (IsNone blocked ↔ All (λ a. priority a ≡ 0) (leaves_of n has)) }
    ensures certificate { (n budget : ℕ) (priority : ℕ → ℕ) (has : ℕ → Bool) (worst : ℕ)
        (blocked : Option Blocked) →
        IsFrame n budget priority has worst blocked → IsFalling n priority → 2 ≤ budget →
        IfSome blocked (λ b. (budget < b.need) × (priority b.tri ≡ worst) × Contains (leaves_of n has) b.tri) }

    // The end of greedy refinement is the frame: no leaf is worth a split, or the first leaf in rank blocks.
    ensures done { (n budget : ℕ) (priority : ℕ → ℕ) (has : ℕ → Bool) → IsFalling n priority → 2 ≤ budget →
        IsGreedyEnd n budget priority has → All (λ a. priority a ≡ 0) (leaves_of n has) →
        IsFrame n budget priority has 0 None }
    ensures stopped { (n budget : ℕ) (priority : ℕ → ℕ) (has next : ℕ → Bool) (b : Blocked) →
        IsFalling n priority → 2 ≤ budget → IsGreedyEnd n budget priority has →
        IsFirstLeaf n priority has b.tri → IsLeastClosed n (with_triangle has b.tri) next →
        b.need ≡ length (leaves_of n next) →
        IsFrame n budget priority has (priority b.tri) (Some b) }
{}

/// The two base triangles 2 and 3 are the best mesh of budget 2, whatever the heights and the view.
///
/// `best` ranges over every priority. `only` says why it is so: no other conforming list is as short.
/// `vertices` and `text` give the corners and the bytes of that mesh, where no plane is in force.
pub fn base_mesh(n: u32)
    requires low { 1 ≤ n }
    requires high { n ≤ GREATEST_LEVEL }
    ensures conforming { IsConforming n (2 ∷ (3 ∷ [])) }
    ensures only { (others : List ℕ) → IsConforming n others → length others ≤ 2 →
        (others ≡ 2 ∷ (3 ∷ [])) ⊎ (others ≡ 3 ∷ (2 ∷ [])) }
    ensures best { (priority : ℕ → ℕ) → IsBestMesh n 2 priority (2 ∷ (3 ∷ [])) }
    ensures vertices { vertices_of n (2 ∷ (3 ∷ []))
        ≡ point 0 0 ∷ (point (2 ^ n) 0 ∷ (point 0 (2 ^ n) ∷ (point (2 ^ n) (2 ^ n) ∷ []))) }
    ensures text { (heights : List ℕ) (spacing : ℕ) →
        mesh_text n heights spacing [] (2 ∷ (3 ∷ []))
        ≡ numbers_line 118 0 0 (height_of n heights (point 0 0))
        ++ numbers_line 118 (spacing * 2 ^ n) 0 (height_of n heights (point (2 ^ n) 0))
        ++ numbers_line 118 0 (spacing * 2 ^ n) (height_of n heights (point 0 (2 ^ n)))
        ++ numbers_line 118 (spacing * 2 ^ n) (spacing * 2 ^ n)
        (height_of n heights (point (2 ^ n) (2 ^ n)))
        ++ numbers_line 102 1 2 3
        ++ numbers_line 102 4 3 2 }
{}
