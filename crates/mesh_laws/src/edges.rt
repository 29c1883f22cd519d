//! Laws of the definitions, each a clause of a function with an empty body.

ghost use Rattle.std.specs.Prelude.{◌≡◌, ◌≢◌, ◌⊎◌, ◌↔◌, ℕ, ◌+◌, ◌*◌, ◌/◌, ◌^◌, ◌<◌, ◌≤◌, Bool, true, false, List, ◌∷◌};
ghost use Rattle.std.specs.Prelude.{length};
ghost use Rattle.mesh_defs.specs.declared.point.Point.{Point};
ghost use Rattle.mesh_defs.specs.Triangle.{level_of, corners_of, IsMate, IsEdge, OnOneSide};
ghost use Rattle.mesh_defs.specs.ClosedSet.{IsClosed, IsLeastClosed, leaves_of};
ghost use Rattle.mesh_defs.specs.Greedy.{with_triangle};
ghost use Rattle.bintree_laws.specs.Corners.{IsReversed};
ghost use Rattle.mesh_laws.specs.Edge.{mate_of, owner, with_square, IsEdgeOf};
ghost use Rattle.mesh_laws.specs.LeafAcross.{IsLeafOf, IsLeafAcross, IsAcrossEdge, IsGrown, AreAcrossChildren};
ghost use Rattle.mesh_laws.specs.LeafAcross.{AreAcrossMerged};
ghost use Rattle.mesh_laws.specs.Slots.{address_at, has_children, IsLive, split_set, room_of, IsPool, HasLeaf, IsSplit};
ghost use Rattle.mesh_laws.specs.Slots.{IsMerge};
ghost use Rattle.mesh_laws.specs.Chain.{IsForcedFirst, IsForcedChain};

/// The mate of a triangle, as arithmetic on addresses. An edge and its mate are one line in its two directions.
pub fn edge_laws()
    ensures mate { (n a b : ℕ) → 2 ≤ a → level_of a ≤ 2 * n →
        (IsMate n a b ↔ ((1 ≤ mate_of a) × (mate_of a ≡ b))) }
    ensures back { (a : ℕ) → 2 ≤ a → 1 ≤ mate_of a → mate_of (mate_of a) ≡ a }
    ensures reversed { (n e : ℕ) → 2 ≤ e → level_of e ≤ 2 * n + 1 → 1 ≤ mate_of e →
        IsReversed (corners_of n e) (corners_of n (mate_of e)) }
    ensures named { (n a e : ℕ) → 2 ≤ a → IsEdgeOf a e →
        IsEdge (corners_of n a) (corners_of n e).v0 (corners_of n e).v1 }
{}

/// The leaves of a closed set and the leaf across each of their edges.
pub fn leaf_edge_laws()
    ensures one_leaf { (n : ℕ) (has : ℕ → Bool) (a b : ℕ) (p q : Point) → IsClosed n has →
        IsLeafOf has a → IsLeafOf has b →
        IsEdge (corners_of n a) p q → IsEdge (corners_of n b) p q → a ≡ b }
    ensures reversed { (n : ℕ) (has : ℕ → Bool) (a : ℕ) (p q : Point) → IsClosed n has →
        IsLeafOf has a → IsEdge (corners_of n a) p q → (OnOneSide (2 ^ n) p q → ⊥) →
        ((b : ℕ) × IsAcrossEdge n has a p q b) }
    ensures border { (n : ℕ) (has : ℕ → Bool) (a b : ℕ) (p q : Point) → IsClosed n has →
        IsLeafOf has a → IsLeafOf has b → IsEdge (corners_of n a) p q → OnOneSide (2 ^ n) p q →
        IsEdge (corners_of n b) q p → ⊥ }
    ensures across { (n : ℕ) (has : ℕ → Bool) (a e : ℕ) → IsClosed n has → IsLeafOf has a →
        IsEdgeOf a e → 1 ≤ mate_of e → IsLeafAcross n has a (corners_of n e).v0 (corners_of n e).v1
        (owner (with_square has) (mate_of e)) }
    ensures none { (n : ℕ) (has : ℕ → Bool) (a e : ℕ) → IsClosed n has → IsLeafOf has a → IsEdgeOf a e →
        (mate_of e ≡ 0 ↔ OnOneSide (2 ^ n) (corners_of n e).v0 (corners_of n e).v1) }

    // Across the base stands the mate or its parent; across a leg a leaf of the same level, or one level finer.
    ensures base { (has : ℕ → Bool) (a : ℕ) → ((owner (with_square has) (mate_of a) ≡ mate_of a)
        ⊎ (owner (with_square has) (mate_of a) ≡ mate_of a / 2)) }
    ensures leg { (has : ℕ → Bool) (a e : ℕ) → 2 ≤ a → e / 2 ≡ a → 1 ≤ mate_of e →
        ((level_of (owner (with_square has) (mate_of e)) ≡ level_of a)
        ⊎ (level_of (owner (with_square has) (mate_of e)) ≡ level_of a + 1)) }

    // After a diamond is split, and after it is merged.
    ensures split { (n : ℕ) (before after : ℕ → Bool) (a : ℕ) → IsClosed n before → IsLeafOf before a →
        (1 ≤ mate_of a → IsLeafOf before (mate_of a)) → IsGrown before after a →
        AreAcrossChildren before after a }
    ensures merge { (n : ℕ) (before after : ℕ → Bool) (a : ℕ) → IsClosed n before → 2 ≤ a →
        IsGrown after before a → AreAcrossMerged before after a }
{}

/// What the split of a leaf forces.
pub fn chain_laws()
    // The mate of a leaf is a leaf, or its parent is one, a level coarser, and must be split first.
    ensures next { (n : ℕ) (has : ℕ → Bool) (a : ℕ) → IsClosed n has → IsLeafOf has a → 1 ≤ mate_of a →
        (IsLeafOf has (mate_of a) ⊎ IsForcedFirst has a (mate_of a / 2)) }
    ensures leaf { (n : ℕ) (has : ℕ → Bool) (a b : ℕ) → IsClosed n has → IsLeafOf has a →
        IsForcedFirst has a b → (IsLeafOf has b × (level_of b + 1 ≡ level_of a)) }

    // The least closed set with a leaf is the one with the next of its chain, and then the leaf's diamond.
    ensures step { (n : ℕ) (has middle after : ℕ → Bool) (a b : ℕ) → IsClosed n has → IsLeafOf has a →
        level_of a < 2 * n → IsForcedFirst has a b → IsLeastClosed n (with_triangle has b) middle →
        IsGrown middle after a → IsLeastClosed n (with_triangle has a) after }
    ensures end { (n : ℕ) (has after : ℕ → Bool) (a : ℕ) → IsClosed n has → IsLeafOf has a →
        level_of a < 2 * n → (1 ≤ mate_of a → IsLeafOf has (mate_of a)) → IsGrown has after a →
        IsLeastClosed n (with_triangle has a) after }

    // For a leaf below the finest level of the largest grid, at most 28 links.
    ensures short { (n : ℕ) (has : ℕ → Bool) (a : ℕ) (rest : List ℕ) → IsClosed n has →
        IsForcedChain has (a ∷ rest) → length rest ≤ level_of a }
{}

/// Pairs of slots as a set of split triangles and its leaves.
pub fn slot_laws()
    // Each member but for the square has children, and nothing else has; each leaf has a slot.
    ensures members { (n : ℕ) (pairs : List ℕ) (p : ℕ) → IsPool n pairs → 1 ≤ p →
        has_children pairs p ≡ with_square (split_set pairs) p }
    ensures slot { (pairs : List ℕ) (c : ℕ) → 2 ≤ c → has_children pairs (c / 2) ≡ true →
        ((s : ℕ) × (address_at pairs s ≡ c)) }
    ensures live { (pairs : List ℕ) (s : ℕ) → IsLive pairs s →
        has_children pairs (address_at pairs s / 2) ≡ true }
    ensures leaf { (pairs : List ℕ) (s : ℕ) → HasLeaf pairs s → IsLeafOf (split_set pairs) (address_at pairs s) }
    ensures leaf_slot { (n : ℕ) (pairs : List ℕ) (a : ℕ) → IsPool n pairs → IsLeafOf (split_set pairs) a →
        (((s : ℕ) × (address_at pairs s ≡ a)) × (has_children pairs a ≡ false)) }
    ensures count { (n : ℕ) (pairs : List ℕ) → IsPool n pairs →
        length (leaves_of n (split_set pairs)) + room_of pairs ≡ length pairs + 1 }

    // Split and merge undo each other on the set.
    ensures merged { (before middle after : List ℕ) (a : ℕ) → split_set before a ≡ false →
        (1 ≤ mate_of a → split_set before (mate_of a) ≡ false) → IsSplit before middle a →
        IsMerge middle after a → (p : ℕ) → split_set after p ≡ split_set before p }
    ensures split { (before middle after : List ℕ) (a : ℕ) → split_set before a ≡ true →
        (1 ≤ mate_of a → split_set before (mate_of a) ≡ true) → IsMerge before middle a →
        IsSplit middle after a → (p : ℕ) → split_set after p ≡ split_set before p }
{}
