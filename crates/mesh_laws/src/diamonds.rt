//! Laws of diamonds and of what there is, each a clause of a function with an empty body.

ghost use Rattle.std.specs.Prelude.{◌≡◌, ℕ, ◌+◌, ◌*◌, ◌/◌, ◌≤◌, ◌⊎◌, ◌↔◌, Bool, false, IsTrue, List, length, Contains};
ghost use Rattle.std.specs.Prelude.{Option};
ghost use Rattle.mesh_defs.specs.Triangle.{IsSplittable, IsMate};
ghost use Rattle.mesh_defs.specs.ClosedSet.{IsClosed, IsLeastClosed, leaves_of, among};
ghost use Rattle.mesh_defs.specs.Ranking.{IsRanking, IsRankClosure};
ghost use Rattle.mesh_defs.specs.GridSet.{IsAscending, IsForced};
ghost use Rattle.bintree_addr.specs.declared.blocked.Blocked.{Blocked};
ghost use Rattle.mesh_laws.specs.Frame.{IsFrame};
ghost use Rattle.mesh_laws.specs.Diamond.{IsInDiamond, CanSplit, CanMerge, IsWithDiamond, IsWithoutDiamond};

/// The split of one diamond whose triangles are leaves: it forces nothing else, and adds as many members and leaves
/// as it has triangles.
pub fn split_laws()
    ensures forced { (n : ℕ) (before : List ℕ) (d : ℕ) (after : List ℕ) → IsClosed n (among before) →
        CanSplit n (among before) d → (IsWithDiamond n before d after ↔ IsForced n before d after) }
    ensures pair { (n : ℕ) (before : List ℕ) (d : ℕ) (after : List ℕ) → IsAscending before → IsClosed n (among before) →
        CanSplit n (among before) d → IsWithDiamond n before d after → (m : ℕ) → IsMate n d m →
        length after ≡ length before + 2 }
    ensures single { (n : ℕ) (before : List ℕ) (d : ℕ) (after : List ℕ) → IsAscending before →
        IsClosed n (among before) →
        CanSplit n (among before) d → IsWithDiamond n before d after → ((m : ℕ) → IsMate n d m → ⊥) →
        length after ≡ length before + 1 }
    ensures leaves { (n : ℕ) (before : List ℕ) (d : ℕ) (after : List ℕ) (a : ℕ) → IsClosed n (among before) →
        CanSplit n (among before) d → IsWithDiamond n before d after →
        (Contains (leaves_of n (among after)) a
        ↔ ((Contains (leaves_of n (among before)) a × (IsInDiamond n d a → ⊥)) ⊎ ((4 ≤ a) × IsInDiamond n d (a / 2)))) }
{}

/// The merge of a diamond: the set without it is closed and has as many members less as it has triangles; which
/// leaves there are then, and which diamonds can be merged.
///
/// `others` says that each other diamond that could be merged still can, `diamonds` that besides these only the
/// diamond of a parent of a merged triangle can.
pub fn merge_laws()
    ensures closed { (n : ℕ) (before : List ℕ) (d : ℕ) (after : List ℕ) → IsClosed n (among before) →
        CanMerge n (among before) d → IsWithoutDiamond n before d after → IsClosed n (among after) }
    ensures pair { (n : ℕ) (before : List ℕ) (d : ℕ) (after : List ℕ) → IsAscending before → IsClosed n (among before) →
        CanMerge n (among before) d → IsWithoutDiamond n before d after → (m : ℕ) → IsMate n d m →
        length before ≡ length after + 2 }
    ensures single { (n : ℕ) (before : List ℕ) (d : ℕ) (after : List ℕ) → IsAscending before →
        IsClosed n (among before) →
        CanMerge n (among before) d → IsWithoutDiamond n before d after → ((m : ℕ) → IsMate n d m → ⊥) →
        length before ≡ length after + 1 }
    ensures leaves { (n : ℕ) (before : List ℕ) (d : ℕ) (after : List ℕ) (a : ℕ) → IsClosed n (among before) →
        CanMerge n (among before) d → IsWithoutDiamond n before d after →
        (Contains (leaves_of n (among after)) a
        ↔ (IsInDiamond n d a ⊎ (Contains (leaves_of n (among before)) a × (4 ≤ a → IsInDiamond n d (a / 2) → ⊥)))) }
    ensures others { (n : ℕ) (before : List ℕ) (d : ℕ) (after : List ℕ) (a : ℕ) → IsWithoutDiamond n before d after →
        CanMerge n (among before) a → (IsInDiamond n d a → ⊥) → CanMerge n (among after) a }
    ensures diamonds { (n : ℕ) (before : List ℕ) (d : ℕ) (after : List ℕ) (a : ℕ) → IsClosed n (among before) →
        CanMerge n (among before) d → IsWithoutDiamond n before d after → CanMerge n (among after) a →
        (CanMerge n (among before) a ⊎ ((c : ℕ) × IsInDiamond n d c × (4 ≤ c) × IsInDiamond n a (c / 2))) }
{}

/// A forced split: which leaves there are then, and which diamonds can be merged.
///
/// `own` says that the diamond of the split triangle can be merged, `diamonds` that besides it only those can that
/// could before.
pub fn forced_laws()
    ensures leaves { (n : ℕ) (before : List ℕ) (t : ℕ) (after : List ℕ) (a : ℕ) → IsClosed n (among before) →
        IsForced n before t after → (Contains (leaves_of n (among after)) a ↔ ((among after a ≡ false)
        × (Contains (leaves_of n (among before)) a
        ⊎ ((4 ≤ a) × (among before (a / 2) ≡ false) × IsTrue (among after (a / 2)))))) }
    ensures own { (n : ℕ) (before : List ℕ) (t : ℕ) (after : List ℕ) → IsClosed n (among before) →
        IsForced n before t after → among before t ≡ false → CanMerge n (among after) t }
    ensures diamonds { (n : ℕ) (before : List ℕ) (t : ℕ) (after : List ℕ) (a : ℕ) → IsClosed n (among before) →
        IsForced n before t after → CanMerge n (among after) a →
        (CanMerge n (among before) a ⊎ ((among before a ≡ false) × IsInDiamond n a t)) }
{}

/// What there is: the least closed set with any set of splittable triangles, as a test and, with one triangle more,
/// as a list; a ranking; and for each budget of at least 2 and each priority a rank closure and a frame.
pub fn existence_laws()
    ensures closed { (n : ℕ) (wanted : ℕ → Bool) → ((a : ℕ) → IsTrue (wanted a) → IsSplittable n a) →
        ((has : ℕ → Bool) × IsLeastClosed n wanted has) }
    ensures forced { (n : ℕ) (before : List ℕ) (t : ℕ) → IsClosed n (among before) → IsSplittable n t →
        ((after : List ℕ) × IsForced n before t after) }
    ensures ranking { (n : ℕ) (priority : ℕ → ℕ) → ((ranking : List ℕ) × IsRanking n priority ranking) }
    ensures closure { (n budget : ℕ) (priority : ℕ → ℕ) (ranking : List ℕ) → IsRanking n priority ranking → 2 ≤ budget →
        ((chosen : ℕ) × (has : ℕ → Bool) × IsRankClosure n budget ranking chosen has) }
    ensures frame { (n budget : ℕ) (priority : ℕ → ℕ) → 2 ≤ budget →
        ((members : List ℕ) × (worst : ℕ) × (blocked : Option Blocked) × IsAscending members
        × IsFrame n budget priority (among members) worst blocked) }
{}
