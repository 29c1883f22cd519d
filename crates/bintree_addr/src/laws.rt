//! Laws of ranks, as clauses of functions with empty bodies.

ghost use Rattle.std.specs.Prelude.{◌≡◌, ◌↔◌, true, false};
ghost use Rattle.std.specs.Ordering.{MatchOrdering, is_lt};
ghost use Rattle.bintree_addr.specs.declared.rank.Rank.{Rank};
ghost use Rattle.bintree_addr.specs.RankOrder.{rank_cmp, ComesFirst};

/// The comparison of ranks: less where the first comes first, and equal only for one rank.
pub fn rank_laws()
    ensures { (r s : Rank) → MatchOrdering (rank_cmp r s) (ComesFirst r s) (r ≡ s) (ComesFirst s r) }
{}

/// The comparison of ranks, where it is only asked whether it answers less.
pub fn rank_order_laws()
    ensures less { (r s : Rank) → (is_lt (rank_cmp r s) ≡ true) ↔ ComesFirst r s }
    ensures not_less { (r s : Rank) → is_lt (rank_cmp r s) ≡ false → ¬ (ComesFirst r s) }
{}
