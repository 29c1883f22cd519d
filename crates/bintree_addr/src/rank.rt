//! The order in which triangles deserve to be split.

ghost use Rattle.std.specs.Prelude.{◌↔◌, IsTrue};
ghost use Rattle.std.proofs.Common.{rules};
ghost use Rattle.std.specs.Cmp.{partial_order_from_own_ties};
ghost use Rattle.std.specs.Cmp.Rules.{comparing};
ghost use Rattle.std.specs.Ordering.{as_partial_cmp};
ghost use Rattle.bintree_addr.specs.RankOrder.{rank_cmp, ComesFirst};

use crate::Tri;
use std::cmp::Ordering;

/// A triangle with its priority. The lesser of two ranks before the other: that is the one of the
/// greater priority, and of equal priorities the one of the lesser address.
#[derive(Clone, Copy, Debug, PartialEq, Eq)]
pub struct Rank {
    /// The priority.
    pub p: u64,
    /// The triangle.
    pub tri: Tri,
}

impl Rank {
    /// Whether this triangle is to be split before the other.
    pub fn ranks_before(&self, other: &Rank) -> bool
        ensures { IsTrue result ↔ ComesFirst self.now other.now }
    {
        self < other
    }
}

impl Ord for Rank {
    ghost cmp = { rank_cmp };

    ghost total = { Prim.search (comparing, rules) };

    ghost matches_partial_cmp = { Prim.search (comparing, rules) };

    ghost matches_eq = { Prim.search (comparing, rules) };

    fn cmp(&self, other: &Rank) -> Ordering {
        other.p.cmp(&self.p).then(self.tri.cmp(&other.tri))
    }
}

impl PartialOrd for Rank {
    ghost partial_cmp = { as_partial_cmp rank_cmp };

    ghost laws = { partial_order_from_own_ties (Prim.search (comparing, rules)) (Prim.search (comparing, rules)) };

    fn partial_cmp(&self, other: &Rank) -> Option<Ordering> {
        Some(self.cmp(other))
    }
}
