//! Which diamonds may be merged.

ghost use Rattle.std.specs.Prelude.{◌↔◌, IsTrue};
ghost use Rattle.deferred_loop.specs.Kept.{IsMet};

use bintree_addr::Rank;

/// The limit for the last diamond.
#[derive(Clone, Copy)]
pub enum Limit {
    /// None: the leaves exceed the budget.
    Over,
    /// It must rank after the first leaf, which does not fit.
    After(Rank),
    /// It must have priority 0, since no leaf has a positive one.
    Zero,
}

impl Limit {
    /// Whether a rank meets the limit.
    pub fn is_met(&self, rank: &Rank) -> bool
        ensures { IsTrue result ↔ IsMet self.now rank.now }
    {
        match self {
            Limit::Over => true,
            Limit::After(first) => first.ranks_before(rank),
            Limit::Zero => rank.p == 0,
        }
    }
}
