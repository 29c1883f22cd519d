//! The keys of the queues.

ghost use Rattle.std.specs.Prelude.{◌≡◌, ◌↔◌, true, IfSome, IsNone, MatchOption};
ghost use Rattle.mesh_laws.specs.Edge.{mate_of};
ghost use Rattle.mesh_laws.specs.Slots.{address_at, IsLive};
ghost use Rattle.mesh_laws.specs.Chief.{chief_of};
ghost use Rattle.roam_mesh.specs.Parts.{entry_at, is_ready_at, leaf_rank, worst_rank, diamond_rank};
ghost use Rattle.roam_mesh.specs.Keys.{IsBetterFirst, IsUnasked, IsKnownRank};

use crate::parts::Parts;
use bintree_addr::{Rank, Slot};

impl Parts {
    /// The rank under which a leaf stands in the split queue.
    pub fn leaf_rank(&self, s: Slot) -> Rank
        requires live { IsLive self.now.pool.pairs s.0 }
        ensures { result ≡ leaf_rank self.now s.0 }
    {
        Rank {
            p: self.entries[s.0 as usize].best(),
            tri: self.pool.tri(s),
        }
    }

    /// The address of a slot, ranked by the worst that its priority can be.
    fn worst_rank(&self, s: Slot) -> Rank
        requires live { IsLive self.now.pool.pairs s.0 }
        ensures { result ≡ worst_rank self.now (address_at self.now.pool.pairs s.0) }
    {
        Rank {
            p: self.entries[s.0 as usize].worst(),
            tri: self.pool.tri(s),
        }
    }

    /// The triangle of a diamond whose worst rank is the better one, and the other one.
    fn better_first(&self, s: Slot) -> (Slot, Option<Slot>)
        requires ready { is_ready_at self.now.pool.pairs s.0 ≡ true }
        ensures { IsBetterFirst self.now s.0 result }
    {
        let _n = self.pool.n();
        match self.mate(s) {
            Some(mate) => {
                if self.worst_rank(mate).ranks_before(&self.worst_rank(s)) {
                    (mate, Some(s))
                } else {
                    (s, Some(mate))
                }
            }
            None => (s, None),
        }
    }

    /// The rank under which the diamond of a triangle stands in the merge queue.
    pub fn diamond_rank(&self, s: Slot) -> Rank
        requires ready { is_ready_at self.now.pool.pairs s.0 ≡ true }
        ensures { result ≡ diamond_rank self.now (chief_of (address_at self.now.pool.pairs s.0)) }
    {
        self.worst_rank(self.better_first(s).0)
    }

    /// The triangle that the diamond's key names, and the one to ask next, or None where its rank is known.
    pub fn better_and_unasked(&self, s: Slot) -> (Slot, Option<Slot>)
        requires ready { is_ready_at self.now.pool.pairs s.0 ≡ true }
        ensures better { worst_rank self.now (address_at self.now.pool.pairs result.0.0)
            ≡ diamond_rank self.now (chief_of (address_at self.now.pool.pairs s.0)) }
        ensures unasked { MatchOption result.1 (IsKnownRank self.now s.0) (IsUnasked self.now s.0) }
    {
        let _n = self.pool.n();
        let (better, other) = self.better_first(s);
        let first = self.entries[better.0 as usize];
        let Some(mate) = other else {
            return if first.is_sure() {
                (better, None)
            } else {
                (better, Some(better))
            };
        };
        let second = self.entries[mate.0 as usize];
        let worst = self.worst_rank(better);
        let best = self.leaf_rank(mate);
        if !first.is_sure() {
            let own = self.leaf_rank(better);
            if !second.is_sure() && best.ranks_before(&own) {
                (better, Some(mate))
            } else {
                (better, Some(better))
            }
        } else if second.is_sure() || worst.ranks_before(&best) {
            (better, None)
        } else {
            (better, Some(mate))
        }
    }
}
