//! What a split does to the places of the entries.

ghost use Rattle.std.specs.Prelude.{◌≡◌, ℕ, ◌+◌, ◌*◌, ◌<◌, ◌≤◌, ◌/◌, ◌∷◌, [], true, false, IsNone, IfSome, length};
ghost use Rattle.std.specs.Prelude.{slice_index};
ghost use Rattle.mesh_defs.specs.declared.counters.TheConstants.{MOST_CHANGES};
ghost use Rattle.std.specs.List.{AllByRecursion, filter};
ghost use Rattle.mesh_defs.specs.Triangle.{level_of};
ghost use Rattle.mesh_laws.specs.Edge.{mate_of};
ghost use Rattle.mesh_laws.specs.Slots.{address_at, has_children, IsLive, room_of};
ghost use Rattle.force_split.specs.Chain.{IsChain, IsGainOf, chain_size};
ghost use Rattle.triangle_pool.specs.Answer.{numbers};
ghost use Rattle.deferred_loop.specs.Seen.{IsSplitOf};
ghost use Rattle.roam_mesh.specs.Parts.{is_leaf_at, seen_parts, IsParts};
ghost use Rattle.roam_mesh.specs.Keeping.{IsKeptMate};
ghost use Rattle.roam_mesh.specs.Change.{with_mate, with_chain, left_all, pushed_all};
ghost use Rattle.roam_mesh.specs.Log.{IsBornOfSplit};
ghost use Rattle.roam_mesh.specs.Splitting.{IsLeafMate, IsChainSplit, IsSplitAt, pair_slots, second_slots, born_slots};
ghost use Rattle.roam_mesh.specs.Splitting.{born_leaves};

use crate::entry::Entry;
use crate::parts::Parts;
use arrayvec::ArrayVec;
use bintree_addr::Slot;
use force_split::{Chain, carry_out, plan};
use triangle_pool::Born;

impl Parts {
    /// Splits a leaf with what it forces, and answers the slots of the children. The leaf keeps what it has, and so
    /// does its mate where that is a leaf.
    pub fn split(&mut self, s: Slot) -> ArrayVec<Born, 30>
        requires parts { IsParts self.old }
        requires settled { self.old.fresh ≡ [] }
        requires leaf { is_leaf_at self.old.pool.pairs s.0 ≡ true }
        requires coarse { level_of (address_at self.old.pool.pairs s.0) < 2 * self.old.pool.n }
        requires room { (gain : ℕ) →
            IsGainOf self.old.pool.n self.old.pool.pairs (address_at self.old.pool.pairs s.0) gain →
            gain ≤ room_of self.old.pool.pairs }
        requires count { self.old.pool.splits + (4 * self.old.pool.n + 4) < MOST_CHANGES }
        ensures parts { IsParts self.new }
        ensures split { IsSplitOf (seen_parts self.old) (seen_parts self.new) (address_at self.old.pool.pairs s.0) }
        ensures born { IsBornOfSplit self.old.pool self.new.pool result.items }
    {
        let own = self.entries[s.0 as usize];
        let other = self.kept_mate(s);
        let born = self.split_at(s);
        let _n = self.pool.n();
        self.take_back(&own);
        if let Some(other) = other {
            self.take_back(&other);
        }
        born
    }

    /// What is kept of the mate of a leaf, where it is a leaf.
    fn kept_mate(&self, s: Slot) -> Option<Entry>
        requires leaf { is_leaf_at self.now.pool.pairs s.0 ≡ true }
        ensures none { IsNone result → 1 ≤ mate_of (address_at self.now.pool.pairs s.0) →
            has_children self.now.pool.pairs (mate_of (address_at self.now.pool.pairs s.0) / 2) ≡ false }
        ensures some { IfSome result (IsKeptMate self.now s.0) }
    {
        match self.leaf_mate(s) {
            Some(t) => Some(self.entries[t.0 as usize]),
            None => None,
        }
    }

    /// Splits a leaf with what it forces, as if all that is new in its role were fresh.
    ///
    /// First all leaves that will be split leave their places, and the diamonds above them, which can be merged no
    /// longer. Then the pool splits the chain. Last the new leaves are fresh, and the diamond of the leaf itself, the
    /// one of the chain that can be merged, the leaf last.
    fn split_at(&mut self, s: Slot) -> ArrayVec<Born, 30>
        requires leaf { is_leaf_at self.old.pool.pairs s.0 ≡ true }
        requires coarse { level_of (address_at self.old.pool.pairs s.0) < 2 * self.old.pool.n }
        requires room { (gain : ℕ) →
            IsGainOf self.old.pool.n self.old.pool.pairs (address_at self.old.pool.pairs s.0) gain →
            gain ≤ room_of self.old.pool.pairs }
        requires count { self.old.pool.splits + (4 * self.old.pool.n + 4) < MOST_CHANGES }
        ensures split { IsSplitAt self.old self.new s.0 }
        ensures born { IsBornOfSplit self.old.pool self.new.pool result.items }
    {
        let chain = plan(&self.pool, s);
        self.leave_chain(&chain.slots);
        let answers = self.split_pool(&chain);
        self.push_born(&answers);
        self.push_diamond(s);
        answers
    }

    /// The splits of a chain in the pool.
    fn split_pool(&mut self, chain: &Chain) -> ArrayVec<Born, 30>
        requires some { 1 ≤ length chain.now.slots.items }
        requires chain { IsChain self.old.pool.pairs (numbers chain.now.slots.items) }
        requires size { chain.now.gain ≡ chain_size self.old.pool.pairs (numbers chain.now.slots.items) }
        requires coarse { level_of
            (address_at self.old.pool.pairs (slice_index (numbers chain.now.slots.items) 0)) < 2 * self.old.pool.n }
        requires room { chain.now.gain ≤ room_of self.old.pool.pairs }
        requires count { self.old.pool.splits + (4 * self.old.pool.n + 4) < MOST_CHANGES }
        ensures pool { IsChainSplit self.old.pool self.new.pool (numbers chain.now.slots.items) result.items }
        ensures rest { self.new ≡ record self.old { pool = self.new.pool } }
    {
        let _n = self.pool.n();
        let answers = carry_out(&mut self.pool, chain);
        let _leaves = self.pool.leaf_count();
        answers
    }

    /// Takes the leaves of a chain out of their places, with the diamonds above them.
    fn leave_chain(&mut self, slots: &[Slot])
        requires leaves { AllByRecursion (λ s. is_leaf_at self.old.pool.pairs s ≡ true) (numbers slots.now) }
        ensures { self.new ≡ left_all self.old (with_chain self.old.pool.pairs (numbers slots.now)) }
    {
        let Some((first, rest)) = slots.split_first() else {
            return;
        };
        self.leave_with_mate(*first);
        self.leave_chain(rest);
    }

    /// Takes a leaf that will be split out of its place, and its mate where that is one.
    fn leave_with_mate(&mut self, s: Slot)
        requires leaf { is_leaf_at self.old.pool.pairs s.0 ≡ true }
        ensures { self.new ≡ left_all self.old (with_mate self.old.pool.pairs s.0) }
    {
        let mate = self.leaf_mate(s);
        self.leave_with_above(s);
        if let Some(mate) = mate {
            self.leave_with_above(mate);
        }
    }

    /// The mate of a leaf, where it is a leaf.
    fn leaf_mate(&self, s: Slot) -> Option<Slot>
        requires leaf { is_leaf_at self.now.pool.pairs s.0 ≡ true }
        ensures none { IsNone result → 1 ≤ mate_of (address_at self.now.pool.pairs s.0) →
            has_children self.now.pool.pairs (mate_of (address_at self.now.pool.pairs s.0) / 2) ≡ false }
        ensures some { IfSome result (λ t. IsLeafMate self.now s.0 t.0) }
    {
        if self.pool.may_split(s) {
            self.pool.base(s)
        } else {
            None
        }
    }

    /// Lists the leaves as fresh that a chain of splits made: some of its children are split themselves.
    fn push_born(&mut self, answers: &[Born])
        requires live { AllByRecursion (λ s. IsLive self.old.pool.pairs s) (born_slots answers.now) }
        ensures { self.new ≡ pushed_all self.old (born_leaves self.old.pool.pairs answers.now) }
    {
        let Some((born, rest)) = answers.split_first() else {
            return;
        };
        self.push_leaves(born.first);
        self.push_second(born.second);
        self.push_born(rest);
    }

    /// Lists those of a second pair of slots as fresh that are leaves, where there is one.
    fn push_second(&mut self, pair: Option<(Slot, Slot)>)
        requires live { AllByRecursion (λ s. IsLive self.old.pool.pairs s) (second_slots pair) }
        ensures { self.new ≡ pushed_all self.old (filter (is_leaf_at self.old.pool.pairs) (second_slots pair)) }
    {
        if let Some(pair) = pair {
            self.push_leaves(pair);
        }
    }

    /// Lists those of two slots as fresh that are leaves.
    fn push_leaves(&mut self, pair: (Slot, Slot))
        requires live { AllByRecursion (λ s. IsLive self.old.pool.pairs s) (pair_slots pair) }
        ensures { self.new ≡ pushed_all self.old (filter (is_leaf_at self.old.pool.pairs) (pair_slots pair)) }
    {
        self.push_leaf(pair.0);
        self.push_leaf(pair.1);
    }

    /// Lists a slot as fresh if it is a leaf.
    fn push_leaf(&mut self, s: Slot)
        requires live { IsLive self.old.pool.pairs s.0 }
        ensures { self.new ≡ pushed_all self.old (filter (is_leaf_at self.old.pool.pairs) (s.0 ∷ [])) }
    {
        if self.pool.is_leaf(s) {
            self.push_fresh(s);
        }
    }
}
