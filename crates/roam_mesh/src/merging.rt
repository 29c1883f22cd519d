//! What a merge does to the places of the entries.

ghost use Rattle.std.specs.Prelude.{◌≡◌, ◌+◌, ◌<◌, ◌≤◌, ◌++◌, true, cond, nat_lt, [], IsNone, IfSome};
ghost use Rattle.mesh_defs.specs.declared.counters.TheConstants.{MOST_CHANGES};
ghost use Rattle.mesh_laws.specs.Edge.{mate_of};
ghost use Rattle.mesh_laws.specs.Slots.{address_at, diamond_size, IsMerge};
ghost use Rattle.roam_mesh.specs.Mesh.{slot_of};
ghost use Rattle.deferred_loop.specs.Seen.{IsMergeOf};
ghost use Rattle.roam_mesh.specs.Parts.{entry_at, is_ready_at, seen_parts, IsParts};
ghost use Rattle.roam_mesh.specs.Change.{child_slots, left_all};
ghost use Rattle.roam_mesh.specs.Merging.{IsMergeAt};

use crate::entry::Entry;
use crate::parts::Parts;
use bintree_addr::Slot;

impl Parts {
    /// Merges a diamond. Its triangles, leaves now, keep what they have.
    pub fn merge(&mut self, s: Slot)
        requires parts { IsParts self.old }
        requires settled { self.old.fresh ≡ [] }
        requires ready { is_ready_at self.old.pool.pairs s.0 ≡ true }
        requires count { self.old.pool.merges < MOST_CHANGES }
        ensures parts { IsParts self.new }
        ensures merge { IsMergeOf (seen_parts self.old) (seen_parts self.new) (address_at self.old.pool.pairs s.0) }
        ensures pool { IsMerge self.old.pool.pairs self.new.pool.pairs (address_at self.old.pool.pairs s.0) }
        ensures merges { self.new.pool.merges
            ≡ self.old.pool.merges + diamond_size (address_at self.old.pool.pairs s.0) }
    {
        let own = self.entries[s.0 as usize];
        let other = self.kept_partner(s);
        self.merge_at(s);
        let _n = self.pool.n();
        self.take_back(&own);
        if let Some(other) = other {
            self.take_back(&other);
        }
    }

    /// What is kept of the other triangle of a diamond, if there is one.
    fn kept_partner(&self, s: Slot) -> Option<Entry>
        requires ready { is_ready_at self.now.pool.pairs s.0 ≡ true }
        ensures none { IsNone result → mate_of (address_at self.now.pool.pairs s.0) ≡ 0 }
        ensures some { IfSome result (λ e. 1 ≤ mate_of (address_at self.now.pool.pairs s.0)) }
        ensures own { IfSome result (λ e. e
            ≡ entry_at self.now (slot_of self.now.pool.pairs (mate_of (address_at self.now.pool.pairs s.0)))) }
    {
        match self.mate(s) {
            Some(t) => Some(self.entries[t.0 as usize]),
            None => None,
        }
    }

    /// Merges a diamond, as if all that is new in its role were fresh.
    ///
    /// Its children leave their places, and then it does. The diamonds above it are fresh where they can be merged
    /// now, and so are its triangles, leaves now, this one last.
    fn merge_at(&mut self, s: Slot)
        requires ready { is_ready_at self.old.pool.pairs s.0 ≡ true }
        requires count { self.old.pool.merges < MOST_CHANGES }
        ensures { IsMergeAt self.old self.new s.0 }
    {
        self.leave_all_children(s);
        self.leave_diamond(s);
        let gone = self.pool.merge(s);
        let _leaves = self.pool.leaf_count();
        self.push_above(gone.kept);
        if let Some(other) = gone.other {
            self.push_above(other);
            self.push_fresh(other);
        }
        self.push_fresh(gone.kept);
    }

    /// Takes the children of a diamond out of their places.
    fn leave_all_children(&mut self, s: Slot)
        requires ready { is_ready_at self.old.pool.pairs s.0 ≡ true }
        ensures { self.new ≡ left_all self.old (child_slots self.old.pool.pairs s.0
            ++ cond (nat_lt 0 (mate_of (address_at self.old.pool.pairs s.0)))
            (child_slots self.old.pool.pairs
            (slot_of self.old.pool.pairs (mate_of (address_at self.old.pool.pairs s.0)))) []) }
    {
        let mate = self.mate(s);
        self.leave_children(s);
        if let Some(mate) = mate {
            self.leave_children(mate);
        }
    }

    /// Takes the children of a triangle out of their places.
    fn leave_children(&mut self, s: Slot)
        requires ready { is_ready_at self.old.pool.pairs s.0 ≡ true }
        ensures { self.new ≡ left_all self.old (child_slots self.old.pool.pairs s.0) }
    {
        let _n = self.pool.n();
        if let Some((left, right)) = self.pool.children(s) {
            self.leave(left);
            self.leave(right);
        }
    }
}
