//! Where the entries stand: putting them in their places, and taking them out.

ghost use Rattle.std.specs.Prelude.{◌≡◌, ◌*◌, ◌/◌, ◌<◌, ◌≤◌, length, true, false, None, IsNone, IsSome, IfSome};
ghost use Rattle.std.specs.Prelude.{slice_index_or};
ghost use Rattle.mesh_laws.specs.Edge.{mate_of};
ghost use Rattle.mesh_laws.specs.Slots.{address_at, IsLive};
ghost use Rattle.roam_mesh.specs.Mesh.{slot_of};
ghost use Rattle.roam_mesh.specs.Places.{is_ready_above};
ghost use Rattle.roam_mesh.specs.Parts.{is_leaf_at, is_ready_at, is_entry_at, IsWhole};
ghost use Rattle.roam_mesh.specs.Change.{chief_slot, diamond_slots, with_above, taken_out, left, left_all, rekeyed};
ghost use Rattle.roam_mesh.specs.Change.{put_in, is_mate_fresh, expired_at};

use crate::parts::Parts;
use bintree_addr::Slot;
use merge_queue::chief;

impl Parts {
    /// The slot under which the diamond of a triangle stands in the merge queue.
    fn head(&self, s: Slot) -> Slot
        requires ready { is_ready_at self.now.pool.pairs s.0 ≡ true }
        ensures slot { result.0 ≡ chief_slot self.now.pool.pairs s.0 }
        ensures within { result.0 < 2 * length self.now.pool.pairs }
    {
        let _n = self.pool.n();
        chief(&self.pool, s)
    }

    /// The slot of the other triangle of a diamond, if there is one.
    pub fn mate(&self, s: Slot) -> Option<Slot>
        requires ready { is_ready_at self.now.pool.pairs s.0 ≡ true }
        ensures none { IsNone result → mate_of (address_at self.now.pool.pairs s.0) ≡ 0 }
        ensures some { IfSome result (λ t. 1 ≤ mate_of (address_at self.now.pool.pairs s.0)) }
        ensures slot { IfSome result (λ t. t.0
            ≡ slot_of self.now.pool.pairs (mate_of (address_at self.now.pool.pairs s.0))) }
        ensures address { IfSome result (λ t. address_at self.now.pool.pairs t.0
            ≡ mate_of (address_at self.now.pool.pairs s.0)) }
        ensures ready { IfSome result (λ t. is_ready_at self.now.pool.pairs t.0 ≡ true) }
    {
        let _n = self.pool.n();
        self.pool.partner(s)
    }

    /// The slot of the parent of a triangle, if its diamond can be merged.
    pub fn above(&self, s: Slot) -> Option<Slot>
        requires live { IsLive self.now.pool.pairs s.0 }
        ensures none { IsNone result → is_ready_above self.now.pool.pairs s.0 ≡ false }
        ensures some { IfSome result (λ t. is_ready_above self.now.pool.pairs s.0 ≡ true) }
        ensures slot { IfSome result (λ t. t.0 ≡ slot_of self.now.pool.pairs (address_at self.now.pool.pairs s.0 / 2)) }
        ensures ready { IfSome result (λ t. is_ready_at self.now.pool.pairs t.0 ≡ true) }
    {
        let _n = self.pool.n();
        let above = self.pool.parent(s)?;
        if self.pool.merge_ready(above) {
            Some(above)
        } else {
            None
        }
    }

    /// Gives a slot's leaf or diamond the key of what is kept.
    pub fn rekey(&mut self, s: Slot)
        requires entry { is_entry_at self.old.pool.pairs s.0 ≡ true }
        requires leaf { is_leaf_at self.old.pool.pairs s.0 ≡ true → IsSome (slice_index_or self.old.split s.0 None) }
        requires diamond { is_leaf_at self.old.pool.pairs s.0 ≡ false →
            IsSome (slice_index_or self.old.merge (chief_slot self.old.pool.pairs s.0) None) }
        ensures { self.new ≡ rekeyed self.old s.0 }
    {
        if self.pool.is_leaf(s) {
            let rank = self.leaf_rank(s);
            self.split_queue.rekey(s, rank);
        } else {
            let rank = self.diamond_rank(s);
            let head = self.head(s);
            self.merge_queue.rekey(head, rank);
        }
    }

    /// Puts a slot in its place that is fresh no longer: its leaf, or its diamond once nothing of it is fresh.
    pub fn put_in(&mut self, s: Slot)
        requires entry { is_entry_at self.old.pool.pairs s.0 ≡ true }
        requires leaf { is_leaf_at self.old.pool.pairs s.0 ≡ true → slice_index_or self.old.split s.0 None ≡ None }
        requires diamond { is_leaf_at self.old.pool.pairs s.0 ≡ false →
            slice_index_or self.old.merge (chief_slot self.old.pool.pairs s.0) None ≡ None }
        ensures { self.new ≡ put_in self.old s.0 }
    {
        if self.pool.is_leaf(s) {
            let rank = self.leaf_rank(s);
            self.split_queue.put(s, rank);
        } else if !self.is_mate_fresh(s) {
            let rank = self.diamond_rank(s);
            let head = self.head(s);
            self.merge_queue.put(head, rank);
        }
    }

    /// Whether the other triangle of a diamond is fresh.
    fn is_mate_fresh(&self, s: Slot) -> bool
        requires ready { is_ready_at self.now.pool.pairs s.0 ≡ true }
        ensures { result ≡ is_mate_fresh self.now s.0 }
    {
        match self.mate(s) {
            Some(mate) => self.entries[mate.0 as usize].fresh,
            None => false,
        }
    }

    /// Takes an entry out of its place: its leaf or its diamond, and its deadline.
    pub fn take_out(&mut self, s: Slot)
        requires entry { is_entry_at self.old.pool.pairs s.0 ≡ true }
        ensures { self.new ≡ taken_out self.old s.0 }
    {
        if self.pool.is_leaf(s) {
            if self.split_queue.rank(s).is_some() {
                let _rank = self.split_queue.take(s);
            }
        } else {
            let head = self.head(s);
            if self.merge_queue.rank(head).is_some() {
                let _rank = self.merge_queue.take(head);
            }
        }
        self.deadlines.forget(s);
    }

    /// Takes an entry out of its place that is one no longer.
    pub fn leave(&mut self, s: Slot)
        requires entry { is_entry_at self.old.pool.pairs s.0 ≡ true }
        ensures { self.new ≡ left self.old s.0 }
    {
        self.take_out(s);
        self.entries[s.0 as usize].leave();
    }

    /// Takes a diamond out of its place that can be merged no longer.
    pub fn leave_diamond(&mut self, s: Slot)
        requires ready { is_ready_at self.old.pool.pairs s.0 ≡ true }
        ensures { self.new ≡ left_all self.old (diamond_slots self.old.pool.pairs s.0) }
    {
        if let Some(mate) = self.mate(s) {
            self.leave(mate);
        }
        self.leave(s);
    }

    /// Takes a leaf out of its place that will be split, and the diamond above it.
    pub fn leave_with_above(&mut self, s: Slot)
        requires leaf { is_leaf_at self.old.pool.pairs s.0 ≡ true }
        ensures { self.new ≡ left_all self.old (with_above self.old.pool.pairs s.0) }
    {
        self.leave(s);
        if let Some(above) = self.above(s) {
            self.leave_diamond(above);
        }
    }

    /// Marks what is kept of a slot as expired, and makes its deadline, where it has one, 0: it is due at every
    /// odometer.
    pub fn expire(&mut self, s: Slot)
        requires live { IsLive self.old.pool.pairs s.0 }
        ensures whole { IsWhole self.old }
        ensures expired { self.new ≡ expired_at self.old s.0 }
    {
        self.entries[s.0 as usize].expired = true;
        self.deadlines.expire(s);
    }
}
