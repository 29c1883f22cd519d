//! The lists of a frame: which slots are fresh, and which were asked.

ghost use Rattle.std.specs.Prelude.{◌≡◌, ℕ, ◌<◌, ◌≤◌, ◌+◌, ◌*◌, ◌^◌, ◌++◌, ◌∷◌, List, [], true, false, None, Some};
ghost use Rattle.std.specs.Prelude.{IfNone, IfSome, IsNone, IsSome, length, slice_index_or};
ghost use Rattle.mesh_defs.specs.declared.counters.TheConstants.{LONGEST_WAY};
ghost use Rattle.lazy_priority.specs.Due.{IsDue, NoneIsDue};
ghost use Rattle.roam_mesh.specs.Parts.{is_leaf_at, is_entry_at, is_ready_at, entry_at, IsWhole, IsPlaced, IsParts};
ghost use Rattle.roam_mesh.specs.Change.{chief_slot, diamond_slots, above_slots, pushed, pushed_all, rated, entered};
ghost use Rattle.roam_mesh.specs.Change.{seated, forgotten, begun_at};
ghost use Rattle.roam_mesh.specs.Keeping.{CanTakeBack};

use crate::entry::Entry;
use crate::parts::Parts;
use bintree_addr::Slot;
use deferred_loop::Reading;

impl Parts {
    /// Lists a slot as fresh, where it is not listed.
    pub fn push_fresh(&mut self, s: Slot)
        requires slot { s.0 < 2 * length self.old.pool.pairs }
        ensures { self.new ≡ pushed self.old s.0 }
    {
        if self.entries[s.0 as usize].fresh {
            return;
        }
        self.entries[s.0 as usize].fresh = true;
        self.fresh[self.fresh_count as usize] = s;
        self.fresh_count += 1;
    }

    /// Lists a diamond as fresh, this triangle last.
    pub fn push_diamond(&mut self, s: Slot)
        requires ready { is_ready_at self.old.pool.pairs s.0 ≡ true }
        ensures { self.new ≡ pushed_all self.old (diamond_slots self.old.pool.pairs s.0) }
    {
        if let Some(mate) = self.mate(s) {
            self.push_fresh(mate);
        }
        self.push_fresh(s);
    }

    /// Lists the diamond above a leaf as fresh, where it can be merged.
    pub fn push_above(&mut self, s: Slot)
        requires leaf { is_leaf_at self.old.pool.pairs s.0 ≡ true }
        ensures { self.new ≡ pushed_all self.old (above_slots self.old.pool.pairs s.0) }
    {
        if let Some(above) = self.above(s) {
            self.push_diamond(above);
        }
    }

    /// Takes the priority of an entry as its key, and lists it as asked.
    pub fn set_priority(&mut self, s: Slot, p: u64)
        requires entry { is_entry_at self.old.pool.pairs s.0 ≡ true }
        requires leaf { is_leaf_at self.old.pool.pairs s.0 ≡ true → IsSome (slice_index_or self.old.split s.0 None) }
        requires diamond { is_leaf_at self.old.pool.pairs s.0 ≡ false →
            IsSome (slice_index_or self.old.merge (chief_slot self.old.pool.pairs s.0) None) }
        ensures whole { IsWhole self.old }
        ensures told { self.new ≡ rated self.old s.0 p }
    {
        if !self.entries[s.0 as usize].listed {
            self.asked[self.asked_count as usize] = s;
            self.asked_count += 1;
        }
        self.entries[s.0 as usize].set_priority(p);
        self.rekey(s);
    }

    /// Forgets the priority that was told last; false where none is left.
    pub fn forget_last(&mut self) -> bool
        requires placed { IsPlaced self.old (λ s. false) }
        ensures whole { IsWhole self.old }
        ensures none { result ≡ false → (self.old.asked ≡ []) × (self.new ≡ self.old) }
        ensures some { result ≡ true → (rest : List ℕ) × (s : ℕ) × (self.old.asked ≡ rest ++ (s ∷ []))
            × (self.new ≡ forgotten self.old rest s) }
    {
        if self.asked_count == 0 {
            return false;
        }
        let _n = self.pool.n();
        self.asked_count -= 1;
        let s = self.asked[self.asked_count as usize];
        let was_known = self.entries[s.0 as usize].known;
        self.entries[s.0 as usize].forget();
        if was_known {
            self.rekey(s);
        }
        true
    }

    /// Gives the next fresh slot the stamp of a reading, and puts it in its place.
    pub fn enter_next(&mut self, reading: &Reading, odometer: u64)
        requires some { 1 ≤ length self.old.fresh }
        requires entry { (s : ℕ) (rest : List ℕ) → self.old.fresh ≡ rest ++ (s ∷ []) →
            is_entry_at self.old.pool.pairs s ≡ true }
        requires leaf { (s : ℕ) (rest : List ℕ) → self.old.fresh ≡ rest ++ (s ∷ []) →
            is_leaf_at self.old.pool.pairs s ≡ true → slice_index_or self.old.split s None ≡ None }
        requires diamond { (s : ℕ) (rest : List ℕ) → self.old.fresh ≡ rest ++ (s ∷ []) →
            is_leaf_at self.old.pool.pairs s ≡ false →
            slice_index_or self.old.merge (chief_slot self.old.pool.pairs s) None ≡ None }
        requires far { odometer ≤ LONGEST_WAY }
        requires small { reading.now.slack ≤ 2 ^ 32 }
        ensures whole { IsWhole self.old }
        ensures entered { (rest : List ℕ) × (s : ℕ) × (self.old.fresh ≡ rest ++ (s ∷ []))
            × (self.new ≡ entered self.old rest s reading.now odometer) }
    {
        self.fresh_count -= 1;
        let s = self.fresh[self.fresh_count as usize];
        self.entries[s.0 as usize].read(reading, odometer);
        self.deadlines.stamp(s, odometer, reading.slack);
        self.put_in(s);
    }

    /// Gives the next fresh slot back what was kept of it, and puts it in its place.
    pub fn take_back(&mut self, was: &Entry)
        requires last { (rest : List ℕ) × (s : ℕ) × CanTakeBack self.old rest s was.now }
        ensures parts { IsParts self.new }
        ensures pool { self.new.pool ≡ self.old.pool }
        ensures seated { (rest : List ℕ) (s : ℕ) → self.old.fresh ≡ rest ++ (s ∷ []) →
            self.new ≡ seated self.old rest s was.now }
    {
        self.fresh_count -= 1;
        let s = self.fresh[self.fresh_count as usize];
        self.entries[s.0 as usize] = *was;
        was.renew(s, &mut self.deadlines);
        self.put_in(s);
    }

    /// Lists a slot as fresh that is due, and takes it out of its place; false where none is due.
    pub fn list_due(&mut self, odometer: u64) -> bool
        requires entry { (s : ℕ) → IsSome (slice_index_or self.old.due s None) →
            is_entry_at self.old.pool.pairs s ≡ true }
        ensures whole { IsWhole self.old }
        ensures none { result ≡ false → NoneIsDue self.old.due odometer × (self.new ≡ self.old) }
        ensures some { result ≡ true → (s : Slot) × IsDue self.old.due odometer s × (self.new ≡ begun_at self.old s.0) }
    {
        let Some(s) = self.deadlines.due(odometer) else {
            return false;
        };
        self.take_out(s);
        self.push_fresh(s);
        true
    }
}
