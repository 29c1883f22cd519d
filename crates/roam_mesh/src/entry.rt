//! What is kept of a slot.

ghost use Rattle.std.specs.Prelude.{◌≡◌, ◌<◌, ◌||◌, nat_eq, cond, true, length, Some, slice_set};
ghost use Rattle.roam_mesh.specs.Parts.{best_of, merging_key, deadline_of, blank, IsNear};
ghost use Rattle.roam_mesh.specs.Change.{gone_entry, with_priority, read_entry, without_priority};

use bintree_addr::Slot;
use deferred_loop::Reading;
use lazy_priority::Lazy;

/// The stamp of an entry and what was told of it in this frame.
#[derive(Clone, Copy, Debug)]
pub struct Entry {
    /// The odometer at which the stamp was taken.
    pub odometer: u64,
    /// The way for which it holds from there.
    pub slack: u64,
    /// The greatest priority within that way.
    pub upper: u64,
    /// The least.
    pub lower: u64,
    /// The priority, where it is known.
    pub exact: u64,
    /// Whether there is a stamp.
    pub stamped: bool,
    /// Whether an edit has expired it.
    pub expired: bool,
    /// Whether the priority was told in this frame.
    pub known: bool,
    /// Whether the slot is listed as asked; outlives the freeing of the slot within a frame.
    pub listed: bool,
    /// Whether the slot is listed as fresh.
    pub fresh: bool,
}

impl Entry {
    /// No stamp, and nothing known.
    pub fn blank() -> Entry
        ensures { result ≡ blank }
    {
        Entry {
            odometer: 0,
            slack: 0,
            upper: 0,
            lower: 0,
            exact: 0,
            stamped: false,
            expired: false,
            known: false,
            listed: false,
            fresh: false,
        }
    }

    /// The best that the priority can be.
    pub fn best(&self) -> u64
        ensures { result ≡ best_of self.now }
    {
        if self.known {
            self.exact
        } else if self.stamped {
            self.upper
        } else {
            0
        }
    }

    /// The worst that it can be.
    pub fn worst(&self) -> u64
        ensures { result ≡ merging_key self.now }
    {
        if self.known {
            self.exact
        } else if self.stamped {
            self.lower
        } else {
            0
        }
    }

    /// Whether the two are equal, or the priority was told.
    pub fn is_sure(&self) -> bool
        ensures { result ≡ self.now.known || nat_eq (cond self.now.stamped self.now.upper 0)
            (cond self.now.stamped self.now.lower 0) }
    {
        self.known || !self.stamped || self.upper == self.lower
    }

    /// With the stamp of a reading, and fresh no longer.
    pub fn read(&mut self, reading: &Reading, odometer: u64)
        ensures { self.new ≡ read_entry self.old reading.now odometer }
    {
        self.stamped = true;
        self.expired = false;
        self.odometer = odometer;
        self.slack = reading.slack;
        self.upper = reading.hi.p;
        self.lower = reading.lo.p;
        self.fresh = false;
    }

    /// Makes the deadline of a slot that of this stamp: 0 where there is none, or where it has expired.
    pub fn renew(&self, s: Slot, deadlines: &mut Lazy)
        requires place { s.0 < length deadlines.old }
        requires near { IsNear self.now }
        ensures { deadlines.new ≡ slice_set deadlines.old s.0 (Some (deadline_of self.now)) }
    {
        if self.stamped && !self.expired {
            deadlines.stamp(s, self.odometer, self.slack);
        } else {
            deadlines.stamp(s, 0, 0);
            deadlines.expire(s);
        }
    }

    /// No entry any more.
    pub fn leave(&mut self)
        ensures { self.new ≡ gone_entry self.old }
    {
        self.stamped = false;
        self.known = false;
    }

    /// With the priority that was told.
    pub fn set_priority(&mut self, exact: u64)
        ensures { self.new ≡ with_priority self.old exact }
    {
        self.exact = exact;
        self.known = true;
        self.listed = true;
    }

    /// What was told is forgotten.
    pub fn forget(&mut self)
        ensures { self.new ≡ without_priority self.old }
    {
        self.known = false;
        self.listed = false;
    }
}
