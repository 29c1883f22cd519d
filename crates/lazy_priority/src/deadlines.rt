//! What is known of each slot's deadline.

ghost use Rattle.std.specs.Prelude.{◌≡◌, ◌<◌, IfOk, IfSome, IfNone, IsTrue, IsFalse, length, replicate};
ghost use Rattle.std.specs.Prelude.{slice_index_or, slice_set};
ghost use Rattle.lazy_priority.specs.declared.deadlines.Deadline.TheVariants.{Absent, Stands, Expired};
ghost use Rattle.lazy_priority.specs.Expired.{NoneExpired};

use bintree_addr::Slot;
use mesh_defs::NoMemory;
use std::alloc::Global;
use std::marker::Model;

/// What is known of a slot's deadline.
#[derive(Clone, Copy, Debug)]
pub enum Deadline {
    /// It has none.
    Absent,
    /// It has one, and the heap has its key.
    Stands,
    /// It has one that has expired.
    Expired,
}

/// What is known of each slot's deadline, and which have expired.
#[derive(Drop)]
pub struct Deadlines {
    of_slots: Vec<Deadline>,
    /// The numbers of the slots whose deadline has expired, and of some that had another one or none since.
    expired: Vec<u32>,
}

impl Model for Deadlines {
    ghost use Rattle.std.specs.Prelude.{List};
    ghost use Rattle.lazy_priority.specs.declared.deadlines.Deadline.{Deadline};
    ghost use Rattle.lazy_priority.specs.Expired.{AreListed};

    ghost Value = { List Deadline };

    ghost view = { λ d. d.of_slots.items };

    ghost invariant = { λ d. AreListed d.of_slots.items d.expired.items };
}

impl Deadlines {
    /// No deadline yet, for so many slots.
    pub fn new(alloc: Global, slots: u32) -> Result<Deadlines, NoMemory>
        ensures { IfOk result (λ deadlines. deadlines ≡ replicate slots Absent) }
    {
        Ok(Deadlines {
            of_slots: vec![in alloc; Deadline::Absent; slots as usize]?,
            expired: Vec::with_capacity(alloc, slots as usize)?,
        })
    }

    /// What is known of a slot's deadline: nothing of a slot that is not there.
    #[inline]
    pub fn get(&self, slot: Slot) -> Deadline
        ensures { result ≡ slice_index_or self.now slot.0 Absent }
    {
        match self.of_slots.as_slice().get(slot.0 as usize) {
            Some(deadline) => *deadline,
            None => Deadline::Absent,
        }
    }

    /// The slot has a deadline from now on.
    #[inline]
    pub fn keep(&mut self, slot: Slot)
        requires { slot.0 < length self.old }
        ensures { self.new ≡ slice_set self.old slot.0 Stands }
    {
        self.of_slots[slot.0 as usize] = Deadline::Stands;
    }

    /// The slot has none from now on.
    #[inline]
    pub fn clear(&mut self, slot: Slot)
        ensures { self.new ≡ slice_set self.old slot.0 Absent }
    {
        if (slot.0 as usize) < self.of_slots.len() {
            self.of_slots[slot.0 as usize] = Deadline::Absent;
        }
    }

    /// The slot's deadline has expired from now on. Answers whether there was room to note it; else nothing changes.
    /// There is room for each slot, so that none lacks where `take_expired` takes all before one expires again.
    #[inline]
    pub fn expire(&mut self, slot: Slot) -> bool
        requires { slot.0 < length self.old }
        ensures noted { IsTrue result → self.new ≡ slice_set self.old slot.0 Expired }
        ensures full { IsFalse result → self.new ≡ self.old }
    {
        if self.expired.len() >= self.expired.capacity() {
            return false;
        }
        self.expired.push_reserved(slot.0);
        self.of_slots[slot.0 as usize] = Deadline::Expired;
        true
    }

    /// Takes a slot whose deadline has expired: it has none from now on.
    pub fn take_expired(&mut self) -> Option<Slot>
        ensures unchanged { IfNone result (self.new ≡ self.old) }
        ensures none { IfNone result (NoneExpired self.old) }
        ensures expired { IfSome result (λ slot. slice_index_or self.old slot.0 Absent ≡ Expired) }
        ensures cleared { IfSome result (λ slot. self.new ≡ slice_set self.old slot.0 Absent) }
    {
        'passed: loop {
            let number = self.expired.pop()?;
            let place = number as usize;
            if place >= self.of_slots.len() {
                continue 'passed;
            }
            match self.of_slots[place] {
                Deadline::Expired => {
                    self.of_slots[place] = Deadline::Absent;
                    return Some(Slot(number));
                }
                Deadline::Absent | Deadline::Stands => {}
            }
        }
    }
}
