//! A window on a file: bytes that were read of it, and not yet compared.

ghost use Rattle.std.specs.Prelude.{◌≡◌, ℕ, ◌+◌, ◌<◌, ◌≤◌, ◌∷◌, [], List, Some, None, true, false, ◌↔◌, IfOk, OnErr};
ghost use Rattle.std.specs.Prelude.{MatchOption, is_none};
ghost use Rattle.roam_edge.specs.Fault.{HasCause, IsInTime};
ghost use Rattle.roam_edge.specs.Told.{StaysTold};
ghost use Rattle.mesh_compare.specs.Differs.{Gives, left_of};

use roam_edge::{Failed, NoMemory, Shelf};
use std::alloc::Global;
use std::marker::Model;

/// How many bytes are asked for at once.
const WINDOW_ROOM: usize = 65536;

/// Bytes that were read of a file, and not yet compared.
#[derive(Drop)]
pub(crate) struct Window {
    bytes: Vec<u8>,
    start: usize,
    end: usize,
}

impl Model for Window {
    ghost use Rattle.std.specs.Prelude.{ℕ, List, ◌<◌, ◌≤◌, drop, take, length};

    ghost Value = { List ℕ };

    ghost view = { λ w. drop w.start (take w.end w.bytes.items) };

    ghost invariant = { λ w. (w.start ≤ w.end) × (w.end ≤ length w.bytes.items) × (0 < length w.bytes.items) };
}

impl Window {
    /// A window that nothing was read into.
    pub(crate) fn new(alloc: Global) -> Result<Window, NoMemory>
        ensures { IfOk result (λ w. w ≡ []) }
    {
        Ok(Window {
            bytes: vec![in alloc; 0; WINDOW_ROOM]?,
            start: 0,
            end: 0,
        })
    }

    /// The next byte of the file, and none at its end. More is read only where all that was read is behind.
    pub(crate) fn next<F: Shelf>(&mut self, shelf: &mut F) -> Result<Option<u8>, Failed>
        requires { F.ended shelf.old ≡ false }
        ensures byte { IfOk result (λ byte. Gives byte (left_of self.old (F.rest shelf.old))
            (left_of self.new (F.rest shelf.new))) }
        ensures ended { IfOk result (λ byte. F.ended shelf.new ≡ is_none byte) }
        ensures used_up { OnErr result (self.old ≡ []) }
        ensures kept { OnErr result (F.rest shelf.new ≡ F.rest shelf.old) }
        ensures not_ended { OnErr result (F.ended shelf.new ≡ false) }
        ensures told { StaysTold (F.rest shelf.old) (F.rest shelf.new) }
        ensures files { F.files shelf.new ≡ F.files shelf.old }
        ensures opens { F.opens shelf.new ≡ F.opens shelf.old }
        ensures faults { HasCause (F.faults shelf.old) (F.faults shelf.new) result }
        ensures in_time { IsInTime (F.late shelf.old) (F.faults shelf.old) (F.late shelf.new) }
    {
        if let Some(byte) = self.pop() {
            return Ok(Some(byte));
        }
        self.fill(shelf)?;
        Ok(self.pop())
    }

    /// Takes the first byte of the window.
    fn pop(&mut self) -> Option<u8>
        ensures { MatchOption result ((self.old ≡ []) × (self.new ≡ [])) (λ byte. self.old ≡ byte ∷ self.new) }
    {
        if self.start == self.end {
            return None;
        }
        let byte = self.bytes[self.start];
        self.start += 1;
        Some(byte)
    }

    /// Reads the next bytes of the file into the window; none at its end.
    fn fill<F: Shelf>(&mut self, shelf: &mut F) -> Result<(), Failed>
        requires not_ended { F.ended shelf.old ≡ false }
        requires empty { self.old ≡ [] }
        ensures bytes { IfOk result (λ _. (unread : List ℕ) → F.rest shelf.old ≡ Some unread →
            left_of self.new (F.rest shelf.new) ≡ Some unread) }
        ensures none { IfOk result (λ _. self.new ≡ [] → (unread : List ℕ) → F.rest shelf.old ≡ Some unread →
            unread ≡ []) }
        ensures ended { IfOk result (λ _. self.new ≡ [] → F.ended shelf.new ≡ true) }
        ensures goes_on { IfOk result (λ _. (self.new ≡ [] → ⊥) → F.ended shelf.new ≡ false) }
        ensures kept { OnErr result (F.rest shelf.new ≡ F.rest shelf.old) }
        ensures not_ended { OnErr result (F.ended shelf.new ≡ false) }
        ensures told { StaysTold (F.rest shelf.old) (F.rest shelf.new) }
        ensures files { F.files shelf.new ≡ F.files shelf.old }
        ensures opens { F.opens shelf.new ≡ F.opens shelf.old }
        ensures faults { HasCause (F.faults shelf.old) (F.faults shelf.new) result }
        ensures in_time { IsInTime (F.late shelf.old) (F.faults shelf.old) (F.late shelf.new) }
    {
        let count = shelf.read(&mut self.bytes)?;
        self.start = 0;
        self.end = count;
        Ok(())
    }
}
