//! Bytes in memory, as many as there is room for.

ghost use Rattle.std.specs.Prelude.{◌≡◌, [], Some};
ghost use Rattle.roam_edge.specs.Fault.{HasCause, late_after};
ghost use Rattle.roam_edge.specs.Sink.{Appends};

use roam_edge::{Failed, Sink};
use std::alloc::Global;

/// A sink that keeps its bytes, and fails where memory runs out.
#[derive(Drop)]
pub(crate) struct Bytes {
    pub(crate) kept: Vec<u8>,
    faults: u64,
    late: bool,
}

impl Bytes {
    /// None so far.
    pub(crate) fn new(alloc: Global) -> Bytes
        ensures { result.kept.items ≡ [] }
    {
        Bytes {
            kept: Vec::new(alloc),
            faults: 0,
            late: false,
        }
    }
}

impl Sink for Bytes {
    ghost contents = { λ s. Some s.kept.items };

    ghost faults = { λ s. s.faults };

    ghost late = { λ s. s.late };

    fn write(&mut self, piece: &[u8]) -> Result<(), Failed>
        ensures bytes { Appends (Some self.old.kept.items) (Some self.new.kept.items) piece.now result }
        ensures faults { HasCause self.old.faults self.new.faults result }
        ensures late { self.new.late ≡ late_after self.old.late self.old.faults }
    {
        self.late = self.late || self.faults > 0;
        match self.kept.extend_from_slice(piece) {
            Ok(()) => Ok(()),
            Err(_) => {
                self.faults = self.faults.saturating_add(1);
                Err(Failed)
            }
        }
    }
}
