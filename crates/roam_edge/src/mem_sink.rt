//! A sink of bytes in memory.

ghost use Rattle.std.specs.Prelude.{◌≡◌, ◌^◌, ◌≤◌, ℕ, [], Some, false, IfOk, is_err};
ghost use Rattle.roam_edge.specs.Fault.{HasCause, late_after};
ghost use Rattle.roam_edge.specs.Sink.{Appends};
ghost use Rattle.roam_edge.specs.MemSink.{sink_write_fails, after_sink_write};

use crate::{Failed, NoMemory, Sink};
use std::alloc::Global;
use std::marker::Model;

/// A sink that keeps its bytes in memory.
///
/// Its room is taken once, by `new`. The writes that `new` names by their numbers, counted from 1,
/// and those beyond the room fail and add nothing; no other write fails.
#[derive(Drop)]
pub struct MemSink {
    kept: Vec<u8>,
    room: u64,
    fails: Vec<u64>,
    writes: u64,
    faults: u64,
    late: bool,
}

impl Model for MemSink {
    ghost use Rattle.std.specs.Prelude.{◌+◌, ◌≤◌, vec_len, vec_capacity};
    ghost use Rattle.roam_edge.specs.MemSink.{KeptBytes};

    ghost Value = { KeptBytes };

    ghost view = { λ s. record {
      contents = s.kept.items;
      room = s.room;
      fails = s.fails.items;
      writes = s.writes;
      faults = s.faults;
      late = s.late;
    } };

    ghost invariant = { λ s. s.room + vec_len s.kept ≤ vec_capacity s.kept };
}

impl MemSink {
    /// An empty sink with room for this many bytes, whose writes of these numbers fail.
    pub fn new(alloc: Global, fails: &[u64], bytes: u64) -> Result<MemSink, NoMemory>
        requires { bytes ≤ 2 ^ 32 }
        ensures { IfOk result (λ sink. sink
            ≡ record { contents = []; room = bytes; fails = fails.now; writes = 0; faults = 0; late = false }) }
    {
        Ok(MemSink {
            kept: Vec::with_capacity(alloc, bytes as usize)?,
            room: bytes,
            fails: Vec::from_slice(alloc, fails)?,
            writes: 0,
            faults: 0,
            late: false,
        })
    }

    /// The bytes so far.
    pub fn bytes(&self) -> &[u8]
        ensures { result.now ≡ self.now.contents }
    {
        self.kept.as_slice()
    }
}

impl Sink for MemSink {
    ghost contents = { λ s. Some s.contents };

    ghost faults = { λ s. s.faults };

    ghost late = { λ s. s.late };

    fn write(&mut self, piece: &[u8]) -> Result<(), Failed>
        ensures fails { is_err result ≡ sink_write_fails self.old piece.now }
        ensures after { self.new ≡ after_sink_write self.old piece.now }
        ensures bytes { Appends (Some self.old.contents) (Some self.new.contents) piece.now result }
        ensures faults { HasCause self.old.faults self.new.faults result }
        ensures late { self.new.late ≡ late_after self.old.late self.old.faults }
    {
        self.late = self.late || self.faults > 0;
        let number = self.writes.saturating_add(1);
        let size = piece.len() as u64;
        self.writes = number;
        if self.fails.contains(&number) || self.room < size {
            self.faults = self.faults.saturating_add(1);
            return Err(Failed);
        }
        match self.kept.extend_from_slice(piece) {
            Ok(()) => {
                self.room -= size;
                Ok(())
            }
            Err(_) => unreachable!(),
        }
    }
}
