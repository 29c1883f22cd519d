//! A shelf of files in memory.

ghost use Rattle.std.specs.Prelude.{◌≡◌, ◌<◌, ◌≤◌, ℕ, [], ◌∷◌, ◌++◌, Some, true, false, IfOk, OnOk, OnErr, is_err};
ghost use Rattle.std.specs.Prelude.{length, min};
ghost use Rattle.roam_edge.specs.Fault.{HasCause, late_after, next_count};
ghost use Rattle.roam_edge.specs.Shelf.{Opens, Reads, Ends};
ghost use Rattle.edge_doubles.specs.MemShelf.{open_fails, after_open, read_fails, after_read};

use crate::ShelfCall;
use crate::shelf_call::is_named;
use crate::stored_file::{StoredFile, place_of};
use roam_edge::{Failed, NoMemory, Shelf};
use std::alloc::Global;
use std::marker::Model;

/// A shelf that owns its files.
///
/// The calls that `new` names and an `open_named` of a name that is not there fail; no other call
/// fails, and a read that fails takes nothing.
#[derive(Drop)]
pub struct MemShelf {
    alloc: Global,
    files: Vec<StoredFile>,
    chosen: Option<usize>,
    taken: usize,
    ended: bool,
    fails: Vec<ShelfCall>,
    opens: u64,
    reads: u64,
    faults: u64,
    late: bool,
}

impl Model for MemShelf {
    ghost use Rattle.std.specs.Prelude.{map};
    ghost use Rattle.edge_doubles.specs.MemShelf.{KeptFiles};
    ghost use Rattle.edge_doubles.specs.StoredFile.{file_of, unread_at, IsFilePlace};

    ghost Value = { KeptFiles };

    ghost view = { λ s. record {
      files = map file_of s.files.items;
      unread = unread_at s.files.items s.chosen s.taken;
      ended = s.ended;
      fails = s.fails.items;
      opens = s.opens;
      reads = s.reads;
      faults = s.faults;
      late = s.late;
    } };

    ghost invariant = { λ s. IsFilePlace s.files.items s.chosen s.taken };
}

impl MemShelf {
    /// A shelf without files, whose named calls fail.
    pub fn new(alloc: Global, fails: &[ShelfCall]) -> Result<MemShelf, NoMemory>
        ensures { IfOk result (λ shelf. shelf ≡ record {
          files = [];
          unread = [];
          ended = true;
          fails = fails.now;
          opens = 0;
          reads = 0;
          faults = 0;
          late = false;
        }) }
    {
        Ok(MemShelf {
            alloc,
            files: Vec::new(alloc),
            chosen: None,
            taken: 0,
            ended: true,
            fails: Vec::from_slice(alloc, fails)?,
            opens: 0,
            reads: 0,
            faults: 0,
            late: false,
        })
    }

    /// Appends a file to the list.
    pub fn add(&mut self, name: &str, bytes: &[u8]) -> Result<(), NoMemory>
        ensures ok { OnOk result (self.new ≡ record self.old {
          files = self.old.files ++ record { name = name.now; bytes = bytes.now } ∷ [];
        }) }
        ensures err { OnErr result (self.new ≡ self.old) }
    {
        let file = StoredFile {
            name: String::from_str(self.alloc, name)?,
            bytes: Vec::from_slice(self.alloc, bytes)?,
        };
        self.files.push(file)?;
        Ok(())
    }
}

impl Shelf for MemShelf {
    ghost files = { λ s. Some s.files };

    ghost rest = { λ s. Some s.unread };

    ghost opens = { λ s. s.opens };

    ghost ended = { λ s. s.ended };

    ghost faults = { λ s. s.faults };

    ghost late = { λ s. s.late };

    fn open_named(&mut self, name: &str) -> Result<(), Failed>
        ensures fails { is_err result ≡ open_fails self.old name.now }
        ensures after { self.new ≡ after_open self.old name.now }
        ensures opened { Opens (Some self.old.files) (Some self.old.unread) (Some self.new.unread)
            name.now result }
        ensures ends { self.new.ended ≡ is_err result }
        ensures count { self.new.opens ≡ next_count self.old.opens }
        ensures others { Some self.new.files ≡ Some self.old.files }
        ensures faults { HasCause self.old.faults self.new.faults result }
        ensures late { self.new.late ≡ late_after self.old.late self.old.faults }
    {
        self.late = self.late || self.faults > 0;
        self.opens = self.opens.saturating_add(1);
        self.chosen = None;
        self.taken = 0;
        self.ended = true;
        let is_named = is_named(self.fails.as_slice(), ShelfCall::Open(self.opens));
        match place_of(self.files.as_slice(), name) {
            Some(place) if !is_named => {
                self.chosen = Some(place);
                self.ended = false;
                Ok(())
            }
            _ => {
                self.faults = self.faults.saturating_add(1);
                Err(Failed)
            }
        }
    }

    fn read(&mut self, buf: &mut [u8]) -> Result<usize, Failed>
        requires room { 0 < length buf.old }
        requires not_ended { self.old.ended ≡ false }
        ensures fails { is_err result ≡ read_fails self.old }
        ensures ok { IfOk result (λ k. k ≡ min (length buf.old) (length self.old.unread)) }
        ensures after { self.new ≡ after_read self.old (length buf.old) }
        ensures bound { IfOk result (λ k. k ≤ length buf.old) }
        ensures bytes { Reads (Some self.old.unread) (Some self.new.unread) buf.old buf.new result }
        ensures ends { Ends self.old.ended self.new.ended result }
        ensures count { self.new.opens ≡ self.old.opens }
        ensures others { Some self.new.files ≡ Some self.old.files }
        ensures faults { HasCause self.old.faults self.new.faults result }
        ensures late { self.new.late ≡ late_after self.old.late self.old.faults }
    {
        self.late = self.late || self.faults > 0;
        self.reads = self.reads.saturating_add(1);
        if is_named(self.fails.as_slice(), ShelfCall::Read(self.reads)) {
            self.faults = self.faults.saturating_add(1);
            return Err(Failed);
        }
        let unread = self.unread();
        let count = buf.len().min(unread.len());
        buf[..count].copy_from_slice(&unread[..count]);
        self.taken += count;
        self.ended = count == 0;
        Ok(count)
    }
}

impl MemShelf {
    /// The unread bytes of the file chosen last.
    fn unread(&self) -> &[u8]
        ensures { result.now ≡ self.now.unread }
    {
        match self.chosen {
            Some(place) => &self.files[place].bytes[self.taken..],
            None => &[],
        }
    }
}
