//! A shelf of borrowed files that never fails.

ghost use Rattle.std.specs.Prelude.{◌≡◌, ◌<◌, ◌≤◌, ℕ, [], ◌∷◌, ◌++◌, Some, Ok, true, false, IfOk, IsOk, is_err, length};
ghost use Rattle.std.specs.Prelude.{map, min};
ghost use Rattle.roam_edge.specs.Fault.{HasCause, next_count};
ghost use Rattle.roam_edge.specs.Shelf.{Opens, Reads, Ends, bytes_of};
ghost use Rattle.roam_edge.specs.CalmShelf.{calm_file};

use crate::{Failed, Shelf};
use std::marker::Model;

/// The greatest number of files of a calm shelf: no command of the program names more.
const MOST_FILES: usize = 4;

/// A borrowed file.
#[derive(Clone, Copy)]
struct CalmFile<'a> {
    name: &'a str,
    bytes: &'a [u8],
}

/// A shelf of at most four borrowed files that never fails and takes no memory.
///
/// A name that is not there stands for a file without bytes.
#[derive(Drop)]
pub struct CalmShelf<'a> {
    files: [CalmFile<'a>; MOST_FILES],
    count: usize,
    unread: &'a [u8],
    opens: u64,
    ended: bool,
}

impl<'a> Model for CalmShelf<'a> {
    ghost use Rattle.std.specs.Prelude.{◌≡◌, ◌≤◌, take, map, length};
    ghost use Rattle.roam_edge.specs.CalmShelf.{CalmFiles, calm_file};

    ghost Value = { CalmFiles };

    ghost view = { λ s. record {
      files = map calm_file (take s.count s.files);
      unread = s.unread.now;
      opens = s.opens;
      ended = s.ended;
    } };

    ghost invariant = { λ s. (s.count ≤ 4) × (length s.files ≡ 4) };
}

impl<'a> CalmShelf<'a> {
    /// A shelf without files.
    pub fn new() -> CalmShelf<'a>
        ensures { result ≡ record { files = []; unread = []; opens = 0; ended = true } }
    {
        let empty = CalmFile {
            name: "",
            bytes: &[],
        };
        CalmShelf {
            files: [empty; MOST_FILES],
            count: 0,
            unread: &[],
            opens: 0,
            ended: true,
        }
    }

    /// The shelf with this file behind its own.
    pub fn with_file(mut self, name: &'a str, bytes: &'a [u8]) -> CalmShelf<'a>
        requires { length self.files < 4 }
        ensures { result ≡ record self.entry {
          files = self.entry.files ++ record { name = name.now; bytes = bytes.now } ∷ [];
        } }
    {
        self.files[self.count] = CalmFile { name, bytes };
        self.count += 1;
        self
    }
}

impl<'a> Shelf for CalmShelf<'a> {
    ghost files = { λ s. Some s.files };

    ghost rest = { λ s. Some s.unread };

    ghost opens = { λ s. s.opens };

    ghost ended = { λ s. s.ended };

    ghost faults = { λ _. 0 };

    ghost late = { λ _. false };

    fn open_named(&mut self, name: &str) -> Result<(), Failed>
        ensures ok { IsOk result }
        ensures opened { Opens (Some self.old.files) (Some self.old.unread) (Some self.new.unread)
            name.now result }
        ensures ends { self.new.ended ≡ is_err result }
        ensures count { self.new.opens ≡ next_count self.old.opens }
        ensures others { Some self.new.files ≡ Some self.old.files }
        ensures faults { HasCause 0 0 result }
    {
        self.unread = first_named(&self.files[..self.count], name);
        self.opens = self.opens.saturating_add(1);
        self.ended = false;
        Ok(())
    }

    fn read(&mut self, buf: &mut [u8]) -> Result<usize, Failed>
        requires room { 0 < length buf.old }
        requires not_ended { self.old.ended ≡ false }
        ensures ok { result ≡ Ok (min (length buf.old) (length self.old.unread)) }
        ensures bound { IfOk result (λ k. k ≤ length buf.old) }
        ensures bytes { Reads (Some self.old.unread) (Some self.new.unread) buf.old buf.new result }
        ensures ends { Ends self.old.ended self.new.ended result }
        ensures count { self.new.opens ≡ self.old.opens }
        ensures others { Some self.new.files ≡ Some self.old.files }
        ensures faults { HasCause 0 0 result }
    {
        let count = buf.len().min(self.unread.len());
        buf[..count].copy_from_slice(&self.unread[..count]);
        self.unread = &self.unread[count..];
        self.ended = count == 0;
        Ok(count)
    }
}

/// The bytes of the first file of this name, and none where there is no such file.
fn first_named<'a>(files: &[CalmFile<'a>], name: &str) -> &'a [u8]
    ensures { result.now ≡ bytes_of (map calm_file files.now) name.now }
{
    for file in files {
        if file.name == name {
            return file.bytes;
        }
    }
    &[]
}
