//! A shelf over real files.

ghost use Rattle.std.specs.Prelude.{◌≡◌, ◌<◌, ◌≤◌, ℕ, None, true, false, IfOk, is_err, is_none, length};
ghost use Rattle.roam_edge.specs.Fault.{HasCause, late_after, next_count};
ghost use Rattle.roam_edge.specs.Shelf.{Opens, Reads, Ends};
ghost use Rattle.roam_edge.specs.RealFile.{TakesNext, of_open};

use crate::{Failed, Shelf};
use std::fs;
use std::io::Read;
use std::rt::Files;

/// A shelf whose names are paths of files; it tells no content.
///
/// A name that cannot be opened is a fault. A folder in a file's place is one at the first read.
#[derive(Drop)]
pub struct FileShelf<'r, R: Files> {
    rt: &'r R,
    file: Option<R::File>,
    opens: u64,
    faults: u64,
    late: bool,
}

impl<'r, R: Files> FileShelf<'r, R> {
    /// A shelf over the files of this runtime, of which none is chosen.
    pub fn new(rt: &'r R) -> FileShelf<'r, R>
        ensures opens { ⟦<FileShelf<'r, R> as Shelf>⟧.opens result ≡ 0 }
        ensures ended { ⟦<FileShelf<'r, R> as Shelf>⟧.ended result ≡ true }
        ensures faults { ⟦<FileShelf<'r, R> as Shelf>⟧.faults result ≡ 0 }
        ensures late { ⟦<FileShelf<'r, R> as Shelf>⟧.late result ≡ false }
    {
        FileShelf {
            rt,
            file: None,
            opens: 0,
            faults: 0,
            late: false,
        }
    }
}

impl<'r, R: Files> Shelf for FileShelf<'r, R> {
    ghost use Rattle.std.specs.Prelude.{None, is_none};

    ghost files = { λ _. None };

    ghost rest = { λ _. None };

    ghost opens = { λ s. s.opens };

    ghost ended = { λ s. is_none s.file };

    ghost faults = { λ s. s.faults };

    ghost late = { λ s. s.late };

    fn open_named(&mut self, name: &str) -> Result<(), Failed> {
        self.late = self.late || self.faults > 0;
        self.opens = self.opens.saturating_add(1);
        self.file = None;
        let file = open_once(self.rt, name, &mut self.faults)?;
        self.file = Some(file);
        Ok(())
    }

    fn read(&mut self, buf: &mut [u8]) -> Result<usize, Failed>
        requires room { 0 < length buf.old }
        requires not_ended { is_none self.old.file ≡ false }
        ensures file { TakesNext (of_open R.File.remaining self.old.file)
            (of_open R.File.remaining self.new.file) buf.new result }
        ensures bound { IfOk result (λ k. k ≤ length buf.old) }
        ensures bytes { Reads None None buf.old buf.new result }
        ensures ends { Ends (is_none self.old.file) (is_none self.new.file) result }
        ensures count { self.new.opens ≡ self.old.opens }
        ensures faults { HasCause self.old.faults self.new.faults result }
        ensures late { self.new.late ≡ late_after self.old.late self.old.faults }
    {
        self.late = self.late || self.faults > 0;
        let Some(file) = &mut self.file else {
            unreachable!()
        };
        match read_once(file, &mut self.faults, buf) {
            Ok(0) => {
                self.file = None;
                Ok(0)
            }
            Ok(count) => Ok(count),
            Err(failed) => Err(failed),
        }
    }
}

/// Opens the file of this name, once; an error counts as a fault, and is not tried again.
pub(crate) fn open_once<R: Files>(rt: &R, name: &str, faults: &mut u64) -> Result<R::File, Failed>
    ensures faults { HasCause faults.old faults.new result }
{
    match fs::open(rt, name) {
        Ok(file) => Ok(file),
        Err(_) => {
            *faults = faults.saturating_add(1);
            Err(Failed)
        }
    }
}

/// Reads once; an error counts as a fault, and is not tried again.
pub(crate) fn read_once<F: Read>(
    file: &mut F,
    faults: &mut u64,
    buf: &mut [u8],
) -> Result<usize, Failed>
    requires room { 0 < length buf.old }
    ensures bound { IfOk result (λ k. k ≤ length buf.old) }
    ensures bytes { TakesNext (F.remaining file.old) (F.remaining file.new) buf.new result }
    ensures faults { HasCause faults.old faults.new result }
{
    match file.read(buf) {
        Ok(count) => Ok(count),
        Err(_) => {
            *faults = faults.saturating_add(1);
            Err(Failed)
        }
    }
}
