//! Files for tests, of which one call fails and the next one would not.

use std::alloc::Allocator;
use std::cell::Cell;
use std::fs::{Files, Metadata, OpenFile, OpenOptions};
use std::io::{self, Read, Seek, SeekFrom, Write};
use std::rc::Rc;

/// Files that hold `abc` and take all bytes, but for the call of this number, counted from 1 over
/// opens, reads, writes and flushes, which fails and changes nothing.
#[derive(Drop)]
pub(crate) struct FlakyFiles {
    pub(crate) calls: Rc<Cell<u64>>,
    pub(crate) fails: u64,
}

/// An open file, and its unread bytes.
#[derive(Drop)]
pub(crate) struct FlakyFile {
    calls: Rc<Cell<u64>>,
    fails: u64,
    unread: &'static [u8],
}

/// Counts a call, and fails if it is the one that is to fail.
fn count(calls: &Cell<u64>, fails: u64) -> io::Result<()> {
    let number = calls.get().saturating_add(1);
    calls.set(number);
    if number == fails {
        return Err(io::Error::from(io::ErrorKind::Other));
    }
    Ok(())
}

/// The answer of what these files do not offer.
fn not_offered<T>() -> io::Result<T> {
    Err(io::Error::from(io::ErrorKind::Unsupported))
}

impl Read for FlakyFile {
    fn read(&mut self, buf: &mut [u8]) -> io::Result<usize> {
        count(&self.calls, self.fails)?;
        let size = buf.len().min(self.unread.len());
        buf[..size].copy_from_slice(&self.unread[..size]);
        self.unread = &self.unread[size..];
        Ok(size)
    }
}

impl Write for FlakyFile {
    fn write(&mut self, buf: &[u8]) -> io::Result<usize> {
        count(&self.calls, self.fails)?;
        Ok(buf.len())
    }

    fn flush(&mut self) -> io::Result<()> {
        count(&self.calls, self.fails)
    }
}

impl Seek for FlakyFile {
    fn seek(&mut self, _to: SeekFrom) -> io::Result<u64> {
        not_offered()
    }
}

impl OpenFile for FlakyFile {
    fn metadata(&self) -> io::Result<Metadata> {
        not_offered()
    }

    fn set_len(&self, _size: u64) -> io::Result<()> {
        not_offered()
    }

    fn sync_all(&self) -> io::Result<()> {
        not_offered()
    }

    fn sync_data(&self) -> io::Result<()> {
        not_offered()
    }
}

impl Files for FlakyFiles {
    type File = FlakyFile;

    type Dir = FlakyFile;

    fn open_file(&self, _how: &OpenOptions, _path: &str) -> io::Result<FlakyFile> {
        count(&self.calls, self.fails)?;
        Ok(FlakyFile {
            calls: self.calls.clone()?,
            fails: self.fails,
            unread: b"abc",
        })
    }

    fn open_dir(&self, _path: &str) -> io::Result<FlakyFile> {
        not_offered()
    }

    fn metadata(&self, _path: &str) -> io::Result<Metadata> {
        not_offered()
    }

    fn symlink_metadata(&self, _path: &str) -> io::Result<Metadata> {
        not_offered()
    }

    fn copy(&self, _from: &str, _to: &str) -> io::Result<u64> {
        not_offered()
    }

    fn rename(&self, _from: &str, _to: &str) -> io::Result<()> {
        not_offered()
    }

    fn remove_file(&self, _path: &str) -> io::Result<()> {
        not_offered()
    }

    fn create_dir(&self, _path: &str) -> io::Result<()> {
        not_offered()
    }

    fn remove_dir(&self, _path: &str) -> io::Result<()> {
        not_offered()
    }

    fn remove_dir_all<B: Allocator>(&self, _alloc: B, _path: &str) -> io::Result<()> {
        not_offered()
    }
}
