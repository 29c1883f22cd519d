//! The files of a runtime, with a note of what failed.

ghost use Rattle.std.specs.Prelude.{◌≡◌};

use crate::note::{Note, Step};
use std::alloc::Allocator;
use std::fs::{Files, Metadata, OpenFile, OpenOptions, Permissions};
use std::io::{self, PipeReader, PipeWriter, Read, Seek, SeekFrom, Write};
use std::os::fd::BorrowedFd;
use std::os::unix::net::SocketAddr;
use std::path::PathBuf;

/// The files of a runtime, each call handed on, with a note of the last one that failed.
#[derive(Drop)]
pub struct NotedFiles<'r, R: Files> {
    files: &'r R,
    note: &'r Note,
}

impl<'r, R: Files> NotedFiles<'r, R> {
    /// The files of this runtime, with this note.
    pub fn new(files: &'r R, note: &'r Note) -> NotedFiles<'r, R> {
        NotedFiles { files, note }
    }
}

/// A reader or a writer, each call handed on, with a note of the last one that failed.
#[derive(Drop)]
pub struct Noted<'r, F> {
    inner: F,
    note: &'r Note,
}

impl<'r, F> Noted<'r, F> {
    /// This reader or writer, with this note.
    pub fn new(inner: F, note: &'r Note) -> Noted<'r, F> {
        Noted { inner, note }
    }
}

impl<'r, F: Read> Read for Noted<'r, F> {
    ghost remaining = { λ s. F.remaining s.inner };

    fn read(&mut self, buf: &mut [u8]) -> io::Result<usize> {
        self.note.keep(Step::Read, self.inner.read(buf))
    }
}

impl<'r, F: Write> Write for Noted<'r, F> {
    ghost contents = { λ s. F.contents s.inner };

    fn write(&mut self, buf: &[u8]) -> io::Result<usize> {
        self.note.keep(Step::Write, self.inner.write(buf))
    }

    fn flush(&mut self) -> io::Result<()> {
        self.note.keep(Step::Write, self.inner.flush())
    }
}

impl<'r, F: Seek> Seek for Noted<'r, F> {
    fn seek(&mut self, to: SeekFrom) -> io::Result<u64> {
        self.inner.seek(to)
    }
}

impl<'r, F: OpenFile> OpenFile for Noted<'r, F> {
    fn metadata(&self) -> io::Result<Metadata> {
        self.inner.metadata()
    }

    fn set_len(&self, size: u64) -> io::Result<()> {
        self.inner.set_len(size)
    }

    fn sync_all(&self) -> io::Result<()> {
        self.inner.sync_all()
    }

    fn sync_data(&self) -> io::Result<()> {
        self.inner.sync_data()
    }
}

impl<'r, R: Files> Files for NotedFiles<'r, R> {
    type File = Noted<'r, R::File>;

    type Dir = R::Dir;

    fn open_file(&self, how: &OpenOptions, path: &str) -> io::Result<Noted<'r, R::File>> {
        self.note.count();
        match self.note.keep(Step::Open, self.files.open_file(how, path)) {
            Ok(inner) => Ok(Noted {
                inner,
                note: self.note,
            }),
            Err(error) => Err(error),
        }
    }

    fn open_dir(&self, path: &str) -> io::Result<R::Dir> {
        self.files.open_dir(path)
    }

    fn metadata(&self, path: &str) -> io::Result<Metadata> {
        self.files.metadata(path)
    }

    fn symlink_metadata(&self, path: &str) -> io::Result<Metadata> {
        self.files.symlink_metadata(path)
    }

    fn copy(&self, from: &str, to: &str) -> io::Result<u64> {
        self.files.copy(from, to)
    }

    fn rename(&self, from: &str, to: &str) -> io::Result<()> {
        self.files.rename(from, to)
    }

    fn remove_file(&self, path: &str) -> io::Result<()> {
        self.files.remove_file(path)
    }

    fn create_dir(&self, path: &str) -> io::Result<()> {
        self.files.create_dir(path)
    }

    fn remove_dir(&self, path: &str) -> io::Result<()> {
        self.files.remove_dir(path)
    }

    fn remove_dir_all<B: Allocator>(&self, alloc: B, path: &str) -> io::Result<()> {
        self.files.remove_dir_all(alloc, path)
    }

    fn canonicalize<B: Allocator>(&self, alloc: B, path: &str) -> io::Result<PathBuf<B>> {
        self.files.canonicalize(alloc, path)
    }

    fn read_link<B: Allocator>(&self, alloc: B, path: &str) -> io::Result<PathBuf<B>> {
        self.files.read_link(alloc, path)
    }

    fn hard_link(&self, original: &str, link: &str) -> io::Result<()> {
        self.files.hard_link(original, link)
    }

    fn set_permissions(&self, path: &str, perm: Permissions) -> io::Result<()> {
        self.files.set_permissions(path, perm)
    }

    fn symlink(&self, original: &str, link: &str) -> io::Result<()> {
        self.files.symlink(original, link)
    }

    fn pipe(&self) -> io::Result<(PipeReader, PipeWriter)> {
        self.files.pipe()
    }

    fn chown(&self, path: &str, uid: Option<u32>, gid: Option<u32>) -> io::Result<()> {
        self.files.chown(path, uid, gid)
    }

    fn lchown(&self, path: &str, uid: Option<u32>, gid: Option<u32>) -> io::Result<()> {
        self.files.lchown(path, uid, gid)
    }

    fn create_dir_with_mode(&self, path: &str, mode: u32) -> io::Result<()> {
        self.files.create_dir_with_mode(path, mode)
    }

    fn bind_unix(&self, socket: BorrowedFd<'_>, addr: &SocketAddr) -> io::Result<()> {
        self.files.bind_unix(socket, addr)
    }
}
