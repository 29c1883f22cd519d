//! The adapters of `roam_edge` over files of which one call fails.

ghost use Rattle.std.specs.Prelude.{◌≡◌, ◌<◌, ◌≤◌, false, length};
ghost use Rattle.roam_edge.specs.declared.mesh_sink.TheConstants.{LONGEST_PREFIX, GREATEST_NUMBER};

use crate::flaky_files::FlakyFiles;
use roam_edge::{Failed, FileMeshes, FileShelf, LONGEST_PREFIX, MeshSink, Shelf};
use std::alloc::Global;
use std::cell::Cell;
use std::rc::Rc;
use std::rt::Files;
use std::test::Fail;

/// Files of which this call fails.
fn flaky(alloc: Global, fails: u64) -> Result<FlakyFiles, Fail> {
    Ok(FlakyFiles {
        calls: Rc::new(alloc, Cell::new(0))?,
        fails,
    })
}

/// Opens a file by name and reads once.
fn read_front<F: Shelf>(shelf: &mut F, name: &str, buf: &mut [u8]) -> Result<usize, Failed>
    requires { 0 < length buf.old }
{
    shelf.open_named(name)?;
    shelf.read(buf)
}

/// The same twice over one shelf of these files: the second time a file is open.
fn read_through<R: Files>(files: &R) -> [Result<usize, Failed>; 2] {
    let mut shelf = FileShelf::new(files);
    let (mut front, mut again) = ([0u8; 8], [0u8; 8]);
    let first = read_front(&mut shelf, "grid", &mut front);
    let second = read_front(&mut shelf, "grid", &mut again);
    [first, second]
}

/// A mesh of two pieces, where the prefix may be one.
fn put_mesh<M: MeshSink>(meshes: &mut M, prefix: &str, number: u32) -> Result<(), Failed>
    requires idle { M.under_way meshes.old ≡ false }
    requires number_low { 1 ≤ number }
    requires number_high { number ≤ GREATEST_NUMBER }
{
    if prefix.is_empty() || prefix.len() > LONGEST_PREFIX {
        return Err(Failed);
    }
    meshes.begin(prefix, number)?;
    meshes.write(b"v 0 0 0\n")?;
    meshes.write(b"f 1 1 1\n")?;
    meshes.finish()
}

/// A mesh as one of these files.
fn put_through<R: Files>(files: &R) -> Result<(), Failed> {
    let mut meshes = FileMeshes::new(files);
    put_mesh(&mut meshes, "out", 42)
}

/// Calls of a shelf: open, read, open, read. Of a sink of meshes: open, write, write, flush.
#[test]
fn a_failed_call_is_told_and_not_tried_again(rt: HostRuntime) -> Result<(), Fail> {
    let failed = Err(Failed);
    let cases = [
        (1, [failed, Ok(3)], 3, Err(Failed), 1),
        (2, [failed, Ok(3)], 4, Err(Failed), 2),
        (3, [Ok(3), failed], 3, Err(Failed), 3),
        (4, [Ok(3), failed], 4, Err(Failed), 4),
        (5, [Ok(3), Ok(3)], 4, Ok(()), 4),
    ];
    for (fails, reads, read_calls, put, put_calls) in cases {
        let files = flaky(rt.alloc(), fails)?;
        let found = read_through(&files);
        assert_eq!(rt; (found, files.calls.get()), (reads, read_calls), "{fails}");
        let others = flaky(rt.alloc(), fails)?;
        let found = put_through(&others);
        assert_eq!(rt; (found, others.calls.get()), (put, put_calls), "{fails}");
    }
    Ok(())
}
