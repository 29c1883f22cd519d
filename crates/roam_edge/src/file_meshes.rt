//! A sink of meshes over real files.

ghost use Rattle.std.specs.Prelude.{◌≡◌, None, true, false, OnErr, is_some, is_err};
ghost use Rattle.std.specs.Io.KnownBytes.{Keeps};
ghost use Rattle.roam_edge.specs.Fault.{HasCause, late_after};
ghost use Rattle.roam_edge.specs.MeshSink.{Writes, Finishes};
ghost use Rattle.roam_edge.specs.Sink.{Appends};
ghost use Rattle.roam_edge.specs.RealFile.{of_open};

use crate::mesh_name::mesh_name;
use crate::std_sink::write_all;
use crate::{Failed, MeshSink};
use std::fs;
use std::io::Write;
use std::rt::Files;

/// A sink whose meshes are files, named by the prefix, six digits with leading zeros and `.obj`.
///
/// It tells no content. A file of that name that stands already is written anew; bytes go to the
/// file as they come, so a caller hands over large pieces.
#[derive(Drop)]
pub struct FileMeshes<'r, R: Files> {
    rt: &'r R,
    file: Option<R::File>,
    faults: u64,
    late: bool,
}

impl<'r, R: Files> FileMeshes<'r, R> {
    /// A sink over the files of this runtime, with no mesh under way.
    pub fn new(rt: &'r R) -> FileMeshes<'r, R>
        ensures under_way { ⟦<FileMeshes<'r, R> as MeshSink>⟧.under_way result ≡ false }
        ensures faults { ⟦<FileMeshes<'r, R> as MeshSink>⟧.faults result ≡ 0 }
        ensures late { ⟦<FileMeshes<'r, R> as MeshSink>⟧.late result ≡ false }
    {
        FileMeshes {
            rt,
            file: None,
            faults: 0,
            late: false,
        }
    }
}

impl<'r, R: Files> MeshSink for FileMeshes<'r, R> {
    ghost use Rattle.std.specs.Prelude.{None, is_some};

    ghost meshes = { λ _. None };

    ghost under_way = { λ s. is_some s.file };

    ghost faults = { λ s. s.faults };

    ghost late = { λ s. s.late };

    fn begin(&mut self, prefix: &str, number: u32) -> Result<(), Failed> {
        self.late = self.late || self.faults > 0;
        let name = mesh_name(prefix, number);
        let file = create_once(self.rt, name.as_str(), &mut self.faults)?;
        self.file = Some(file);
        Ok(())
    }

    fn write(&mut self, piece: &[u8]) -> Result<(), Failed>
        requires { is_some self.old.file ≡ true }
        ensures file { Appends (of_open R.File.contents self.old.file)
            (of_open R.File.contents self.new.file) piece.now result }
        ensures mesh { Writes None None piece.now result }
        ensures under_way { is_some self.new.file ≡ is_some self.old.file }
        ensures faults { HasCause self.old.faults self.new.faults result }
        ensures late { self.new.late ≡ late_after self.old.late self.old.faults }
    {
        self.late = self.late || self.faults > 0;
        let Some(file) = &mut self.file else {
            unreachable!()
        };
        write_all(file, &mut self.faults, piece)
    }

    fn finish(&mut self) -> Result<(), Failed>
        requires { is_some self.old.file ≡ true }
        ensures file { OnErr result (Keeps (of_open R.File.contents self.old.file)
            (of_open R.File.contents self.new.file)) }
        ensures mesh { Finishes None None result }
        ensures under_way { is_some self.new.file ≡ is_err result }
        ensures faults { HasCause self.old.faults self.new.faults result }
        ensures late { self.new.late ≡ late_after self.old.late self.old.faults }
    {
        self.late = self.late || self.faults > 0;
        let Some(file) = &mut self.file else {
            unreachable!()
        };
        match flush_once(file, &mut self.faults) {
            Ok(()) => {
                self.file = None;
                Ok(())
            }
            Err(failed) => Err(failed),
        }
    }
}

/// Creates the file of this name, once, in the place of one that was there; an error counts as a fault, and is not
/// tried again.
pub(crate) fn create_once<R: Files>(rt: &R, name: &str, faults: &mut u64) -> Result<R::File, Failed>
    ensures faults { HasCause faults.old faults.new result }
{
    match fs::create(rt, name) {
        Ok(file) => Ok(file),
        Err(_) => {
            *faults = faults.saturating_add(1);
            Err(Failed)
        }
    }
}

/// Flushes once; an error counts as a fault, and is not tried again.
pub(crate) fn flush_once<F: Write>(file: &mut F, faults: &mut u64) -> Result<(), Failed>
    ensures bytes { Keeps (F.contents file.old) (F.contents file.new) }
    ensures faults { HasCause faults.old faults.new result }
{
    match file.flush() {
        Ok(()) => Ok(()),
        Err(_) => {
            *faults = faults.saturating_add(1);
            Err(Failed)
        }
    }
}
