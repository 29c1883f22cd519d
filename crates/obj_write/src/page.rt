//! A page of text on the stack, which is handed to the sink when it is full.

ghost use Rattle.std.specs.Prelude.{◌≡◌, ◌+◌, ◌≤◌, ◌++◌, [], true, length, OnOk, OnErr};
ghost use Rattle.roam_edge.specs.Fault.{HasCause, IsInTime};
ghost use Rattle.roam_edge.specs.MeshSink.{Writes};
ghost use Rattle.obj_write.specs.Field.{letter_line};
ghost use Rattle.obj_write.specs.Page.{Passed, Broken};
ghost use Rattle.obj_write.specs.declared.field.TheConstants.{LONGEST_FIELD};
ghost use Rattle.obj_write.specs.declared.page.TheConstants.{PAGE_ROOM};
ghost use Rattle.obj_write.specs.declared.lines.TheConstants.{LONGEST_LINE, LONGEST_PIECE};

use crate::field::{Field, place_bytes, place_line};
use crate::lines::LONGEST_PIECE;
use roam_edge::{Failed, MeshSink};
use std::marker::Model;

/// How many bytes a page has room for: a piece that the sink gets is at least half of it, but for the last.
pub(crate) const PAGE_ROOM: usize = 16384;

/// Text that the sink has not got yet.
#[derive(Drop)]
pub(crate) struct Page<const ROOM: usize> {
    bytes: [u8; ROOM],
    len: usize,
}

impl<const ROOM: usize> Model for Page<ROOM> {
    ghost use Rattle.std.specs.Prelude.{ℕ, List, ◌≤◌, take};

    ghost Value = { List ℕ };

    ghost view = { λ p. take p.len p.bytes };

    ghost invariant = { λ p. p.len ≤ ROOM };
}

impl<const ROOM: usize> Page<ROOM> {
    /// An empty page.
    pub(crate) fn new() -> Page<ROOM>
        ensures { result ≡ [] }
    {
        Page {
            bytes: [0; ROOM],
            len: 0,
        }
    }

    /// How long the text is.
    pub(crate) fn len(&self) -> usize
        ensures value { result ≡ length self.now }
        ensures fits { result ≤ ROOM }
    {
        self.len
    }

    /// The text.
    pub(crate) fn text(&self) -> &[u8]
        ensures { result.now ≡ self.now }
    {
        &self.bytes[..self.len]
    }

    /// Makes the page empty.
    fn clear(&mut self)
        ensures { self.new ≡ [] }
    {
        self.len = 0;
    }

    /// Appends a line of three fields behind a letter.
    #[inline(always)]
    pub(crate) fn push_line(&mut self, letter: u8, first: &Field, second: &Field, third: &Field)
        requires room { length self.old + LONGEST_LINE ≤ ROOM }
        requires first_short { first.now.len ≤ LONGEST_FIELD }
        requires second_short { second.now.len ≤ LONGEST_FIELD }
        requires third_short { third.now.len ≤ LONGEST_FIELD }
        ensures text { self.new ≡ self.old ++ letter_line letter first.now second.now third.now }
        ensures short { length self.new ≤ length self.old + LONGEST_LINE }
    {
        self.len = place_line(&mut self.bytes, self.len, letter, first, second, third);
    }

    /// Appends bytes.
    pub(crate) fn push_bytes(&mut self, bytes: &[u8])
        requires room { length self.old + length bytes.now ≤ ROOM }
        ensures text { self.new ≡ self.old ++ bytes.now }
        ensures len { length self.new ≡ length self.old + length bytes.now }
    {
        self.len = place_bytes(&mut self.bytes, self.len, bytes);
    }
}

/// Hands a page to the sink that has no room for the longest lines of a triangle.
pub(crate) fn make_room<M: MeshSink>(page: &mut Page<PAGE_ROOM>, out: &mut M) -> Result<(), Failed>
    requires { M.under_way out.old ≡ true }
    ensures room { OnOk result (length page.new + LONGEST_PIECE ≤ PAGE_ROOM) }
    ensures ok { OnOk result (Passed (M.meshes out.old) (M.meshes out.new) page.old page.new []) }
    ensures err { OnErr result (Broken (M.meshes out.old) (M.meshes out.new) page.old) }
    ensures under_way { M.under_way out.new ≡ true }
    ensures faults { HasCause (M.faults out.old) (M.faults out.new) result }
    ensures in_time { IsInTime (M.late out.old) (M.faults out.old) (M.late out.new) }
{
    if page.len() + LONGEST_PIECE <= PAGE_ROOM {
        return Ok(());
    }
    out.write(page.text())?;
    page.clear();
    Ok(())
}

/// Hands the page to the sink, unless it is empty.
pub(crate) fn write_rest<M: MeshSink>(page: &Page<PAGE_ROOM>, out: &mut M) -> Result<(), Failed>
    requires { M.under_way out.old ≡ true }
    ensures mesh { Writes (M.meshes out.old) (M.meshes out.new) page.now result }
    ensures under_way { M.under_way out.new ≡ true }
    ensures faults { HasCause (M.faults out.old) (M.faults out.new) result }
    ensures in_time { IsInTime (M.late out.old) (M.faults out.old) (M.late out.new) }
{
    if page.len() == 0 {
        Ok(())
    } else {
        out.write(page.text())
    }
}
