//! A shelf and a sink that keep what a message needs.

ghost use Rattle.std.specs.Prelude.{◌≡◌, ◌<◌, ◌≤◌, ◌++◌, [], false, IfOk, OnErr, is_err, length, take};
ghost use Rattle.roam_edge.specs.Fault.{HasCause, next_count, late_after};
ghost use Rattle.roam_edge.specs.Shelf.{Opens, Reads, Ends};
ghost use Rattle.roam_edge.specs.Sink.{Appends};
ghost use Rattle.run_console.specs.Watching.{kept_head, kept_size, kept_line};

use arrayvec::ArrayVec;
use roam_edge::{Failed, Shelf, Sink};
use roam_num::push_bytes;
use std::marker::Model;

/// How many bytes of the beginning of a file are kept.
pub const HEAD: usize = 512;

/// How many bytes of a line of the report are kept.
pub const LINE: usize = 64;

/// A shelf that hands each call on, counts the files that were opened, and keeps the first bytes of
/// the first one.
#[derive(Drop)]
pub struct WatchedShelf<F: Shelf> {
    shelf: F,
    opens: u64,
    head: ArrayVec<u8, HEAD>,
    size: u64,
}

impl<F: Shelf> Model for WatchedShelf<F> {
    ghost use Rattle.run_console.specs.Watching.{Watched};

    ghost Value = { Watched F };

    ghost view = { λ s. record { shelf = s.shelf; opens = s.opens; head = s.head.items; size = s.size } };
}

impl<F: Shelf> WatchedShelf<F> {
    /// This shelf, before a file is opened.
    pub fn new(shelf: F) -> WatchedShelf<F>
        ensures opens { ⟦<WatchedShelf<F> as Shelf>⟧.opens result ≡ 0 }
        ensures ended { ⟦<WatchedShelf<F> as Shelf>⟧.ended result ≡ F.ended shelf }
        ensures faults { ⟦<WatchedShelf<F> as Shelf>⟧.faults result ≡ F.faults shelf }
        ensures late { ⟦<WatchedShelf<F> as Shelf>⟧.late result ≡ F.late shelf }
        ensures head { result.head ≡ [] }
        ensures size { result.size ≡ 0 }
    {
        WatchedShelf {
            shelf,
            opens: 0,
            head: ArrayVec::new(),
            size: 0,
        }
    }

    /// How many files were opened.
    pub fn opens(&self) -> u64
        ensures { result ≡ ⟦<WatchedShelf<F> as Shelf>⟧.opens self.now }
    {
        self.opens
    }

    /// The first bytes of the file that was opened first, as far as they were read: at most 512.
    pub fn head(&self) -> &[u8]
        ensures { result.now ≡ self.now.head }
    {
        self.head.as_slice()
    }

    /// How many bytes of the file that was opened first were read.
    pub fn size(&self) -> u64
        ensures { result ≡ self.now.size }
    {
        self.size
    }
}

impl<F: Shelf> Shelf for WatchedShelf<F> {
    ghost files = { λ s. F.files s.shelf };

    ghost rest = { λ s. F.rest s.shelf };

    ghost opens = { λ s. s.opens };

    ghost ended = { λ s. F.ended s.shelf };

    ghost faults = { λ s. F.faults s.shelf };

    ghost late = { λ s. F.late s.shelf };

    fn open_named(&mut self, name: &str) -> Result<(), Failed>
        ensures opened { Opens (F.files self.old.shelf) (F.rest self.old.shelf) (F.rest self.new.shelf) name.now result }
        ensures ends { F.ended self.new.shelf ≡ is_err result }
        ensures count { self.new.opens ≡ next_count self.old.opens }
        ensures others { F.files self.new.shelf ≡ F.files self.old.shelf }
        ensures faults { HasCause (F.faults self.old.shelf) (F.faults self.new.shelf) result }
        ensures late { F.late self.new.shelf ≡ late_after (F.late self.old.shelf) (F.faults self.old.shelf) }
        ensures head { self.new.head ≡ self.old.head }
        ensures size { self.new.size ≡ self.old.size }
    {
        self.opens = self.opens.saturating_add(1);
        self.shelf.open_named(name)
    }

    fn read(&mut self, buf: &mut [u8]) -> Result<usize, Failed>
        requires room { 0 < length buf.old }
        requires not_ended { F.ended self.old.shelf ≡ false }
        ensures bound { IfOk result (λ k. k ≤ length buf.old) }
        ensures bytes { Reads (F.rest self.old.shelf) (F.rest self.new.shelf) buf.old buf.new result }
        ensures ends { Ends (F.ended self.old.shelf) (F.ended self.new.shelf) result }
        ensures count { self.new.opens ≡ self.old.opens }
        ensures others { F.files self.new.shelf ≡ F.files self.old.shelf }
        ensures faults { HasCause (F.faults self.old.shelf) (F.faults self.new.shelf) result }
        ensures late { F.late self.new.shelf ≡ late_after (F.late self.old.shelf) (F.faults self.old.shelf) }
        ensures head { IfOk result (λ k. self.new.head ≡ kept_head self.old.opens self.old.head (take k buf.new)) }
        ensures head_err { OnErr result (self.new.head ≡ self.old.head) }
        ensures size { IfOk result (λ k. self.new.size ≡ kept_size self.old.opens self.old.size (take k buf.new)) }
        ensures size_err { OnErr result (self.new.size ≡ self.old.size) }
    {
        match self.shelf.read(buf) {
            Ok(count) => {
                if self.opens == 1 {
                    keep(&mut self.head, &buf[..count]);
                    self.size = self.size.saturating_add(count as u64);
                }
                Ok(count)
            }
            Err(failed) => Err(failed),
        }
    }
}

/// Appends as much of a piece as there is room for.
fn keep<const ROOM: usize>(kept: &mut ArrayVec<u8, ROOM>, piece: &[u8])
    ensures { kept.new.items ≡ take ROOM (kept.old.items ++ piece.now) }
{
    let room = kept.remaining_capacity();
    if piece.len() < room {
        push_bytes(kept, piece);
    } else {
        push_bytes(kept, &piece[..room]);
    }
}

/// A sink that hands each call on, and keeps the beginning of the last piece.
#[derive(Drop)]
pub struct WatchedSink<S: Sink> {
    sink: S,
    line: ArrayVec<u8, LINE>,
}

impl<S: Sink> Model for WatchedSink<S> {
    ghost use Rattle.run_console.specs.Watching.{WatchedLine};

    ghost Value = { WatchedLine S };

    ghost view = { λ s. record { sink = s.sink; line = s.line.items } };
}

impl<S: Sink> WatchedSink<S> {
    /// This sink, before a piece is written.
    pub fn new(sink: S) -> WatchedSink<S>
        ensures contents { ⟦<WatchedSink<S> as Sink>⟧.contents result ≡ S.contents sink }
        ensures faults { ⟦<WatchedSink<S> as Sink>⟧.faults result ≡ S.faults sink }
        ensures late { ⟦<WatchedSink<S> as Sink>⟧.late result ≡ S.late sink }
        ensures line { result.line ≡ [] }
    {
        WatchedSink {
            sink,
            line: ArrayVec::new(),
        }
    }

    /// The beginning of the last piece that is not empty, at most 64 bytes; none where there was no
    /// such piece.
    pub fn line(&self) -> &[u8]
        ensures { result.now ≡ self.now.line }
    {
        self.line.as_slice()
    }
}

impl<S: Sink> Sink for WatchedSink<S> {
    ghost contents = { λ s. S.contents s.sink };

    ghost faults = { λ s. S.faults s.sink };

    ghost late = { λ s. S.late s.sink };

    fn write(&mut self, piece: &[u8]) -> Result<(), Failed>
        ensures bytes { Appends (S.contents self.old.sink) (S.contents self.new.sink) piece.now result }
        ensures faults { HasCause (S.faults self.old.sink) (S.faults self.new.sink) result }
        ensures late { S.late self.new.sink ≡ late_after (S.late self.old.sink) (S.faults self.old.sink) }
        ensures line { self.new.line ≡ kept_line self.old.line piece.now }
    {
        if !piece.is_empty() {
            self.line.clear();
            keep(&mut self.line, piece);
        }
        self.sink.write(piece)
    }
}
