//! How far the lines of a certificate's file were read.

ghost use Rattle.std.specs.Prelude.{◌≡◌, ◌≢◌, ◌+◌, ◌*◌, ◌≤◌, ◌++◌, ◌∷◌, [], ℕ, List, IfOk, OnOk, None, Some, Err};
ghost use Rattle.std.specs.Prelude.{length};
ghost use Rattle.mesh_defs.specs.declared.level.TheConstants.{GREATEST_LEVEL};
ghost use Rattle.run_laws.specs.CertFile.{HaveCome, TakesLines, EndsLines};
ghost use Rattle.run_laws.proofs.CertFileLemmas.{place};
ghost use Rattle.run_files.specs.LineStage.{IsStage, refuses};

use crate::cert_file::CertStop;
use crate::line_reader::LineReader;
use arrayvec::ArrayVec;
use cert_text::CertFault;
use roam_script::MOST_LINE_BYTES;
use std::alloc::Global;

/// How far a certificate was read.
#[derive(Drop)]
pub(crate) struct LineStage<R> {
    /// What the whole lines say.
    pub(crate) reader: R,
    /// How many they are.
    pub(crate) lines: u32,
    /// The bytes of the line that has begun.
    pub(crate) part: ArrayVec<u8, MOST_LINE_BYTES>,
}

impl<R: LineReader> LineStage<R> {
    /// Before the first line of a certificate of the grid of side 2^n.
    pub(crate) fn new(alloc: Global, n: u32) -> LineStage<R>
        requires in_grid { (1 ≤ n) × (n ≤ GREATEST_LEVEL) }
        ensures place { place (R.said result.reader) result.lines result.part.items ≡ place R.start 0 [] }
        ensures level { R.level result.reader ≡ n }
        ensures sound { IsStage (R.Goes result.reader) (R.count (R.said result.reader)) result.lines result.part.items }
    {
        LineStage {
            reader: R::begin(alloc, n),
            lines: 0,
            part: ArrayVec::new(),
        }
    }

    /// Takes the line that has begun, which ends here.
    fn take_line(&mut self) -> Result<(), CertStop>
        requires sound { IsStage (R.Goes self.old.reader) (R.count (R.said self.old.reader)) self.old.lines
            self.old.part.items }
        ensures level { R.level self.new.reader ≡ R.level self.old.reader }
        ensures ok { OnOk result (R.step (R.level self.old.reader) (R.said self.old.reader) self.old.part.items
            ≡ Some (R.said self.new.reader)) }
        ensures lines { OnOk result (self.new.lines ≡ self.old.lines + 1) }
        ensures part { OnOk result (self.new.part.items ≡ []) }
        ensures sound { OnOk result (IsStage (R.Goes self.new.reader) (R.count (R.said self.new.reader)) self.new.lines
            self.new.part.items) }
        ensures bad_line { (line : ℕ) → result ≡ Err (CertStop.BadLine line) →
            R.step (R.level self.old.reader) (R.said self.old.reader) self.old.part.items ≡ None }
        ensures number { (line : ℕ) → result ≡ Err (CertStop.BadLine line) → line ≡ self.old.lines + 1 }
        ensures not_failed { result ≢ Err CertStop.Failed }
    {
        match self.reader.take(self.part.as_slice()) {
            Ok(()) => {
                self.lines = self.reader.lines();
                self.part.clear();
                Ok(())
            }
            Err(CertFault::BadLine) => Err(CertStop::BadLine(self.lines + 1)),
            Err(CertFault::NoMemory) => Err(CertStop::NoMemory),
        }
    }

    /// Takes one byte: the line that has begun goes on, or it ends. A line that is too long is refused at once.
    fn take_byte(&mut self, byte: u8) -> Result<(), CertStop>
        requires sound { IsStage (R.Goes self.old.reader) (R.count (R.said self.old.reader)) self.old.lines
            self.old.part.items }
        ensures level { R.level self.new.reader ≡ R.level self.old.reader }
        ensures taken { (read : List ℕ) → HaveCome (R.step (R.level self.old.reader)) R.start read
            (place (R.said self.old.reader) self.old.lines self.old.part.items) →
            TakesLines (R.step (R.level self.old.reader)) R.start (R.file (R.level self.old.reader)) refuses
            (read ++ byte ∷ []) (place (R.said self.new.reader) self.new.lines self.new.part.items) result }
        ensures sound { OnOk result (IsStage (R.Goes self.new.reader) (R.count (R.said self.new.reader)) self.new.lines
            self.new.part.items) }
        ensures longer { OnOk result (201 * self.old.lines + length self.old.part.items + 1
            ≤ 201 * self.new.lines + length self.new.part.items) }
        ensures not_failed { result ≢ Err CertStop.Failed }
    {
        if byte == b'\n' {
            return self.take_line();
        }
        if self.part.is_full() {
            return Err(CertStop::BadLine(self.lines + 1));
        }
        self.part.push(byte);
        Ok(())
    }

    /// Takes a piece of the file.
    pub(crate) fn take_piece(&mut self, piece: &[u8]) -> Result<(), CertStop>
        requires sound { IsStage (R.Goes self.old.reader) (R.count (R.said self.old.reader)) self.old.lines
            self.old.part.items }
        ensures level { R.level self.new.reader ≡ R.level self.old.reader }
        ensures taken { (read : List ℕ) → HaveCome (R.step (R.level self.old.reader)) R.start read
            (place (R.said self.old.reader) self.old.lines self.old.part.items) →
            TakesLines (R.step (R.level self.old.reader)) R.start (R.file (R.level self.old.reader)) refuses
            (read ++ piece.now) (place (R.said self.new.reader) self.new.lines self.new.part.items) result }
        ensures sound { OnOk result (IsStage (R.Goes self.new.reader) (R.count (R.said self.new.reader)) self.new.lines
            self.new.part.items) }
        ensures longer { OnOk result (201 * self.old.lines + length self.old.part.items + length piece.now
            ≤ 201 * self.new.lines + length self.new.part.items) }
        ensures not_failed { result ≢ Err CertStop.Failed }
    {
        for byte in piece {
            self.take_byte(*byte)?;
        }
        Ok(())
    }

    /// Ends the file: bytes after the last LF are a line too.
    pub(crate) fn end(mut self) -> Result<R::Cert, CertStop>
        requires sound { IsStage (R.Goes self.reader) (R.count (R.said self.reader)) self.lines self.part.items }
        ensures ends { (read : List ℕ) → HaveCome (R.step (R.level self.reader)) R.start read
            (place (R.said self.reader) self.lines self.part.items) →
            EndsLines (R.file (R.level self.reader)) refuses read result }
        ensures read { IfOk result (λ cert. R.IsRead (R.level self.reader) cert) }
        ensures not_failed { result ≢ Err CertStop.Failed }
    {
        if self.part.is_empty() {
            return self.reader.end();
        }
        self.take_line()?;
        self.reader.end()
    }
}
