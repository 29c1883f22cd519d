//! The points that a mesh keeps, read from the outside of a run.

ghost use Rattle.std.specs.Prelude.{◌≡◌, ◌≢◌, ◌+◌, ◌*◌, ◌^◌, ◌≤◌, ◌<◌, ◌++◌, ◌∷◌, [], ℕ, List, All, Option, IfOk};
ghost use Rattle.std.specs.Prelude.{OnOk, Some};
ghost use Rattle.std.specs.Prelude.{Ok, Err, length, vec_capacity};
ghost use Rattle.mesh_defs.specs.declared.level.TheConstants.{GREATEST_LEVEL};
ghost use Rattle.bintree_laws.specs.Corners.{IsInSquare};
ghost use Rattle.roam_edge.specs.Fault.{Rose, next_count, IsInTime};
ghost use Rattle.roam_edge.specs.Shelf.{NamedFile, bytes_of};
ghost use Rattle.roam_script.specs.PointText.{most_points, point_in};
ghost use Rattle.run_laws.specs.Walk.{Refusal};
ghost use Rattle.run_laws.specs.PointFile.{with_point, points_in, HavePointsCome, PointsHaveRead, TakesPoints};
ghost use Rattle.run_laws.specs.FileStop.{StopsReading};
ghost use Rattle.run_laws.specs.Promise.{HasEnded};
ghost use Rattle.run_laws.specs.Moment.{OnlyReads};
ghost use Rattle.run_files.specs.PointStage.{point_place, stops, IsPointStage};

use crate::grid_file::PIECE;
use crate::outside::Outside;
use arrayvec::ArrayVec;
use mesh_defs::Point;
use roam_script::{MOST_LINE_BYTES, ScriptFault, most_points, point_laws, read_point};

/// Why there are no points.
#[derive(Clone, Copy, Debug, PartialEq, Eq)]
pub enum PointStop {
    /// A line is refused.
    Refused {
        /// Its number, counted from 1.
        line: u32,
        /// Why.
        fault: ScriptFault,
    },
    /// The file could not be opened or read.
    Failed,
}

/// How far a file of points was read.
#[derive(Drop)]
pub(crate) struct PointStage {
    /// The level of the grid: a side has 2^n + 1 points.
    pub(crate) n: u32,
    /// The points of the whole lines, in room for one of each line.
    pub(crate) points: Vec<Point>,
    /// How many whole lines there are.
    pub(crate) lines: u32,
    /// The bytes of the line that has begun.
    pub(crate) part: ArrayVec<u8, MOST_LINE_BYTES>,
}

impl PointStage {
    /// Before the first line.
    fn new(n: u32, points: Vec<Point>) -> PointStage
        requires in_grid { n ≤ GREATEST_LEVEL }
        requires empty { points.items ≡ [] }
        requires room { most_points n ≤ vec_capacity points }
        ensures place { point_place result ≡ record { said = []; lines = 0; begun = [] } }
        ensures n { result.n ≡ n }
        ensures sound { IsPointStage result }
    {
        PointStage {
            n,
            points,
            lines: 0,
            part: ArrayVec::new(),
        }
    }

    /// Takes the line that has begun, which ends here.
    fn take_line(&mut self) -> Result<(), PointStop>
        requires sound { IsPointStage self.old }
        ensures n { self.new.n ≡ self.old.n }
        ensures ok { OnOk result ((at : Option Point) ×
            (point_in self.old.n (self.old.lines + 1) self.old.part.items ≡ Ok at) ×
            (self.new.points.items ≡ with_point self.old.points.items at)) }
        ensures lines { OnOk result (self.new.lines ≡ self.old.lines + 1) }
        ensures part { OnOk result (self.new.part.items ≡ []) }
        ensures sound { OnOk result (IsPointStage self.new) }
        ensures refusal { (why : Refusal) → result ≡ Err (stops why) → (why.line ≡ self.old.lines + 1) ×
            (point_in self.old.n (self.old.lines + 1) self.old.part.items ≡ Err why.fault) }
        ensures not_failed { result ≢ Err PointStop.Failed }
    {
        point_laws();
        let line = self.lines + 1;
        match read_point(self.part.as_slice(), self.n, line) {
            Ok(at) => {
                push_point(&mut self.points, at);
                self.lines = line;
                self.part.clear();
                Ok(())
            }
            Err(fault) => Err(PointStop::Refused { line, fault }),
        }
    }

    /// Takes one byte: the line that has begun goes on, or it ends. A line that no further byte mends is refused at
    /// once: one that is too long, and one behind as many as there may be.
    fn take_byte(&mut self, byte: u8) -> Result<(), PointStop>
        requires sound { IsPointStage self.old }
        ensures n { self.new.n ≡ self.old.n }
        ensures taken { (read : List ℕ) → HavePointsCome self.old.n read (point_place self.old) →
            TakesPoints self.old.n stops (read ++ byte ∷ []) (point_place self.new) result }
        ensures sound { OnOk result (IsPointStage self.new) }
        ensures longer { OnOk result (201 * self.old.lines + length self.old.part.items + 1
            ≤ 201 * self.new.lines + length self.new.part.items) }
        ensures not_failed { result ≢ Err PointStop.Failed }
    {
        if byte == b'\n' {
            return self.take_line();
        }
        point_laws();
        let line = self.lines + 1;
        if line > most_points(self.n) {
            return Err(PointStop::Refused {
                line,
                fault: ScriptFault::TooManyLines,
            });
        }
        if self.part.is_full() {
            return Err(PointStop::Refused {
                line,
                fault: ScriptFault::LineTooLong,
            });
        }
        self.part.push(byte);
        Ok(())
    }

    /// Takes a piece of the file.
    fn take_piece(&mut self, piece: &[u8]) -> Result<(), PointStop>
        requires sound { IsPointStage self.old }
        ensures n { self.new.n ≡ self.old.n }
        ensures taken { (read : List ℕ) → HavePointsCome self.old.n read (point_place self.old) →
            TakesPoints self.old.n stops (read ++ piece.now) (point_place self.new) result }
        ensures sound { OnOk result (IsPointStage self.new) }
        ensures longer { OnOk result (201 * self.old.lines + length self.old.part.items + length piece.now
            ≤ 201 * self.new.lines + length self.new.part.items) }
        ensures not_failed { result ≢ Err PointStop.Failed }
    {
        for byte in piece {
            self.take_byte(*byte)?;
        }
        Ok(())
    }

    /// Ends the file: bytes after the last LF are a line too.
    fn end(mut self) -> Result<Vec<Point>, PointStop>
        requires sound { IsPointStage self }
        ensures ok { (read : List ℕ) → HavePointsCome self.n read (point_place self) →
            IfOk result (λ points. points_in self.n read ≡ Ok points.items) }
        ensures refusal { (read : List ℕ) → HavePointsCome self.n read (point_place self) →
            (why : Refusal) → result ≡ Err (stops why) → points_in self.n read ≡ Err why }
        ensures inside { IfOk result (λ points. All (λ p. IsInSquare (2 ^ self.n) p) points.items) }
        ensures few { IfOk result (λ points. length points.items ≤ most_points self.n) }
        ensures not_failed { result ≢ Err PointStop.Failed }
    {
        if self.part.is_empty() {
            return Ok(self.points);
        }
        self.take_line()?;
        Ok(self.points)
    }
}

/// Puts the point of a line behind the others, where the line has one; takes no memory.
fn push_point(points: &mut Vec<Point>, at: Option<Point>)
    requires room { length points.old.items < vec_capacity points.old }
    ensures items { points.new.items ≡ with_point points.old.items at }
    ensures capacity { vec_capacity points.old ≤ vec_capacity points.new }
    ensures most { length points.new.items ≤ length points.old.items + 1 }
{
    if let Some(point) = at {
        let Ok(()) = points.push(point) else {
            unreachable!()
        };
    }
}

/// Reads the file of this name to its end or its first line that is refused: its points of the grid of side 2^n, into
/// room for as many as the grid has. Takes no memory.
pub fn read_points<O: Outside>(
    n: u32,
    name: &str,
    points: Vec<Point>,
    outside: &mut O,
) -> Result<Vec<Point>, PointStop>
    requires in_grid { n ≤ GREATEST_LEVEL }
    requires empty { points.items ≡ [] }
    requires room { most_points n ≤ vec_capacity points }
    ensures ok { IfOk result (λ all. (files : List NamedFile) → (O.moment outside.old).shelf.files ≡ Some files →
        points_in n (bytes_of files name.now) ≡ Ok all.items) }
    ensures inside { IfOk result (λ all. All (λ p. IsInSquare (2 ^ n) p) all.items) }
    ensures few { IfOk result (λ all. length all.items ≤ most_points n) }
    // A file that is read was read to its end.
    ensures ended { OnOk result (HasEnded (O.moment outside.new).shelf) }
    ensures refused { (why : Refusal) → result ≡ Err (stops why) →
        (files : List NamedFile) → (O.moment outside.old).shelf.files ≡ Some files →
        points_in n (bytes_of files name.now) ≡ Err why }
    // Where a read failed, no line that was read is refused.
    ensures undecided { result ≡ Err PointStop.Failed → (files : List NamedFile) →
        (O.moment outside.old).shelf.files ≡ Some files →
        StopsReading (PointsHaveRead n) (bytes_of files name.now)
        (O.moment outside.new).shelf.rest (O.moment outside.new).shelf.ended }
    ensures same { O.is_same outside.old outside.new }
    ensures only { OnlyReads (O.moment outside.old) (O.moment outside.new) }
    ensures opens { (O.moment outside.new).shelf.opens ≡ next_count (O.moment outside.old).shelf.opens }
    ensures failed { result ≡ Err PointStop.Failed →
        Rose (O.moment outside.old).shelf_faults (O.moment outside.new).shelf_faults }
    ensures no_fault { result ≢ Err PointStop.Failed →
        (O.moment outside.new).shelf_faults ≡ (O.moment outside.old).shelf_faults }
    ensures in_time { IsInTime (O.moment outside.old).shelf_late (O.moment outside.old).shelf_faults
        (O.moment outside.new).shelf_late }
{
    let Ok(()) = outside.open_named(name) else {
        return Err(PointStop::Failed);
    };
    let mut stage = PointStage::new(n, points);
    let mut buffer = [0; PIECE];
    'pieces: loop {
        let Ok(count) = outside.read(&mut buffer) else {
            return Err(PointStop::Failed);
        };
        if count == 0 {
            return stage.end();
        }
        stage.take_piece(&buffer[..count])?;
    }
}
