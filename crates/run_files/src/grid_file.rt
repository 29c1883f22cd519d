//! The grid of a command.

ghost use Rattle.std.specs.Prelude.{◌≡◌, ◌≢◌, ◌^◌, ◌≤◌, List, [], OnOk, IfOk, IfErr, Some, None, Ok, Err};
ghost use Rattle.mesh_defs.specs.declared.level.TheConstants.{GREATEST_FILE_LEVEL};
ghost use Rattle.roam_edge.specs.Fault.{Rose, next_count, IsInTime};
ghost use Rattle.roam_edge.specs.Shelf.{NamedFile, bytes_of};
ghost use Rattle.pgm_grid.specs.declared.fault.PgmFault.{PgmFault as Fault};
ghost use Rattle.pgm_grid.specs.Progress.{grid_of, resume};
ghost use Rattle.run_laws.specs.Promise.{HasEnded, HasReadHeader, IsUndecided};
ghost use Rattle.run_laws.specs.FileStop.{StopsReading};
ghost use Rattle.run_words.specs.Words.{Job, OnGrid};
ghost use Rattle.run_laws.specs.Moment.{OnlyReads};
ghost use Rattle.run_laws.specs.Leaving.{RunsCommand, ReadsGrid};
ghost use Rattle.run_files.specs.GridStop.{stop_for};

use crate::end::end_with_text;
use crate::outside::Outside;
use crate::report::grid_report;
use pgm_grid::{Grid, PgmFault, PgmReader, grids_and_texts};
use run_laws::Status;
use std::alloc::Global;

/// How many bytes are asked for at once.
pub const PIECE: usize = 65536;

/// Why there is no grid.
#[derive(Clone, Copy, Debug, PartialEq, Eq)]
pub enum GridStop {
    /// There is no room for the heights.
    NoMemory,
    /// The bytes are refused.
    Refused(PgmFault),
    /// The file could not be opened or read.
    Failed,
}

/// Reads the file of this name to its end or its first refusal.
pub fn read_grid<O: Outside>(alloc: Global, name: &str, outside: &mut O) -> Result<Grid, GridStop>
    ensures ok { IfOk result (λ grid. (files : List NamedFile) → (O.moment outside.old).shelf.files ≡ Some files →
        grid_of (bytes_of files name.now) ≡ Ok grid) }
    ensures level { IfOk result (λ grid. grid.n ≤ GREATEST_FILE_LEVEL) }
    // A file that is read was read to its end, and begins with a whole header.
    ensures ended { OnOk result (HasEnded (O.moment outside.new).shelf) }
    ensures header { OnOk result ((files : List NamedFile) → (O.moment outside.old).shelf.files ≡ Some files →
        HasReadHeader (bytes_of files name.now) (O.moment outside.new).shelf.rest) }
    ensures refused { (fault : Fault) → result ≡ Err (GridStop.Refused fault) →
        (files : List NamedFile) → (O.moment outside.old).shelf.files ≡ Some files →
        grid_of (bytes_of files name.now) ≡ Err fault }
    ensures no_memory { result ≡ Err GridStop.NoMemory →
        (files : List NamedFile) → (O.moment outside.old).shelf.files ≡ Some files →
        HasReadHeader (bytes_of files name.now) (O.moment outside.new).shelf.rest }
    // Where a read failed, no refusal of the grid is settled yet.
    ensures undecided { result ≡ Err GridStop.Failed →
        (files : List NamedFile) → (O.moment outside.old).shelf.files ≡ Some files →
        StopsReading IsUndecided (bytes_of files name.now)
        (O.moment outside.new).shelf.rest (O.moment outside.new).shelf.ended }
    ensures same { O.is_same outside.old outside.new }
    ensures only { OnlyReads (O.moment outside.old) (O.moment outside.new) }
    ensures opens { (O.moment outside.new).shelf.opens ≡ next_count (O.moment outside.old).shelf.opens }
    ensures failed { result ≡ Err GridStop.Failed →
        Rose (O.moment outside.old).shelf_faults (O.moment outside.new).shelf_faults }
    ensures no_fault { result ≢ Err GridStop.Failed →
        (O.moment outside.new).shelf_faults ≡ (O.moment outside.old).shelf_faults }
    ensures in_time { IsInTime (O.moment outside.old).shelf_late (O.moment outside.old).shelf_faults
        (O.moment outside.new).shelf_late }
{
    let Ok(()) = outside.open_named(name) else {
        return Err(GridStop::Failed);
    };
    // No refusal of a file's bytes says that a call was out of memory.
    grids_and_texts();
    let mut reader = PgmReader::new(alloc);
    let mut buffer = [0; PIECE];
    'pieces: loop {
        let Ok(count) = outside.read(&mut buffer) else {
            return Err(GridStop::Failed);
        };
        if count == 0 {
            return finished(reader);
        }
        if let Err(fault) = reader.feed(&buffer[..count]) {
            return Err(stop_of(fault));
        }
    }
}

/// Reads the grid of this name, or ends the command: where the grid is refused, the report is told why; a failed read
/// and running out of memory end it too.
pub fn grid_or_end<O: Outside>(alloc: Global, name: &str, outside: &mut O) -> Result<Grid, Status>
    requires opens { (O.moment outside.old).shelf.opens ≤ 2 ^ 63 }
    ensures same { O.is_same outside.old outside.new }
    ensures ok { IfOk result (λ grid. ReadsGrid (O.moment outside.old) (O.moment outside.new) name.now grid) }
    ensures level { IfOk result (λ grid. grid.n ≤ GREATEST_FILE_LEVEL) }
    ensures err { IfErr result (λ status. (job : Job) →
        RunsCommand (O.moment outside.old) (O.moment outside.new) (Some (OnGrid name.now job)) status None) }
{
    match read_grid(alloc, name, outside) {
        Ok(grid) => Ok(grid),
        Err(GridStop::NoMemory) => Err(Status::NoMemory),
        Err(GridStop::Failed) => Err(Status::ReadFault),
        Err(GridStop::Refused(fault)) => Err(end_with_text(
            grid_report(fault).as_slice(),
            Status::GridRefused,
            outside,
        )),
    }
}

/// What the end of the file makes of the bytes.
fn finished(reader: PgmReader) -> Result<Grid, GridStop>
    ensures ok { IfOk result (λ grid. resume reader [] ≡ Ok grid) }
    ensures level { IfOk result (λ grid. grid.n ≤ GREATEST_FILE_LEVEL) }
    ensures refused { IfErr result (λ stop. (fault : Fault) × (stop ≡ GridStop.Refused fault)
        × (resume reader [] ≡ Err fault)) }
{
    match reader.finish() {
        Ok(grid) => Ok(grid),
        Err(fault) => Err(GridStop::Refused(fault)),
    }
}

/// Why a run stops at a refusal of the reader.
fn stop_of(fault: PgmFault) -> GridStop
    ensures { result ≡ stop_for fault }
{
    match fault {
        PgmFault::NoMemory => GridStop::NoMemory,
        _ => GridStop::Refused(fault),
    }
}
