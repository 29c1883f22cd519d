//! A certificate, read from the outside of a run.

ghost use Rattle.std.specs.Prelude.{◌≡◌, ◌≢◌, ◌≤◌, ℕ, List, All, IfOk, Some, Ok, Err};
ghost use Rattle.mesh_defs.specs.Triangle.{IsAddress};
ghost use Rattle.mesh_defs.specs.declared.level.TheConstants.{GREATEST_LEVEL};
ghost use Rattle.roam_edge.specs.Fault.{Rose, next_count, IsInTime};
ghost use Rattle.roam_edge.specs.Shelf.{NamedFile, bytes_of};
ghost use Rattle.run_laws.specs.CertFile.{CertHasRead, cert_in};
ghost use Rattle.run_laws.specs.FileStop.{StopsReading};
ghost use Rattle.run_laws.specs.Moment.{OnlyReads};
ghost use Rattle.run_files.specs.LineStage.{LinesHaveRead};

use crate::grid_file::PIECE;
use crate::line_reader::LineReader;
use crate::line_stage::LineStage;
use crate::outside::Outside;
use cert_text::{Cert, CertReader};
use std::alloc::Global;

/// Why there is no certificate.
#[derive(Clone, Copy, Debug, PartialEq, Eq)]
pub enum CertStop {
    /// There is no room for what a line adds.
    NoMemory,
    /// This line, counted from 1, may not stand where it does; 1 too where there is no line.
    BadLine(u32),
    /// The file could not be opened or read.
    Failed,
}

/// Reads the certificate of this name to its end or its first line that is refused, of the grid of side 2^n.
pub fn read_cert<O: Outside>(
    alloc: Global,
    n: u32,
    name: &str,
    outside: &mut O,
) -> Result<Cert, CertStop>
    requires in_grid { (1 ≤ n) × (n ≤ GREATEST_LEVEL) }
    ensures ok { IfOk result (λ cert. (files : List NamedFile) → (O.moment outside.old).shelf.files ≡ Some files →
        cert_in n (bytes_of files name.now) ≡ Ok cert) }
    ensures leaves { IfOk result (λ cert. All (IsAddress n) cert.leaves) }
    ensures bad_line { (line : ℕ) → result ≡ Err (CertStop.BadLine line) →
        (files : List NamedFile) → (O.moment outside.old).shelf.files ≡ Some files →
        cert_in n (bytes_of files name.now) ≡ Err line }
    // Where a read failed, no line that was read is refused.
    ensures undecided { result ≡ Err CertStop.Failed → (files : List NamedFile) →
        (O.moment outside.old).shelf.files ≡ Some files →
        StopsReading (CertHasRead n) (bytes_of files name.now)
        (O.moment outside.new).shelf.rest (O.moment outside.new).shelf.ended }
    ensures same { O.is_same outside.old outside.new }
    ensures only { OnlyReads (O.moment outside.old) (O.moment outside.new) }
    ensures opens { (O.moment outside.new).shelf.opens ≡ next_count (O.moment outside.old).shelf.opens }
    ensures failed { result ≡ Err CertStop.Failed →
        Rose (O.moment outside.old).shelf_faults (O.moment outside.new).shelf_faults }
    ensures no_fault { result ≢ Err CertStop.Failed →
        (O.moment outside.new).shelf_faults ≡ (O.moment outside.old).shelf_faults }
    ensures in_time { IsInTime (O.moment outside.old).shelf_late (O.moment outside.old).shelf_faults
        (O.moment outside.new).shelf_late }
{
    read_lines::<CertReader, O>(alloc, n, name, outside)
}

/// Reads the file of this name to its end or its first line that is refused, of the grid of side 2^n.
pub fn read_lines<R: LineReader, O: Outside>(
    alloc: Global,
    n: u32,
    name: &str,
    outside: &mut O,
) -> Result<R::Cert, CertStop>
    requires in_grid { (1 ≤ n) × (n ≤ GREATEST_LEVEL) }
    ensures ok { IfOk result (λ cert. (files : List NamedFile) → (O.moment outside.old).shelf.files ≡ Some files →
        R.file n (bytes_of files name.now) ≡ Ok cert) }
    ensures read { IfOk result (λ cert. R.IsRead n cert) }
    ensures bad_line { (line : ℕ) → result ≡ Err (CertStop.BadLine line) →
        (files : List NamedFile) → (O.moment outside.old).shelf.files ≡ Some files →
        R.file n (bytes_of files name.now) ≡ Err line }
    // Where a read failed, no line that was read is refused.
    ensures undecided { result ≡ Err CertStop.Failed → (files : List NamedFile) →
        (O.moment outside.old).shelf.files ≡ Some files →
        StopsReading (LinesHaveRead (R.step n) R.start) (bytes_of files name.now)
        (O.moment outside.new).shelf.rest (O.moment outside.new).shelf.ended }
    ensures same { O.is_same outside.old outside.new }
    ensures only { OnlyReads (O.moment outside.old) (O.moment outside.new) }
    ensures opens { (O.moment outside.new).shelf.opens ≡ next_count (O.moment outside.old).shelf.opens }
    ensures failed { result ≡ Err CertStop.Failed →
        Rose (O.moment outside.old).shelf_faults (O.moment outside.new).shelf_faults }
    ensures no_fault { result ≢ Err CertStop.Failed →
        (O.moment outside.new).shelf_faults ≡ (O.moment outside.old).shelf_faults }
    ensures in_time { IsInTime (O.moment outside.old).shelf_late (O.moment outside.old).shelf_faults
        (O.moment outside.new).shelf_late }
{
    let Ok(()) = outside.open_named(name) else {
        return Err(CertStop::Failed);
    };
    let mut stage = LineStage::<R>::new(alloc, n);
    let mut buffer = [0; PIECE];
    'pieces: loop {
        let Ok(count) = outside.read(&mut buffer) else {
            return Err(CertStop::Failed);
        };
        if count == 0 {
            return stage.end();
        }
        stage.take_piece(&buffer[..count])?;
    }
}
