//! What the bytes so far have come to, and what further bytes make of it.

ghost use Rattle.std.specs.Prelude.{◌≡◌, ◌≢◌, ◌<◌, ◌≤◌, ◌+◌, ◌++◌, ℕ, List, [], length, drop, IfOk, IfErr, Err};
ghost use Rattle.mesh_defs.specs.declared.level.TheConstants.{GREATEST_FILE_LEVEL};
ghost use Rattle.pgm_grid.specs.declared.header_reader.TheConstants.{MOST_HEADER_BYTES};
ghost use Rattle.pgm_grid.specs.AcceptedHeader.{IsHeader};
ghost use Rattle.pgm_grid.specs.PgmText.{form_of};
ghost use Rattle.pgm_grid.specs.Progress.{InHeader, InRaster, header_fault, raster_fault, resume, grid_answer};
ghost use Rattle.pgm_grid.specs.Progress.{samples_at};
ghost use Rattle.pgm_grid.specs.Stage.{progress_of, IsOpenHeader, IsReaderFor, IsStage, Takes, Stops, BeginsRaster};

use crate::accepted_header::Header;
use crate::fault::PgmFault;
use crate::grid::{Grid, points_for};
use crate::header_fault::HeaderFault;
use crate::header_reader::HeaderReader;
use crate::header_texts::header_laws;
use crate::raster_fault::RasterFault;
use crate::raster_form::RasterForm;
use crate::raster_reader::RasterReader;
use crate::raster_texts::raster_laws;
use std::alloc::Global;

/// What the bytes so far have come to.
#[derive(Drop)]
pub(crate) enum Stage {
    /// They are a part of a header.
    InHeader(HeaderReader),
    /// They are a header and a part of its raster.
    InRaster(Header, RasterReader),
    /// They are refused.
    Stopped(PgmFault),
}

/// What further bytes make of a stage.
pub(crate) fn stage_after(alloc: Global, stage: Stage, piece: &[u8]) -> Result<Stage, PgmFault>
    requires { IsStage stage }
    ensures valid { IfOk result IsStage }
    ensures takes { IfOk result (λ next. Takes (progress_of stage) (progress_of next) piece.now) }
    ensures stops { IfErr result (λ fault. Stops (progress_of stage) piece.now fault) }
{
    match stage {
        Stage::InHeader(reader) => header_after(alloc, reader, piece),
        Stage::InRaster(header, reader) => raster_after(header, reader, piece),
        Stage::Stopped(fault) => Err(fault),
    }
}

/// What further bytes make of a part of a header.
fn header_after(alloc: Global, mut reader: HeaderReader, piece: &[u8]) -> Result<Stage, PgmFault>
    requires { IsOpenHeader reader }
    ensures valid { IfOk result IsStage }
    ensures takes { IfOk result (λ next. Takes (InHeader reader) (progress_of next) piece.now) }
    ensures stops { IfErr result (λ fault. Stops (InHeader reader) piece.now fault) }
{
    header_laws();
    for i in 0..piece.len() {
        match reader.take(piece[i]) {
            Ok(None) => {}
            Ok(Some(header)) => {
                let at = u64::from(reader.place()) + 1;
                let rest = bytes_behind(piece, i);
                return raster_begun(alloc, header, at, rest);
            }
            Err(fault) => return Err(fault_of_header(fault)),
        }
    }
    Ok(Stage::InHeader(reader))
}

/// The bytes of a piece behind the one at this index.
fn bytes_behind(piece: &[u8], index: usize) -> &[u8]
    requires { index < length piece.now }
    ensures { result.now ≡ drop (index + 1) piece.now }
{
    &piece[index + 1..]
}

/// What the bytes after a header make, if there is room for the heights. The first has this place.
fn raster_begun(alloc: Global, header: Header, at: u64, rest: &[u8]) -> Result<Stage, PgmFault>
    requires valid { IsHeader header }
    requires place { at ≤ MOST_HEADER_BYTES }
    ensures valid { IfOk result IsStage }
    // As if the raster's first bytes came to a reader that has taken none.
    ensures takes { IfOk result (λ next. BeginsRaster header at rest.now (progress_of next)) }
    ensures stops { IfErr result (λ fault. fault ≢ PgmFault.NoMemory →
        (more : List ℕ) → grid_answer header (samples_at header at (rest.now ++ more)) ≡ Err fault) }
{
    raster_laws();
    let form = form_for(&header);
    let count = points_for(header.n);
    match RasterReader::new(alloc, form, count, header.maxval, at) {
        Ok(reader) => raster_after(header, reader, rest),
        Err(_) => Err(PgmFault::NoMemory),
    }
}

/// What further bytes make of a part of a raster.
fn raster_after(header: Header, mut reader: RasterReader, piece: &[u8]) -> Result<Stage, PgmFault>
    requires { IsReaderFor header reader }
    ensures valid { IfOk result IsStage }
    ensures takes { IfOk result (λ next. Takes (InRaster header reader) (progress_of next) piece.now) }
    ensures refusal { IfErr result (λ fault. (more : List ℕ) →
        resume (InRaster header reader) (piece.now ++ more) ≡ Err fault) }
    ensures room { IfErr result (λ fault. fault ≢ PgmFault.NoMemory) }
{
    match reader.feed(piece) {
        Ok(()) => Ok(Stage::InRaster(header, reader)),
        Err(fault) => Err(fault_of_raster(fault)),
    }
}

/// The form of the raster behind a header.
fn form_for(header: &Header) -> RasterForm
    ensures { result ≡ form_of header.now.plain header.now.maxval }
{
    if header.plain {
        RasterForm::Plain
    } else if header.maxval < 256 {
        RasterForm::Bytes
    } else {
        RasterForm::Words
    }
}

/// A refusal of the header, as one of the file.
fn fault_of_header(fault: HeaderFault) -> PgmFault
    ensures { result ≡ header_fault fault }
{
    match fault {
        HeaderFault::BadMagic => PgmFault::BadMagic,
        HeaderFault::BadHeader { at } => PgmFault::BadHeader { at },
        HeaderFault::HeaderTooLong => PgmFault::HeaderTooLong,
        HeaderFault::BadMaxval => PgmFault::BadMaxval,
        HeaderFault::NotSquare => PgmFault::NotSquare,
        HeaderFault::BadSide => PgmFault::BadSide,
    }
}

/// A refusal of the raster, as one of the file.
fn fault_of_raster(fault: RasterFault) -> PgmFault
    ensures { result ≡ raster_fault fault }
{
    match fault {
        RasterFault::BadSample { at } => PgmFault::BadSample { at },
        RasterFault::AboveMaxval { index } => PgmFault::AboveMaxval { index },
        RasterFault::Trailing { at } => PgmFault::Trailing { at },
        RasterFault::Truncated => PgmFault::Truncated,
        RasterFault::TooLong => PgmFault::TooLong,
    }
}

/// The answer if no byte comes any more.
pub(crate) fn last_answer(stage: Stage) -> Result<Grid, PgmFault>
    requires { IsStage stage }
    ensures value { result ≡ resume (progress_of stage) [] }
    ensures level { IfOk result (λ grid. grid.n ≤ GREATEST_FILE_LEVEL) }
{
    match stage {
        Stage::InHeader(_) => Err(PgmFault::Truncated),
        Stage::InRaster(header, reader) => grid_from(header, reader),
        Stage::Stopped(fault) => Err(fault),
    }
}

/// The grid of a header and its raster, if the raster is whole.
fn grid_from(header: Header, reader: RasterReader) -> Result<Grid, PgmFault>
    requires { IsReaderFor header reader }
    ensures value { result ≡ resume (InRaster header reader) [] }
    ensures level { IfOk result (λ grid. grid.n ≤ GREATEST_FILE_LEVEL) }
{
    match reader.finish() {
        Ok(heights) => Ok(Grid {
            n: header.n,
            maxval: header.maxval,
            heights,
        }),
        Err(fault) => Err(fault_of_raster(fault)),
    }
}
