//! The reader of file texts.

ghost use Rattle.std.specs.Prelude.{◌≡◌, ◌≢◌, ◌⊎◌, ◌+◌, ◌^◌, ◌≤◌, [], ◌++◌, List, ℕ, length, OnOk, IfOk, IfErr};
ghost use Rattle.std.specs.Result.{IsErrOf};
ghost use Rattle.mesh_defs.specs.declared.level.TheConstants.{GREATEST_FILE_LEVEL};
ghost use Rattle.pgm_grid.specs.declared.raster_plain.TheConstants.{MOST_BYTES};
ghost use Rattle.pgm_grid.specs.Progress.{resume, grid_of, taken, StaysRefused, EndsHeader};

use crate::fault::PgmFault;
use crate::grid::Grid;
use crate::header_reader::HeaderReader;
use crate::stage::{Stage, last_answer, stage_after};
use std::alloc::Global;
use std::marker::Model;
use std::mem;

/// A reader of the bytes of a PGM file, in pieces of any length.
///
/// After a refusal it answers the same refusal from every later call.
/// Cost (not proved): a few steps a byte, of raw rasters by lanes; memory for the heights is taken once,
/// where the header ends.
/// Source: Netpbm manual, "pgm"; the sides, where comments may stand and the limits of length are this
/// project's own.
#[derive(Drop)]
pub struct PgmReader {
    /// Where the room for the heights comes from.
    alloc: Global,
    /// What the bytes so far have come to.
    stage: Stage,
}

impl Model for PgmReader {
    ghost use Rattle.pgm_grid.specs.Progress.{Progress};

    ghost Value = { Progress };

    ghost use Rattle.pgm_grid.specs.Stage.{progress_of, IsStage};

    ghost view = { λ r. progress_of r.stage };

    ghost invariant = { λ r. IsStage r.stage };
}

impl PgmReader {
    /// A reader that has taken no byte. The room for the heights will come from `alloc`.
    pub fn new(alloc: Global) -> PgmReader
        ensures value { (more : List ℕ) → resume result more ≡ grid_of more }
        ensures count { taken result ≡ 0 }
    {
        PgmReader {
            alloc,
            stage: Stage::InHeader(HeaderReader::new()),
        }
    }

    /// Takes further bytes of the file.
    ///
    /// A refusal comes with the piece that brings the byte that is refused, and neither before nor after.
    pub fn feed(&mut self, piece: &[u8]) -> Result<(), PgmFault>
        // What the bytes mean together is not changed by where they are cut.
        ensures ok { OnOk result ((more : List ℕ) → resume self.old (piece.now ++ more) ≡ resume self.new more) }
        // No byte so far is refused.
        ensures unsettled { OnOk result ((fault : PgmFault) → ¬ StaysRefused self.new fault) }
        ensures count { OnOk result (taken self.new ≡ taken self.old + length piece.now) }
        // No more bytes are taken, so a loop that feeds what is still to come ends.
        ensures limit { OnOk result (taken self.new ≤ MOST_BYTES) }
        // The refusal is that of the file, whatever still comes.
        ensures refusal { IfErr result (λ fault. fault ≢ PgmFault.NoMemory →
            (more : List ℕ) → resume self.old (piece.now ++ more) ≡ Err fault) }
        // The room is wanted once: where the text of an accepted header ends, which is within its limit.
        ensures no_memory { IsErrOf result PgmFault.NoMemory →
            StaysRefused self.old PgmFault.NoMemory ⊎ EndsHeader self.old piece.now }
        ensures err { IfErr result (λ fault. StaysRefused self.new fault) }
        ensures sticks { (fault : PgmFault) → StaysRefused self.old fault → result ≡ Err fault }
    {
        let stage = mem::replace(&mut self.stage, Stage::Stopped(PgmFault::Truncated));
        match stage_after(self.alloc, stage, piece) {
            Ok(next) => {
                self.stage = next;
                Ok(())
            }
            Err(fault) => {
                self.stage = Stage::Stopped(fault);
                Err(fault)
            }
        }
    }

    /// Ends the bytes of the file.
    pub fn finish(self) -> Result<Grid, PgmFault>
        ensures value { result ≡ resume self [] }
        ensures level { IfOk result (λ grid. grid.n ≤ GREATEST_FILE_LEVEL) }
    {
        last_answer(self.stage)
    }
}
