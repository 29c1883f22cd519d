//! The command `certify make-fit`: the certificate of a fitted mesh.

ghost use Rattle.std.specs.Prelude.{◌^◌, ◌≤◌, None, Some, IfOk};
ghost use Rattle.mesh_defs.specs.declared.level.TheConstants.{GREATEST_FILE_LEVEL};
ghost use Rattle.cert_text.specs.FitCertText.{fit_cert_text};
ghost use Rattle.run_words.specs.Words.{OnGrid, MakeFit};
ghost use Rattle.run_laws.specs.Certify.{IsFitMade};
ghost use Rattle.run_laws.specs.Leaving.{RunsCommand, TellsLast};
ghost use Rattle.run_words.specs.FitView.{fit_making_seen, AreFitBounds};

use crate::fit_target::target_in;
use certificate_laws::FitCert;
use fit_certify::make;
use pgm_grid::Grid;
use roam_edge::NoMemory;
use run_files::{Outside, grid_or_end};
use run_laws::Status;
use run_words::FitMakeWords;
use std::alloc::Global;

/// Carries out the command `certify make-fit`. All memory is taken before the first byte is written.
pub fn run_fit_make<O: Outside>(alloc: Global, words: &FitMakeWords<'_>, outside: &mut O) -> Status
    requires opens { (O.moment outside.old).shelf.opens ≤ 2 ^ 63 }
    requires bounds { AreFitBounds words.now.goal words.now.spacing }
    ensures same { O.is_same outside.old outside.new }
    ensures runs { RunsCommand (O.moment outside.old) (O.moment outside.new)
        (Some (OnGrid words.now.grid.now (MakeFit (fit_making_seen words.now)))) result None }
{
    match grid_or_end(alloc, words.grid, outside) {
        Ok(grid) => match certificate_of(alloc, &grid, words) {
            Ok(cert) => end_with_cert(&cert, outside),
            Err(_) => Status::NoMemory,
        },
        Err(status) => status,
    }
}

/// The certificate of the mesh of a grid that is fitted to the target of the words.
fn certificate_of(alloc: Global, grid: &Grid, words: &FitMakeWords<'_>) -> Result<FitCert, NoMemory>
    requires level { grid.now.n ≤ GREATEST_FILE_LEVEL }
    requires bounds { AreFitBounds words.now.goal words.now.spacing }
    ensures { IfOk result (λ cert. IsFitMade (fit_making_seen words.now) grid.now cert) }
{
    let target = target_in(words.goal, grid.n());
    make(alloc, grid, target)
}

/// Writes a certificate, the last text of a run.
fn end_with_cert<O: Outside>(cert: &FitCert, outside: &mut O) -> Status
    ensures same { O.is_same outside.old outside.new }
    ensures tells { TellsLast (O.moment outside.old) (O.moment outside.new)
        (fit_cert_text cert.now) Status.Done result }
{
    match outside.tell_fit_cert(cert) {
        Ok(()) => Status::Done,
        Err(_) => Status::WriteFault,
    }
}
