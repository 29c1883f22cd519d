//! The command `certify check-fit`: whether a certificate of a fitted mesh is sound, and a mesh the one that it is of.

ghost use Rattle.std.specs.Prelude.{◌^◌, ◌≤◌, None, Some};
ghost use Rattle.certificate_laws.specs.FitCertificate.{IsFitSound, IsVerdictOf};
ghost use Rattle.run_words.specs.Words.{OnGrid, CheckFit};
ghost use Rattle.run_words.specs.FitView.{fit_checking_seen, AreFitBounds};
ghost use Rattle.run_laws.specs.Leaving.{RunsCommand};

use crate::fit_judging::{FitCheck, end_check, judge};
use crate::fit_target::target_in;
use bintree_addr::Tri;
use cert_text::FitCertReader;
use certificate_laws::{FitCert, FitVerdict, Target};
use fit_certify::{check, mesh_of};
use pgm_grid::Grid;
use roam_edge::NoMemory;
use run_files::{Outside, grid_or_end};
use run_laws::Status;
use run_words::FitCheckWords;
use std::alloc::Global;

/// Carries out the command `certify check-fit`. The first test that fails ends it: nothing further is opened or read.
pub fn run_fit_check<O: Outside>(
    alloc: Global,
    words: &FitCheckWords<'_>,
    outside: &mut O,
) -> Status
    requires opens { (O.moment outside.old).shelf.opens ≤ 2 ^ 63 }
    requires bounds { AreFitBounds words.now.goal words.now.spacing }
    ensures same { O.is_same outside.old outside.new }
    ensures runs { RunsCommand (O.moment outside.old) (O.moment outside.new)
        (Some (OnGrid words.now.grid.now (CheckFit (fit_checking_seen words.now)))) result None }
{
    let grid = match grid_or_end(alloc, words.grid, outside) {
        Ok(grid) => grid,
        Err(status) => return status,
    };
    let n = grid.n();
    let target = target_in(words.goal, n);
    let judged = judge::<FitCertReader, Target, O>(
        alloc,
        &grid,
        &target,
        words.certificate,
        words.mesh,
        words.spacing,
        outside,
    );
    end_check(n, judged, outside)
}

impl FitCheck<FitCert> for Target {
    ghost IsFor = { λ _ _. Unit {0} };

    ghost IsVerdict = { λ target grid cert is mesh. IsVerdictOf grid.n grid.heights target cert is mesh };

    ghost IsFaultless = { λ target grid cert mesh. IsFitSound grid.n grid.heights target cert mesh };

    ghost sound = { λ target grid cert triangles deviation mesh is. is.0 };

    fn verdict(&self, alloc: Global, grid: &Grid, cert: &FitCert) -> Result<FitVerdict, NoMemory> {
        check(alloc, grid, cert, *self)
    }

    fn mesh(&self, alloc: Global, grid: &Grid, cert: &FitCert) -> Result<Vec<Tri>, NoMemory> {
        mesh_of(alloc, grid, cert)
    }
}
