//! The command `certify check-fit` where the mesh keeps points: whether a certificate of such a mesh is sound, and a
//! mesh the one that it is of.

ghost use Rattle.std.specs.Prelude.{◌^◌, ◌≤◌, All, None, Some};
ghost use Rattle.bintree_laws.specs.Corners.{IsInSquare};
ghost use Rattle.certificate_laws.specs.Keeping.{IsKeptSound, IsKeptVerdictOf};
ghost use Rattle.run_words.specs.Words.{OnGrid, CheckKept};
ghost use Rattle.run_words.specs.FitView.{kept_checking_seen, AreKeptBounds};
ghost use Rattle.run_laws.specs.Leaving.{RunsCommand};

use crate::fit_judging::{FitCheck, end_check, judge};
use crate::fit_target::tolerance;
use crate::points::points_or_end;
use bintree_addr::{Point, Tri};
use cert_text::KeptCertReader;
use certificate_laws::{FitVerdict, KeptCert};
use fit_certify::{check_kept, mesh_of_kept};
use pgm_grid::Grid;
use roam_edge::NoMemory;
use run_files::{Outside, grid_or_end};
use run_laws::Status;
use run_words::KeptCheckWords;
use std::alloc::Global;

/// Carries out the command `certify check-fit` that keeps points. The first test that fails ends it: nothing further is
/// opened or read.
pub fn run_kept_check<O: Outside>(
    alloc: Global,
    words: &KeptCheckWords<'_>,
    outside: &mut O,
) -> Status
    requires opens { (O.moment outside.old).shelf.opens ≤ 2 ^ 63 }
    requires bounds { AreKeptBounds words.now.thousandths words.now.spacing }
    ensures same { O.is_same outside.old outside.new }
    ensures runs { RunsCommand (O.moment outside.old) (O.moment outside.new)
        (Some (OnGrid words.now.grid.now (CheckKept (kept_checking_seen words.now)))) result None }
{
    let grid = match grid_or_end(alloc, words.grid, outside) {
        Ok(grid) => grid,
        Err(status) => return status,
    };
    let points = match points_or_end(alloc, &grid, words.points, outside) {
        Ok(points) => points,
        Err(status) => return status,
    };
    let n = grid.n();
    let target = KeptTarget {
        tolerance: tolerance(words.thousandths, n),
        points: &points,
    };
    let judged = judge::<KeptCertReader, KeptTarget<'_>, O>(
        alloc,
        &grid,
        &target,
        words.certificate,
        words.mesh,
        words.spacing,
        outside,
    );
    end_check(n, judged, outside)
}

/// An error, and the points that a mesh has to keep.
#[derive(Drop)]
pub(crate) struct KeptTarget<'a> {
    /// In units of height, times 2^n.
    tolerance: u32,
    /// Points of the grid.
    points: &'a [Point],
}

impl FitCheck<KeptCert> for KeptTarget<'_> {
    ghost IsFor = { λ target n. All (IsInSquare (2 ^ n)) target.points.now };

    ghost IsVerdict = { λ target grid cert is mesh.
        IsKeptVerdictOf grid.n grid.heights target.points.now target.tolerance cert is mesh };

    ghost IsFaultless = { λ target grid cert mesh.
        IsKeptSound grid.n grid.heights target.points.now target.tolerance cert mesh };

    ghost sound = { λ target grid cert triangles deviation mesh is. is.0 };

    fn verdict(&self, alloc: Global, grid: &Grid, cert: &KeptCert) -> Result<FitVerdict, NoMemory> {
        check_kept(alloc, grid, cert, self.tolerance, self.points)
    }

    fn mesh(&self, alloc: Global, grid: &Grid, cert: &KeptCert) -> Result<Vec<Tri>, NoMemory> {
        mesh_of_kept(alloc, grid, cert)
    }
}
