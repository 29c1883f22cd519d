//! The command `certify make-fit` where the mesh keeps points: the certificate of such a mesh.

ghost use Rattle.std.specs.Prelude.{◌^◌, ◌≤◌, None, Some, All, IfOk, length};
ghost use Rattle.mesh_defs.specs.declared.level.TheConstants.{GREATEST_FILE_LEVEL};
ghost use Rattle.bintree_laws.specs.Corners.{IsInSquare};
ghost use Rattle.roam_script.specs.PointText.{most_points as most_points_seen};
ghost use Rattle.cert_text.specs.KeptCert.{kept_cert_text};
ghost use Rattle.run_words.specs.Words.{OnGrid, MakeKept};
ghost use Rattle.run_laws.specs.Certify.{IsKeptMade};
ghost use Rattle.run_laws.specs.Leaving.{RunsCommand, TellsLast};
ghost use Rattle.run_words.specs.FitView.{kept_making_seen, AreKeptBounds};

use crate::fit_target::tolerance;
use crate::points::points_or_end;
use bintree_addr::Point;
use certificate_laws::KeptCert;
use fit_certify::make_kept;
use pgm_grid::Grid;
use roam_edge::NoMemory;
use run_files::{Outside, grid_or_end};
use run_laws::Status;
use run_words::KeptMakeWords;
use std::alloc::Global;

/// Carries out the command `certify make-fit` that keeps points. All memory is taken before the first byte is written,
/// and none while the points are read.
pub fn run_kept_make<O: Outside>(
    alloc: Global,
    words: &KeptMakeWords<'_>,
    outside: &mut O,
) -> Status
    requires opens { (O.moment outside.old).shelf.opens ≤ 2 ^ 63 }
    requires bounds { AreKeptBounds words.now.thousandths words.now.spacing }
    ensures same { O.is_same outside.old outside.new }
    ensures runs { RunsCommand (O.moment outside.old) (O.moment outside.new)
        (Some (OnGrid words.now.grid.now (MakeKept (kept_making_seen words.now)))) result None }
{
    match grid_or_end(alloc, words.grid, outside) {
        Ok(grid) => match points_or_end(alloc, &grid, words.points, outside) {
            Ok(points) => match certificate_of(alloc, &grid, &points, words) {
                Ok(cert) => end_with_cert(&cert, outside),
                Err(_) => Status::NoMemory,
            },
            Err(status) => status,
        },
        Err(status) => status,
    }
}

/// The certificate of the mesh of a grid that is fitted to the error of the words and keeps these points.
fn certificate_of(
    alloc: Global,
    grid: &Grid,
    points: &[Point],
    words: &KeptMakeWords<'_>,
) -> Result<KeptCert, NoMemory>
    requires level { grid.now.n ≤ GREATEST_FILE_LEVEL }
    requires bounds { AreKeptBounds words.now.thousandths words.now.spacing }
    requires inside { All (IsInSquare (2 ^ grid.now.n)) points.now }
    requires few { length points.now ≤ most_points_seen grid.now.n }
    ensures { IfOk result (λ cert. IsKeptMade (kept_making_seen words.now) points.now grid.now cert) }
{
    let tolerance = tolerance(words.thousandths, grid.n());
    make_kept(alloc, grid, tolerance, points)
}

/// Writes a certificate, the last text of a run.
fn end_with_cert<O: Outside>(cert: &KeptCert, outside: &mut O) -> Status
    ensures same { O.is_same outside.old outside.new }
    ensures tells { TellsLast (O.moment outside.old) (O.moment outside.new)
        (kept_cert_text cert.now) Status.Done result }
{
    match outside.tell_kept_cert(cert) {
        Ok(()) => Status::Done,
        Err(_) => Status::WriteFault,
    }
}
