//! A fitted mesh is judged by a certificate: of a mesh alone, or of one that keeps points.

ghost use Rattle.std.specs.Prelude.{ℕ, ◌≡◌, ◌^◌, ◌<◌, ◌≤◌, ◌+◌, ◌*◌, List, All, IfOk, None, Some, Ok, Err};
ghost use Rattle.std.specs.Prelude.{length};
ghost use Rattle.mesh_defs.specs.Triangle.{level_of};
ghost use Rattle.mesh_defs.specs.HeightField.{HeightField};
ghost use Rattle.mesh_defs.specs.declared.level.TheConstants.{GREATEST_LEVEL};
ghost use Rattle.roam_edge.specs.Shelf.{NamedFile, bytes_of};
ghost use Rattle.wedgie_tree.specs.declared.wedges.TheConstants.{GREATEST_SPACING};
ghost use Rattle.certificate_laws.specs.declared.fit_reason.FitVerdict.{FitVerdict};
ghost use Rattle.run_laws.specs.declared.status.Status.TheVariants.{Done};
ghost use Rattle.run_laws.specs.Fit.{fit_text};
ghost use Rattle.run_laws.specs.ReportText.{certified_fit_line};
ghost use Rattle.run_laws.specs.Outcome.{IsFitCheckOutcome, IsCompared};
ghost use Rattle.run_laws.specs.Promise.{HasEnded};
ghost use Rattle.run_laws.specs.Leaving.{HasOpened, HasFailed, MeshHasRead};
ghost use Rattle.run_files.specs.LineStage.{LinesHaveRead};
ghost use Rattle.run_certify.specs.Judging.{JudgesNoMemory};
ghost use Rattle.run_certify.specs.FitJudging.{fit_judged_status, fit_mesh_opens, judged_outcome, IsFaultlessFile};
ghost use Rattle.run_certify.specs.FitJudging.{NoMemoryBehind, FailsBehind, JudgesFault, EndsCheck};

use crate::fit_verdict_report::{Judgement, judgement_report};
use crate::mesh_file::{CheckStop, difference};
use bintree_addr::Tri;
use certificate_laws::FitVerdict;
use mesh_compare::difference_laws;
use pgm_grid::Grid;
use roam_edge::NoMemory;
use run_files::{CertStop, LineReader, Outside, end_with_text, read_lines};
use run_laws::Status;
use std::alloc::Global;

/// What certificates of type `C` are checked for.
pub(crate) trait FitCheck<C> {
    // It may be asked of a grid with this n.
    ghost IsFor: { Self → ℕ → Type 0 };

    // The verdict on a certificate over a grid, which has these triangles where it is sound.
    ghost IsVerdict: { Self → HeightField → C → FitVerdict → List ℕ → Type 0 };

    // These are the triangles of a certificate without a fault.
    ghost IsFaultless: { Self → HeightField → C → List ℕ → Type 0 };

    /// The verdict on a certificate.
    fn verdict(&self, alloc: Global, grid: &Grid, cert: &C) -> Result<FitVerdict, NoMemory>
        requires of_grid { IsFor self.now grid.now.n }
        ensures { IfOk result (λ verdict. (mesh : List ℕ) × IsVerdict self.now grid.now cert.now verdict mesh) };

    /// The triangles of a certificate without a fault.
    fn mesh(&self, alloc: Global, grid: &Grid, cert: &C) -> Result<Vec<Tri>, NoMemory>
        requires of_grid { IsFor self.now grid.now.n }
        ensures mesh { IfOk result (λ triangles. (mesh : List ℕ) → IsFaultless self.now grid.now cert.now mesh →
            triangles.items ≡ mesh) }
        ensures levels { IfOk result (λ triangles. All (λ a. level_of a ≤ 2 * grid.now.n) triangles.items) }
        ensures few { IfOk result (λ triangles. length triangles.items ≤ 2 ^ (2 * grid.now.n + 1)) };

    // One that is certified has no fault.
    ghost sound: { (check : Self) (grid : HeightField) (cert : C) (triangles deviation : ℕ) (mesh : List ℕ) →
        IsVerdict check grid cert (FitVerdict.Certified triangles deviation) mesh → IsFaultless check grid cert mesh };
}

/// Reads a certificate, and judges it and the mesh.
pub(crate) fn judge<R: LineReader, F: FitCheck<R::Cert>, O: Outside>(
    alloc: Global,
    grid: &Grid,
    check: &F,
    certificate: &str,
    mesh: &str,
    spacing: u32,
    outside: &mut O,
) -> Result<Judgement, CheckStop>
where
    R::Cert: Drop,
    requires opens { (O.moment outside.old).shelf.opens ≤ 2 ^ 63 + 2 }
    requires of_grid { F.IsFor check.now grid.now.n }
    requires spacing_low { 1 ≤ spacing }
    requires spacing_high { spacing ≤ GREATEST_SPACING }
    ensures same { O.is_same outside.old outside.new }
    // Behind so many files, the certificate counted.
    ensures ok { IfOk result (λ judgement. (files : List NamedFile) → (O.moment outside.old).shelf.files ≡ Some files →
        (count : ℕ) → IsFitCheckOutcome count spacing grid.now (F.IsVerdict check.now grid.now)
        (R.file grid.now.n (bytes_of files certificate.now)) (bytes_of files mesh.now)
        (judged_outcome count grid.now.n judgement)) }
    ensures opened { IfOk result
        (λ judgement. HasOpened (O.moment outside.old) (O.moment outside.new) (1 + fit_mesh_opens judgement)) }
    ensures ended { IfOk result (λ judgement. fit_judged_status judgement ≡ Done →
        HasEnded (O.moment outside.new).shelf) }
    ensures no_memory { result ≡ Err CheckStop.NoMemory →
        JudgesNoMemory (IsFaultlessFile certificate.now (R.file grid.now.n) (F.IsFaultless check.now grid.now))
        (O.moment outside.old) (O.moment outside.new) }
    ensures failed { result ≡ Err CheckStop.Failed →
        JudgesFault certificate.now mesh.now spacing grid.now (LinesHaveRead (R.step grid.now.n) R.start)
        (R.file grid.now.n) (F.IsFaultless check.now grid.now) (O.moment outside.old) (O.moment outside.new) }
{
    match read_lines::<R, O>(alloc, grid.n(), certificate, outside) {
        Ok(cert) => judge_cert(alloc, grid, check, &cert, mesh, spacing, outside),
        Err(CertStop::BadLine(line)) => Ok(Judgement::BadLine(line)),
        Err(CertStop::NoMemory) => Err(CheckStop::NoMemory),
        Err(CertStop::Failed) => Err(CheckStop::Failed),
    }
}

/// Judges a certificate and, behind one without a fault, the mesh.
fn judge_cert<C, F: FitCheck<C>, O: Outside>(
    alloc: Global,
    grid: &Grid,
    check: &F,
    cert: &C,
    name: &str,
    spacing: u32,
    outside: &mut O,
) -> Result<Judgement, CheckStop>
    requires opens { (O.moment outside.old).shelf.opens ≤ 2 ^ 63 + 3 }
    requires of_grid { F.IsFor check.now grid.now.n }
    requires spacing_low { 1 ≤ spacing }
    requires spacing_high { spacing ≤ GREATEST_SPACING }
    ensures same { O.is_same outside.old outside.new }
    ensures ok { IfOk result (λ judgement. (files : List NamedFile) → (O.moment outside.old).shelf.files ≡ Some files →
        (count : ℕ) → IsFitCheckOutcome count spacing grid.now (F.IsVerdict check.now grid.now) (Ok cert.now)
        (bytes_of files name.now) (judged_outcome count grid.now.n judgement)) }
    ensures opened { IfOk result
        (λ judgement. HasOpened (O.moment outside.old) (O.moment outside.new) (fit_mesh_opens judgement)) }
    ensures ended { IfOk result (λ judgement. fit_judged_status judgement ≡ Done →
        HasEnded (O.moment outside.new).shelf) }
    ensures no_memory { result ≡ Err CheckStop.NoMemory →
        NoMemoryBehind (F.IsFaultless check.now grid.now cert.now) (O.moment outside.old) (O.moment outside.new) }
    ensures failed { result ≡ Err CheckStop.Failed →
        FailsBehind name.now spacing grid.now (F.IsFaultless check.now grid.now cert.now) (O.moment outside.old)
        (O.moment outside.new) }
{
    let _level = grid.n();
    match check.verdict(alloc, grid, cert) {
        Ok(
            FitVerdict::Certified {
                triangles,
                deviation,
            },
        ) => match check.mesh(alloc, grid, cert) {
            Ok(mesh) => judge_mesh(
                alloc,
                grid,
                &mesh,
                (triangles, deviation),
                name,
                spacing,
                outside,
            ),
            Err(_) => Err(CheckStop::NoMemory),
        },
        Ok(FitVerdict::Rejected { why }) => Ok(Judgement::Rejected(why)),
        Err(_) => Err(CheckStop::NoMemory),
    }
}

/// Judges the file of a mesh beside the text of these triangles, which are so many and off by so much.
fn judge_mesh<O: Outside>(
    alloc: Global,
    grid: &Grid,
    mesh: &[Tri],
    numbers: (u32, u32),
    name: &str,
    spacing: u32,
    outside: &mut O,
) -> Result<Judgement, CheckStop>
    requires opens { (O.moment outside.old).shelf.opens ≤ 2 ^ 63 + 3 }
    requires spacing_low { 1 ≤ spacing }
    requires spacing_high { spacing ≤ GREATEST_SPACING }
    requires levels { All (λ a. level_of a ≤ 2 * grid.now.n) mesh.now }
    requires few { length mesh.now < 2 ^ 31 }
    ensures same { O.is_same outside.old outside.new }
    // Behind so many files.
    ensures ok { IfOk result (λ judgement. (files : List NamedFile) → (O.moment outside.old).shelf.files ≡ Some files →
        (before : ℕ) → IsCompared (before + 1) (bytes_of files name.now) (fit_text spacing grid.now mesh.now)
        (certified_fit_line grid.now.n numbers.0 numbers.1) (judged_outcome before grid.now.n judgement)) }
    ensures opened { IfOk result
        (λ judgement. HasOpened (O.moment outside.old) (O.moment outside.new) (fit_mesh_opens judgement)) }
    ensures ended { IfOk result (λ judgement. fit_judged_status judgement ≡ Done →
        HasEnded (O.moment outside.new).shelf) }
    ensures no_memory { result ≡ Err CheckStop.NoMemory →
        HasOpened (O.moment outside.old) (O.moment outside.new) 1 }
    ensures failed { result ≡ Err CheckStop.Failed → HasFailed (O.moment outside.old) (O.moment outside.new) 1
        name.now (MeshHasRead (fit_text spacing grid.now mesh.now)) }
{
    difference_laws();
    match difference(alloc, grid, mesh, name, spacing, outside) {
        Ok(None) => Ok(Judgement::Certified {
            triangles: numbers.0,
            deviation: numbers.1,
        }),
        Ok(Some(at)) => Ok(Judgement::MeshDiffers(at)),
        Err(stop) => Err(stop),
    }
}

/// Ends a check over the grid of side 2^n by what it came to.
pub(crate) fn end_check<O: Outside>(
    n: u32,
    judged: Result<Judgement, CheckStop>,
    outside: &mut O,
) -> Status
    requires in_grid { n ≤ GREATEST_LEVEL }
    ensures same { O.is_same outside.old outside.new }
    ensures ends { EndsCheck n judged (O.moment outside.old) (O.moment outside.new) result }
{
    match judged {
        Ok(judgement) => end_with_text(
            judgement_report(n, &judgement).as_slice(),
            judgement.status(),
            outside,
        ),
        Err(CheckStop::NoMemory) => Status::NoMemory,
        Err(CheckStop::Failed) => Status::ReadFault,
    }
}
