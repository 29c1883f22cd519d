//! The command `certify check`: whether a certificate is sound, and a mesh the one that it is of.

ghost use Rattle.std.specs.Prelude.{◌≡◌, ◌^◌, ◌≤◌, ◌+◌, List, All, IfOk, None, Some, Ok, Err};
ghost use Rattle.mesh_defs.specs.Triangle.{IsAddress};
ghost use Rattle.roam_edge.specs.Shelf.{NamedFile, bytes_of};
ghost use Rattle.run_words.specs.Words.{OnGrid, Check};
ghost use Rattle.run_laws.specs.Outcome.{IsCheckOutcome};
ghost use Rattle.run_laws.specs.Promise.{HasEnded};
ghost use Rattle.run_laws.specs.Leaving.{RunsCommand, HasOpened};
ghost use Rattle.run_words.specs.CertifyView.{checking_seen, AreInBounds};
ghost use Rattle.run_certify.specs.Judging.{judged_status, mesh_opens, judged_outcome, IsJudged};
ghost use Rattle.run_certify.specs.Judging.{IsFaultlessFile, JudgesNoMemory, JudgesFault, NoMemoryBehind, FailsBehind};

use crate::mesh_file::{CheckStop, difference};
use crate::verdict_report::{Judgement, judgement_report};
use cert_text::Cert;
use certificate_laws::{Reject, Verdict};
use mesh_compare::difference_laws;
use roam_certify::check;
use run_files::{CertStop, Outside, end_with_text, grid_or_end, read_cert};
use run_laws::Status;
use run_words::CheckWords;
use std::alloc::Global;
use wedgie_tree::Wedges;

/// Carries out the command `certify check`. The first test that fails ends it: nothing further is opened or read.
pub fn run_check<O: Outside>(alloc: Global, words: &CheckWords<'_>, outside: &mut O) -> Status
    requires opens { (O.moment outside.old).shelf.opens ≤ 2 ^ 63 }
    requires bounds { AreInBounds words.now.budget words.now.spacing }
    ensures same { O.is_same outside.old outside.new }
    ensures runs { RunsCommand (O.moment outside.old) (O.moment outside.new)
        (Some (OnGrid words.now.grid.now (Check (checking_seen words.now)))) result None }
{
    match grid_or_end(alloc, words.grid, outside) {
        Ok(grid) => match Wedges::build(alloc, grid) {
            Ok(wedges) => match judge(alloc, &wedges, words, outside) {
                Ok(judgement) => end_with_text(
                    judgement_report(&judgement).as_slice(),
                    judgement.status(),
                    outside,
                ),
                Err(CheckStop::NoMemory) => Status::NoMemory,
                Err(CheckStop::Failed) => Status::ReadFault,
            },
            Err(_) => Status::NoMemory,
        },
        Err(status) => status,
    }
}

/// Reads the certificate, and judges it and the mesh.
fn judge<O: Outside>(
    alloc: Global,
    wedges: &Wedges,
    words: &CheckWords<'_>,
    outside: &mut O,
) -> Result<Judgement, CheckStop>
    requires opens { (O.moment outside.old).shelf.opens ≤ 2 ^ 63 + 1 }
    requires bounds { AreInBounds words.now.budget words.now.spacing }
    ensures same { O.is_same outside.old outside.new }
    ensures ok { IfOk result (λ judgement. (files : List NamedFile) → (O.moment outside.old).shelf.files ≡ Some files →
        IsJudged (checking_seen words.now) wedges.now files judgement) }
    ensures opened { IfOk result
        (λ judgement. HasOpened (O.moment outside.old) (O.moment outside.new) (1 + mesh_opens judgement)) }
    ensures ended { IfOk result (λ judgement. judged_status judgement ≡ Status.Done →
        HasEnded (O.moment outside.new).shelf) }
    ensures no_memory { result ≡ Err CheckStop.NoMemory →
        JudgesNoMemory (IsFaultlessFile (checking_seen words.now) wedges.now) (O.moment outside.old)
        (O.moment outside.new) }
    ensures failed { result ≡ Err CheckStop.Failed →
        JudgesFault (checking_seen words.now) wedges.now (O.moment outside.old) (O.moment outside.new) }
{
    match read_cert(alloc, wedges.grid().n(), words.certificate, outside) {
        Ok(cert) => judge_cert(alloc, wedges, &cert, words, outside),
        Err(CertStop::BadLine(line)) => Ok(Judgement::Rejected(Reject::BadLine { line })),
        Err(CertStop::NoMemory) => Err(CheckStop::NoMemory),
        Err(CertStop::Failed) => Err(CheckStop::Failed),
    }
}

/// Judges a certificate and, behind one without a fault, the mesh.
fn judge_cert<O: Outside>(
    alloc: Global,
    wedges: &Wedges,
    cert: &Cert,
    words: &CheckWords<'_>,
    outside: &mut O,
) -> Result<Judgement, CheckStop>
    requires opens { (O.moment outside.old).shelf.opens ≤ 2 ^ 63 + 2 }
    requires bounds { AreInBounds words.now.budget words.now.spacing }
    requires leaves { All (IsAddress wedges.now.n) cert.now.leaves }
    ensures same { O.is_same outside.old outside.new }
    ensures ok { IfOk result (λ judgement. (files : List NamedFile) → (O.moment outside.old).shelf.files ≡ Some files →
        IsCheckOutcome (checking_seen words.now) wedges.now (Ok cert.now) (bytes_of files words.now.mesh.now)
        (judged_outcome judgement)) }
    ensures opened { IfOk result
        (λ judgement. HasOpened (O.moment outside.old) (O.moment outside.new) (mesh_opens judgement)) }
    ensures ended { IfOk result (λ judgement. judged_status judgement ≡ Status.Done →
        HasEnded (O.moment outside.new).shelf) }
    ensures no_memory { result ≡ Err CheckStop.NoMemory →
        NoMemoryBehind (checking_seen words.now) wedges.now cert.now (O.moment outside.old) (O.moment outside.new) }
    ensures failed { result ≡ Err CheckStop.Failed →
        FailsBehind (checking_seen words.now) wedges.now cert.now (O.moment outside.old) (O.moment outside.new) }
{
    difference_laws();
    match check(alloc, wedges, cert, words.spacing, words.budget) {
        Ok(Verdict::Certified { triangles, worst }) => {
            match difference(
                alloc,
                wedges.grid(),
                cert.leaves(),
                words.mesh,
                words.spacing,
                outside,
            ) {
                Ok(None) => Ok(Judgement::Certified {
                    camera: cert.camera(),
                    triangles,
                    worst,
                }),
                Ok(Some(at)) => Ok(Judgement::Rejected(Reject::MeshDiffers { at })),
                Err(stop) => Err(stop),
            }
        }
        Ok(Verdict::Rejected { why }) => Ok(Judgement::Rejected(why)),
        Err(_) => Err(CheckStop::NoMemory),
    }
}
