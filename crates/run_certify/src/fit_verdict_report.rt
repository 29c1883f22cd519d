//! What a check of a fitted mesh by a certificate comes to, and its line.

ghost use Rattle.std.specs.Prelude.{◌≡◌, ◌+◌, ◌≤◌, ◌++◌};
ghost use Rattle.arrayvec.specs.ArrayVec.{array_vec_len};
ghost use Rattle.mesh_defs.specs.declared.level.TheConstants.{GREATEST_LEVEL};
ghost use Rattle.run_files.specs.declared.text.TheConstants.{TEXT_ROOM};
ghost use Rattle.run_laws.specs.ReportText.{certified_fit_line, fit_reject_text, fit_rejection};
ghost use Rattle.run_certify.specs.FitJudging.{fit_judged_text, fit_judged_status};

use crate::verdict_report;
use arrayvec::ArrayVec;
use certificate_laws::{FitReject, Reject};
use roam_num::{push_bytes, push_decimal};
use run_files::{Text, push_placed};
use run_laws::Status;

/// What a check of a fitted mesh by a certificate comes to.
#[derive(Clone, Copy)]
pub(crate) enum Judgement {
    /// The certificate is sound, and the mesh is the one that it is of.
    Certified {
        /// How many triangles the mesh has.
        triangles: u32,
        /// How far the surface is from it at a grid point, at most, in units of height, times 2^n.
        deviation: u32,
    },
    /// The certificate is not sound: the first test that fails.
    Rejected(FitReject),
    /// This line of the certificate, counted from 1, may not stand where it does.
    BadLine(u32),
    /// At this place, counted from 0, the mesh differs from that of the certificate.
    MeshDiffers(u64),
}

impl Judgement {
    /// How a run ends that tells it.
    pub(crate) fn status(&self) -> Status
        ensures { result ≡ fit_judged_status self.now }
    {
        match self {
            Judgement::Certified { .. } => Status::Done,
            _ => Status::Rejected,
        }
    }
}

/// The line of a judgement over the grid of side 2^n.
pub(crate) fn judgement_report(n: u32, judgement: &Judgement) -> Text
    requires in_grid { n ≤ GREATEST_LEVEL }
    ensures { result.items ≡ fit_judged_text n judgement.now }
{
    match judgement {
        Judgement::Certified {
            triangles,
            deviation,
        } => certified_report(n, *triangles, *deviation),
        Judgement::Rejected(why) => rejected_report(*why),
        Judgement::BadLine(line) => verdict_report::rejected_report(Reject::BadLine {
            line: *line,
        }),
        Judgement::MeshDiffers(at) => verdict_report::rejected_report(Reject::MeshDiffers {
            at: *at,
        }),
    }
}

/// The line of a fitted mesh that is certified.
fn certified_report(n: u32, triangles: u32, deviation: u32) -> Text
    requires in_grid { n ≤ GREATEST_LEVEL }
    ensures { result.items ≡ certified_fit_line n triangles deviation }
{
    let mut text = ArrayVec::new();
    push_placed(&mut text, b"certified fit triangles ", u64::from(triangles));
    push_placed(&mut text, b" deviation ", u64::from(deviation));
    push_placed(&mut text, b" over ", 2u64.pow(n));
    push_bytes(&mut text, b" error ");
    push_decimal(&mut text, deviation, n);
    push_bytes(&mut text, b"\n");
    text
}

/// The line of a certificate that is rejected.
fn rejected_report(why: FitReject) -> Text
    ensures { result.items ≡ fit_rejection why }
{
    let mut text = ArrayVec::new();
    push_bytes(&mut text, b"rejected: ");
    push_reject(&mut text, why);
    push_bytes(&mut text, b"\n");
    text
}

/// Appends why a certificate is rejected.
fn push_reject(text: &mut Text, why: FitReject)
    requires room { array_vec_len text.old + 64 ≤ TEXT_ROOM }
    ensures items { text.new.items ≡ text.old.items ++ fit_reject_text why }
    ensures len { array_vec_len text.new ≤ array_vec_len text.old + 64 }
{
    match why {
        FitReject::OtherTolerance => push_bytes(text, b"other tolerance"),
        FitReject::BadReason { index } => push_placed(text, b"bad reason ", u64::from(index)),
        FitReject::OverTolerance => push_bytes(text, b"over tolerance"),
        FitReject::OverBudget => push_bytes(text, b"over budget"),
        FitReject::TooFewReasons => push_bytes(text, b"too few reasons"),
    }
}
