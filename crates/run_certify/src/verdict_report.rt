//! What a check of a certificate and a mesh comes to, and its line.

ghost use Rattle.std.specs.Prelude.{◌≡◌, ◌+◌, ◌≤◌, ◌++◌};
ghost use Rattle.arrayvec.specs.ArrayVec.{array_vec_len};
ghost use Rattle.run_files.specs.declared.text.TheConstants.{TEXT_ROOM};
ghost use Rattle.cert_text.specs.CertText.{number_text};
ghost use Rattle.run_laws.specs.ReportText.{certified_line, reject_text, rejection};
ghost use Rattle.run_certify.specs.Judging.{judged_text, judged_status};

use arrayvec::ArrayVec;
use certificate_laws::Reject;
use roam_num::{dec, push_bytes, push_number};
use run_files::{Text, push_placed};
use run_laws::Status;
use view_priority::Camera;

/// What a check of a certificate and a mesh comes to.
#[derive(Clone, Copy)]
pub(crate) enum Judgement {
    /// The certificate is sound, and the mesh is the one that it is of.
    Certified {
        /// Where the mesh is seen from.
        camera: Camera,
        /// How many triangles it has.
        triangles: u32,
        /// The greatest priority of a triangle.
        worst: u64,
    },
    /// The first test that fails.
    Rejected(Reject),
}

impl Judgement {
    /// How a run ends that tells it.
    pub(crate) fn status(&self) -> Status
        ensures { result ≡ judged_status self.now }
    {
        match self {
            Judgement::Certified { .. } => Status::Done,
            Judgement::Rejected(_) => Status::Rejected,
        }
    }
}

/// The line of a judgement.
pub(crate) fn judgement_report(judgement: &Judgement) -> Text
    ensures { result.items ≡ judged_text judgement.now }
{
    match judgement {
        Judgement::Certified {
            camera,
            triangles,
            worst,
        } => certified_report(*camera, *triangles, *worst),
        Judgement::Rejected(why) => rejected_report(*why),
    }
}

/// The line of a mesh that is certified.
fn certified_report(camera: Camera, triangles: u32, worst: u64) -> Text
    ensures { result.items ≡ certified_line camera triangles worst }
{
    let mut text = ArrayVec::new();
    push_bytes(&mut text, b"certified camera");
    push_camera(&mut text, camera);
    push_bytes(&mut text, b" triangles ");
    push_number(&mut text, u64::from(triangles));
    push_bytes(&mut text, b" worst ");
    push_number(&mut text, worst);
    push_bytes(&mut text, b"\n");
    text
}

/// Appends the coordinates of a camera, each behind a blank.
fn push_camera(text: &mut Text, camera: Camera)
    requires room { array_vec_len text.old + 63 ≤ TEXT_ROOM }
    ensures items { text.new.items ≡
        text.old.items ++ number_text camera.x ++ number_text camera.y ++ number_text camera.z }
    ensures len { array_vec_len text.new ≤ array_vec_len text.old + 63 }
{
    push_coordinate(text, camera.x());
    push_coordinate(text, camera.y());
    push_coordinate(text, camera.z());
}

/// Appends a blank and a coordinate.
fn push_coordinate(text: &mut Text, value: i64)
    requires room { array_vec_len text.old + 21 ≤ TEXT_ROOM }
    ensures items { text.new.items ≡ text.old.items ++ number_text value }
    ensures len { array_vec_len text.new ≤ array_vec_len text.old + 21 }
{
    push_bytes(text, b" ");
    push_bytes(text, dec(value).as_slice());
}

/// The line of a certificate or a mesh that is rejected.
pub(crate) fn rejected_report(why: Reject) -> Text
    ensures { result.items ≡ rejection why }
{
    let mut text = ArrayVec::new();
    push_bytes(&mut text, b"rejected: ");
    push_reject(&mut text, why);
    push_bytes(&mut text, b"\n");
    text
}

/// Appends why a certificate or a mesh is rejected.
fn push_reject(text: &mut Text, why: Reject)
    requires room { array_vec_len text.old + 64 ≤ TEXT_ROOM }
    ensures items { text.new.items ≡ text.old.items ++ reject_text why }
    ensures len { array_vec_len text.new ≤ array_vec_len text.old + 64 }
{
    match why {
        Reject::BadLine { line } => push_placed(text, b"bad line ", u64::from(line)),
        Reject::NotConforming => push_bytes(text, b"not conforming"),
        Reject::OverBudget => push_bytes(text, b"over budget"),
        Reject::BadReason { index } => push_placed(text, b"bad reason ", u64::from(index)),
        Reject::TooFewReasons => push_bytes(text, b"too few reasons"),
        Reject::MeshDiffers { at } => push_placed(text, b"mesh differs at ", at),
    }
}
