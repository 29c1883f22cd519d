//! Writing a certificate of a fitted mesh.

ghost use Rattle.std.specs.Prelude.{◌≡◌, ◌++◌, OnOk, OnErr};
ghost use Rattle.roam_edge.specs.Fault.{HasCause, IsInTime};
ghost use Rattle.roam_edge.specs.Sink.{Appends};
ghost use Rattle.cert_text.specs.FitCertText.{fit_cert_text};
ghost use Rattle.cert_text.specs.KeptCert.{kept_cert_text};
ghost use Rattle.cert_text.specs.Page.{Puts, Cuts};

use crate::fit_line::FitLine;
use crate::page::{Page, put_headed, put_lines, put_rest};
use arrayvec::ArrayVec;
use certificate_laws::{FitCert, KeptCert};
use roam_edge::{Failed, Sink};

/// Writes the text of a certificate: one blank between fields, and one LF after each line.
///
/// The sink gets it in pieces of about 16 KiB, but for the last. Takes no memory.
pub fn write_fit_cert<S: Sink>(cert: &FitCert, out: &mut S) -> Result<(), Failed>
    ensures bytes { Appends (S.contents out.old) (S.contents out.new) (fit_cert_text cert.now) result }
    ensures faults { HasCause (S.faults out.old) (S.faults out.new) result }
    ensures in_time { IsInTime (S.late out.old) (S.faults out.old) (S.late out.new) }
{
    let mut page = ArrayVec::new();
    put_fit(&mut page, cert, out)?;
    put_rest(&page, out)
}

/// Writes the text of a certificate with points: one blank between fields, and one LF after each line.
///
/// The sink gets it in pieces of about 16 KiB, but for the last. Takes no memory.
pub fn write_kept_cert<S: Sink>(cert: &KeptCert, out: &mut S) -> Result<(), Failed>
    ensures bytes { Appends (S.contents out.old) (S.contents out.new) (kept_cert_text cert.now) result }
    ensures faults { HasCause (S.faults out.old) (S.faults out.new) result }
    ensures in_time { IsInTime (S.late out.old) (S.faults out.old) (S.late out.new) }
{
    let mut page = ArrayVec::new();
    put_lines(&mut page, cert.needs(), out)?;
    put_fit(&mut page, cert.rest(), out)?;
    put_rest(&page, out)
}

/// Puts the lines of a certificate on the page.
fn put_fit<S: Sink>(page: &mut Page, cert: &FitCert, out: &mut S) -> Result<(), Failed>
    ensures ok { OnOk result
        (Puts (S.contents out.old) (S.contents out.new) page.old.items page.new.items (fit_cert_text cert.now)) }
    ensures err { OnErr result
        (Cuts (S.contents out.old) (S.contents out.new) page.old.items (fit_cert_text cert.now)) }
    ensures faults { HasCause (S.faults out.old) (S.faults out.new) result }
    ensures in_time { IsInTime (S.late out.old) (S.faults out.old) (S.late out.new) }
{
    put_headed(
        page,
        FitLine::ToleranceLine(cert.tolerance()),
        cert.needed(),
        out,
    )?;
    put_headed(page, FitLine::MeshLine, cert.beyond(), out)
}
