//! Writing a certificate.

ghost use Rattle.roam_edge.specs.Fault.{HasCause, IsInTime};
ghost use Rattle.roam_edge.specs.Sink.{Appends};
ghost use Rattle.cert_text.specs.CertText.{cert_text};

use crate::cert::Cert;
use crate::cert_line::CertLine;
use crate::page::{put_headed, put_lines, put_rest};
use arrayvec::ArrayVec;
use roam_edge::{Failed, Sink};

/// Writes the text of a certificate: one blank between fields, and one LF after each line.
///
/// The sink gets it in pieces of about 16 KiB, but for the last. Takes no memory.
pub fn write_cert<S: Sink>(cert: &Cert, out: &mut S) -> Result<(), Failed>
    ensures bytes { Appends (S.contents out.old) (S.contents out.new) (cert_text cert.now) result }
    ensures faults { HasCause (S.faults out.old) (S.faults out.new) result }
    ensures in_time { IsInTime (S.late out.old) (S.faults out.old) (S.late out.new) }
{
    let mut page = ArrayVec::new();
    put_headed(
        &mut page,
        CertLine::CameraLine(cert.camera()),
        cert.leaves(),
        out,
    )?;
    put_lines(&mut page, cert.reasons(), out)?;
    put_rest(&page, out)
}
