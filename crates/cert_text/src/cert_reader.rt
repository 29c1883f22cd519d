//! A reader of a certificate, line after line.

ghost use Rattle.std.specs.Prelude.{◌≡◌, ◌+◌, ◌≤◌, ◌↔◌, None, Some, Ok, Err, OnOk, OnErr, IfOk, IfErr, All};
ghost use Rattle.mesh_defs.specs.Triangle.{IsAddress, IsSplittable};
ghost use Rattle.mesh_defs.specs.declared.level.TheConstants.{GREATEST_LEVEL};
ghost use Rattle.certificate_laws.specs.declared.reason.Reason.{Reason};
ghost use Rattle.cert_text.specs.CertReader.{nothing_read, cert_line_in, finished};
ghost use Rattle.cert_text.specs.Laws.{line_count};
ghost use Rattle.cert_text.specs.declared.limits.TheConstants.{MOST_LEAVES, MOST_REASONS};
ghost use Rattle.cert_text.specs.declared.fault.CertFault.{CertFault};

use crate::cert::Cert;
use crate::cert_line::CertLine;
use crate::fault::{CertFault, push};
use crate::limits::{MOST_LEAVES, MOST_REASONS};
use crate::reading::next_line;
use bintree_addr::Tri;
use certificate_laws::Reason;
use std::alloc::Global;
use std::marker::Model;
use view_priority::Camera;

/// A reader of the certificate of a grid, one line after the other; after a refusal it gives no other answer.
#[derive(Drop)]
pub struct CertReader {
    n: u32,
    camera: Option<Camera>,
    leaves: Vec<Tri>,
    reasons: Vec<Reason>,
    refusal: Option<CertFault>,
}

impl Model for CertReader {
    ghost use Rattle.std.specs.Prelude.{◌≤◌, length, All};
    ghost use Rattle.mesh_defs.specs.Triangle.{IsAddress, IsSplittable};
    ghost use Rattle.certificate_laws.specs.declared.reason.Reason.{Reason};
    ghost use Rattle.cert_text.specs.CertReader.{CertReading, AreFew};

    ghost Value = { CertReading };

    ghost view = { λ r. record {
      n = r.n;
      read = record { camera = r.camera; leaves = r.leaves.items; reasons = r.reasons.items };
      refusal = r.refusal;
    } };

    ghost invariant = { λ r. AreFew r.n r.leaves.items r.reasons.items };
}

impl CertReader {
    /// A reader that has read nothing, for the grid of side 2^n. Takes no memory.
    pub fn new(alloc: Global, n: u32) -> CertReader
        requires in_grid { (1 ≤ n) × (n ≤ GREATEST_LEVEL) }
        ensures { result ≡ record { n = n; read = nothing_read; refusal = None } }
    {
        CertReader {
            n,
            camera: None,
            leaves: Vec::new(alloc),
            reasons: Vec::new(alloc),
            refusal: None,
        }
    }

    /// Reads one line more. The LF is none of its bytes, a CR at its end counts and is no part of a field.
    ///
    /// After a refusal each further line is refused in the same way.
    /// Cost (not proved): a few steps a byte.
    pub fn line(&mut self, bytes: &[u8]) -> Result<(), CertFault>
        ensures n { self.new.n ≡ self.old.n }

        // A refusal is the answer from then on.
        ensures sticky { (fault : CertFault) → self.old.refusal ≡ Some fault → result ≡ Err fault }
        ensures kept { OnErr result (self.new.read ≡ self.old.read) }
        ensures refusal { IfErr result (λ fault. self.new.refusal ≡ Some fault) }

        // An accepted line may stand there, and a bad one may not.
        ensures ok { OnOk result (cert_line_in self.old.n self.old.read bytes.now ≡ Some self.new.read) }
        ensures no_refusal { OnOk result ((self.old.refusal ≡ None) × (self.new.refusal ≡ None)) }
        ensures bad_line { self.old.refusal ≡ None →
            (result ≡ Err CertFault.BadLine) ↔ (cert_line_in self.old.n self.old.read bytes.now ≡ None) }
    {
        let outcome = match next_line(self.refusal, bytes, self.n) {
            Ok(line) => match line {
                CertLine::CameraLine(seen_from) if self.camera.is_none() => {
                    self.camera = Some(seen_from);
                    Ok(())
                }
                CertLine::LeafLine(leaf)
                    if self.camera.is_some()
                        && self.reasons.is_empty()
                        && self.leaves.len() < MOST_LEAVES => { push(&mut self.leaves, leaf) }
                CertLine::ReasonLine(reason)
                    if self.camera.is_some() && self.reasons.len() < MOST_REASONS => {
                    push(&mut self.reasons, reason)
                }
                _ => Err(CertFault::BadLine),
            },
            Err(fault) => Err(fault),
        };
        self.refusal = outcome.err();
        outcome
    }

    /// How many lines it has read.
    pub fn lines(&self) -> u32
        ensures value { result ≡ line_count self.now.read }
        ensures few { result ≤ 1 + (MOST_LEAVES + MOST_REASONS) }
    {
        let first = match self.camera {
            None => 0,
            Some(_) => 1,
        };
        first + (self.leaves.len() as u32 + self.reasons.len() as u32)
    }

    /// The certificate that was read, or the refusal. Takes no memory.
    pub fn finish(self) -> Result<Cert, CertFault>
        ensures value { result ≡ finished self.refusal self.read }
        ensures leaves { IfOk result (λ c. All (IsAddress self.n) c.leaves) }
        ensures reasons { IfOk result (λ c. All (λ (r : Reason). IsSplittable self.n r.triangle) c.reasons) }
    {
        let CertReader {
            n: _,
            camera,
            leaves,
            reasons,
            refusal,
        } = self;
        if let Some(fault) = refusal {
            return Err(fault);
        }
        match camera {
            None => Err(CertFault::BadLine),
            Some(camera) => Ok(Cert::new(camera, leaves, reasons)),
        }
    }
}
