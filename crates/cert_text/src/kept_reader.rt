//! A reader of a certificate with points, line after line.

ghost use Rattle.std.specs.Prelude.{◌≡◌, ◌+◌, ◌≤◌, [], ◌↔◌, None, Some, Ok, Err, OnOk, OnErr, IfErr};
ghost use Rattle.mesh_defs.specs.declared.level.TheConstants.{GREATEST_LEVEL};
ghost use Rattle.cert_text.specs.FitCertReader.{nothing_fit_read};
ghost use Rattle.cert_text.specs.KeptCert.{kept_reading, kept_line_in, kept_finished};
ghost use Rattle.cert_text.specs.KeptLaws.{kept_line_count};
ghost use Rattle.cert_text.specs.declared.fault.CertFault.{CertFault};
ghost use Rattle.certificate_laws.specs.declared.limits.TheConstants.{MOST_REASONS};

use crate::fault::{CertFault, push};
use crate::fit_reader::FitCertReader;
use crate::reading::read_line;
use bintree_addr::Point;
use certificate_laws::{KeptCert, MOST_REASONS};
use std::alloc::Global;
use std::marker::Model;

/// A reader of a certificate with points, one line after the other: the points first, and then a certificate. After a
/// refusal it gives no other answer.
#[derive(Drop)]
pub struct KeptCertReader {
    needs: Vec<Point>,
    rest: FitCertReader,
}

impl Model for KeptCertReader {
    ghost use Rattle.std.specs.Prelude.{◌≤◌, length};
    ghost use Rattle.certificate_laws.specs.declared.limits.TheConstants.{MOST_REASONS};
    ghost use Rattle.cert_text.specs.KeptCert.{KeptCertReading};

    ghost Value = { KeptCertReading };

    ghost view = { λ r. record { needs = r.needs.items; rest = r.rest } };

    ghost invariant = { λ r. length r.needs.items ≤ MOST_REASONS };
}

impl KeptCertReader {
    /// A reader that has read nothing, for the grid of side 2^n. Takes no memory.
    pub fn new(alloc: Global, n: u32) -> KeptCertReader
        requires in_grid { (1 ≤ n) × (n ≤ GREATEST_LEVEL) }
        ensures { result
            ≡ record { needs = []; rest = record { n = n; read = nothing_fit_read; refusal = None } } }
    {
        KeptCertReader {
            needs: Vec::new(alloc),
            rest: FitCertReader::new(alloc, n),
        }
    }

    /// Reads one line more. The LF is none of its bytes, a CR at its end counts and is no part of a field.
    ///
    /// After a refusal each further line is refused in the same way.
    /// Cost (not proved): a few steps a byte.
    pub fn line(&mut self, bytes: &[u8]) -> Result<(), CertFault>
        ensures n { self.new.rest.n ≡ self.old.rest.n }

        // A refusal is the answer from then on.
        ensures sticky { (fault : CertFault) → self.old.rest.refusal ≡ Some fault → result ≡ Err fault }
        ensures kept { OnErr result (kept_reading self.new ≡ kept_reading self.old) }
        ensures refusal { IfErr result (λ fault. self.new.rest.refusal ≡ Some fault) }

        // An accepted line may stand there, and a bad one may not.
        ensures ok { OnOk result
            (kept_line_in self.old.rest.n (kept_reading self.old) bytes.now ≡ Some (kept_reading self.new)) }
        ensures no_refusal { OnOk result ((self.old.rest.refusal ≡ None) × (self.new.rest.refusal ≡ None)) }
        ensures bad_line { self.old.rest.refusal ≡ None → (result ≡ Err CertFault.BadLine)
            ↔ (kept_line_in self.old.rest.n (kept_reading self.old) bytes.now ≡ None) }
    {
        if let Some(fault) = self.rest.refusal() {
            return Err(fault);
        }
        let Some(point) = read_line::<Point>(bytes, self.rest.level()) else {
            return self.rest.line(bytes);
        };
        let outcome = if self.rest.has_tolerance() || self.needs.len() >= MOST_REASONS {
            Err(CertFault::BadLine)
        } else {
            push(&mut self.needs, point)
        };
        if let Err(fault) = outcome {
            self.rest.refuse(fault);
        }
        outcome
    }

    /// How many lines it has read.
    pub fn lines(&self) -> u32
        ensures value { result ≡ kept_line_count (kept_reading self.now) }
        ensures few { result ≤ 2 + (MOST_REASONS + MOST_REASONS + MOST_REASONS) }
    {
        self.needs.len() as u32 + self.rest.lines()
    }

    /// The certificate that was read, or the refusal. Takes no memory.
    pub fn finish(self) -> Result<KeptCert, CertFault>
        ensures { result ≡ kept_finished self }
    {
        let KeptCertReader { needs, rest } = self;
        match rest.finish() {
            Ok(cert) => Ok(KeptCert::new(needs, cert)),
            Err(fault) => Err(fault),
        }
    }
}
