//! A reader of a certificate of a fitted mesh, line after line.

ghost use Rattle.std.specs.Prelude.{◌≡◌, ◌+◌, ◌≤◌, ◌↔◌, None, Some, Ok, Err, OnOk, OnErr, IfErr, is_some};
ghost use Rattle.mesh_defs.specs.declared.level.TheConstants.{GREATEST_LEVEL};
ghost use Rattle.cert_text.specs.FitCertReader.{nothing_fit_read, fit_line_in, fit_finished};
ghost use Rattle.cert_text.specs.FitLaws.{fit_line_count};
ghost use Rattle.cert_text.specs.declared.fault.CertFault.{CertFault};
ghost use Rattle.certificate_laws.specs.declared.limits.TheConstants.{MOST_REASONS};

use crate::fault::{CertFault, push};
use crate::fit_line::FitLine;
use crate::reading::next_line;
use certificate_laws::{FitCert, MOST_REASONS, Witness};
use std::alloc::Global;
use std::marker::Model;

/// A reader of the certificate of a grid, one line after the other; after a refusal it gives no other answer.
#[derive(Drop)]
pub struct FitCertReader {
    n: u32,
    tolerance: Option<u32>,
    mesh: bool,
    needed: Vec<Witness>,
    beyond: Vec<Witness>,
    refusal: Option<CertFault>,
}

impl Model for FitCertReader {
    ghost use Rattle.cert_text.specs.FitCertReader.{FitCertReading, AreFewFitReasons};

    ghost Value = { FitCertReading };

    ghost view = { λ r. record {
      n = r.n;
      read = record { tolerance = r.tolerance; mesh = r.mesh; needed = r.needed.items; beyond = r.beyond.items };
      refusal = r.refusal;
    } };

    ghost invariant = { λ r. AreFewFitReasons r.n r.needed.items r.beyond.items };
}

impl FitCertReader {
    /// A reader that has read nothing, for the grid of side 2^n. Takes no memory.
    pub fn new(alloc: Global, n: u32) -> FitCertReader
        requires in_grid { (1 ≤ n) × (n ≤ GREATEST_LEVEL) }
        ensures { result ≡ record { n = n; read = nothing_fit_read; refusal = None } }
    {
        FitCertReader {
            n,
            tolerance: None,
            mesh: false,
            needed: Vec::new(alloc),
            beyond: Vec::new(alloc),
            refusal: None,
        }
    }

    /// Reads one line more. The LF is none of its bytes, a CR at its end counts and is no part of a field.
    ///
    /// After a refusal each further line is refused in the same way.
    /// Cost (not proved): a few steps a byte.
    pub fn line(&mut self, bytes: &[u8]) -> Result<(), CertFault>
        ensures n { self.new.n ≡ self.old.n }

        // A refusal is the answer from then on.
        ensures sticky { (fault : CertFault) → self.old.refusal ≡ Some fault → result ≡ Err fault }
        ensures kept { OnErr result (self.new.read ≡ self.old.read) }
        ensures refusal { IfErr result (λ fault. self.new.refusal ≡ Some fault) }

        // An accepted line may stand there, and a bad one may not.
        ensures ok { OnOk result (fit_line_in self.old.n self.old.read bytes.now ≡ Some self.new.read) }
        ensures no_refusal { OnOk result ((self.old.refusal ≡ None) × (self.new.refusal ≡ None)) }
        ensures bad_line { self.old.refusal ≡ None →
            (result ≡ Err CertFault.BadLine) ↔ (fit_line_in self.old.n self.old.read bytes.now ≡ None) }
    {
        let outcome = match next_line(self.refusal, bytes, self.n) {
            Ok(FitLine::ToleranceLine(own)) if self.tolerance.is_none() => {
                self.tolerance = Some(own);
                Ok(())
            }
            Ok(FitLine::OffLine(off))
                if self.tolerance.is_some() && !self.mesh && self.needed.len() < MOST_REASONS => {
                push(&mut self.needed, off)
            }
            Ok(FitLine::OffLine(off))
                if self.tolerance.is_some() && self.mesh && self.beyond.len() < MOST_REASONS => {
                push(&mut self.beyond, off)
            }
            Ok(FitLine::MeshLine) if self.tolerance.is_some() && !self.mesh => {
                self.mesh = true;
                Ok(())
            }
            Ok(_) => Err(CertFault::BadLine),
            Err(fault) => Err(fault),
        };
        self.refusal = outcome.err();
        outcome
    }

    /// How many lines it has read.
    pub fn lines(&self) -> u32
        ensures value { result ≡ fit_line_count self.now.read }
        ensures few { result ≤ 2 + (MOST_REASONS + MOST_REASONS) }
    {
        let first = match self.tolerance {
            None => 0,
            Some(_) => 1,
        };
        let mesh = if self.mesh { 1 } else { 0 };
        first + (mesh + (self.needed.len() as u32 + self.beyond.len() as u32))
    }

    /// The n of the grid.
    pub(crate) fn level(&self) -> u32
        ensures value { result ≡ self.now.n }
        ensures in_grid { (1 ≤ result) × (result ≤ GREATEST_LEVEL) }
    {
        self.n
    }

    /// Whether the line of the tolerance was read.
    pub(crate) fn has_tolerance(&self) -> bool
        ensures { result ≡ is_some self.now.read.tolerance }
    {
        self.tolerance.is_some()
    }

    /// The refusal, once there is one.
    pub(crate) fn refusal(&self) -> Option<CertFault>
        ensures { result ≡ self.now.refusal }
    {
        self.refusal
    }

    /// Refuses each line from here on, in this way.
    pub(crate) fn refuse(&mut self, fault: CertFault)
        ensures { self.new ≡ record self.old { refusal = Some fault } }
    {
        self.refusal = Some(fault);
    }

    /// The certificate that was read, or the refusal. Takes no memory.
    pub fn finish(self) -> Result<FitCert, CertFault>
        ensures { result ≡ fit_finished self.refusal self.read }
    {
        let FitCertReader {
            n: _,
            tolerance,
            mesh,
            needed,
            beyond,
            refusal,
        } = self;
        if let Some(fault) = refusal {
            return Err(fault);
        }
        match tolerance {
            Some(own) if mesh => Ok(FitCert::new(own, needed, beyond)),
            _ => Err(CertFault::BadLine),
        }
    }
}
