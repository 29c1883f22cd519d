//! What reads the lines of a certificate.

ghost use Rattle.std.specs.Prelude.{◌≡◌, ◌≢◌, ◌+◌, ◌-◌, ◌^◌, ◌<◌, ◌≤◌, ℕ, List, All, Option, None, Some, Result};
ghost use Rattle.std.specs.Prelude.{Ok, Err, OnOk, IfOk};
ghost use Rattle.mesh_defs.specs.Triangle.{IsAddress};
ghost use Rattle.mesh_defs.specs.declared.level.TheConstants.{GREATEST_LEVEL};
ghost use Rattle.cert_text.specs.CertReader.{ReadSoFar, nothing_read, cert_line_in};
ghost use Rattle.cert_text.specs.Laws.{line_count};
ghost use Rattle.cert_text.specs.FitCertReader.{FitReadSoFar, nothing_fit_read, fit_line_in};
ghost use Rattle.cert_text.specs.FitLaws.{fit_line_count};
ghost use Rattle.cert_text.specs.KeptCert.{KeptReadSoFar, nothing_kept_read, kept_line_in, kept_reading};
ghost use Rattle.cert_text.specs.KeptLaws.{kept_line_count};
ghost use Rattle.run_laws.specs.CertFile.{cert_of, cert_in, fit_cert_of, fit_cert_in, kept_cert_of, kept_cert_in};
ghost use Rattle.run_laws.proofs.CertFileLemmas.{IsFormat, cert-format, fit-format, kept-format};

use crate::cert_file::CertStop;
use cert_text::{
    Cert, CertFault, CertReader, FitCert, FitCertReader, KeptCert, KeptCertReader, fit_text_laws,
    kept_text_laws, text_laws,
};
use std::alloc::Global;

/// A reader of certificates of one kind, line after line, of the grid whose n is its `level`.
pub trait LineReader: Drop {
    /// What the lines of a file come to.
    type Cert;

    // What lines say.
    ghost Said: { Type 0 };

    // Before the first line.
    ghost start: { Said };

    // Behind the line that these bytes are, if they are one that may stand there.
    ghost step: { ℕ → Said → List ℕ → Option Said };

    // How many lines say as much.
    ghost count: { Said → ℕ };

    // What all lines of a file come to, or the number of the line that is refused at its end.
    ghost finish: { Said → Result Self.Cert ℕ };

    // The certificate that a file's bytes are, or the number of the first line that is refused.
    ghost file: { ℕ → List ℕ → Result Self.Cert ℕ };

    // What is known of one that was read.
    ghost IsRead: { ℕ → Self.Cert → Type 0 };

    // The n of its grid.
    ghost level: { Self → ℕ };

    // What the lines so far said.
    ghost said: { Self → Said };

    // None of them was refused.
    ghost Goes: { Self → Type 0 };

    /// A reader that has read nothing.
    fn begin(alloc: Global, n: u32) -> Self
        requires in_grid { (1 ≤ n) × (n ≤ GREATEST_LEVEL) }
        ensures level { level result ≡ n }
        ensures said { said result ≡ start }
        ensures none { count start ≡ 0 }
        ensures goes { Goes result };

    /// Reads one line more, without its LF.
    fn take(&mut self, bytes: &[u8]) -> Result<(), CertFault>
        requires goes { Goes self.old }
        ensures level { level self.new ≡ level self.old }
        ensures ok { OnOk result (step (level self.old) (said self.old) bytes.now ≡ Some (said self.new)) }
        ensures counted { OnOk result (count (said self.new) ≡ count (said self.old) + 1) }
        ensures goes { OnOk result (Goes self.new) }
        ensures bad_line { result ≡ Err CertFault.BadLine → step (level self.old) (said self.old) bytes.now ≡ None };

    /// How many lines it has read.
    fn lines(&self) -> u32
        ensures value { result ≡ count (said self.now) }
        ensures few { result < 2 ^ 32 - 1 };

    /// What the lines come to. Takes no memory.
    fn end(self) -> Result<Self::Cert, CertStop>
        requires goes { Goes self }
        ensures ok { IfOk result (λ cert. finish (said self) ≡ Ok cert) }
        ensures read { IfOk result (λ cert. IsRead (level self) cert) }
        ensures bad_line { (line : ℕ) → result ≡ Err (CertStop.BadLine line) → finish (said self) ≡ Err line }
        ensures not_failed { result ≢ Err CertStop.Failed };

    // A file is what its lines come to.
    ghost format: { (n : ℕ) → IsFormat (step n) start finish (file n) };
}

impl LineReader for CertReader {
    type Cert = Cert;

    ghost Said = { ReadSoFar };

    ghost start = { nothing_read };

    ghost step = { cert_line_in };

    ghost count = { line_count };

    ghost finish = { cert_of };

    ghost file = { cert_in };

    ghost IsRead = { λ n cert. All (IsAddress n) cert.leaves };

    ghost level = { λ r. r.n };

    ghost said = { λ r. r.read };

    ghost Goes = { λ r. r.refusal ≡ None };

    ghost format = { cert-format };

    fn begin(alloc: Global, n: u32) -> CertReader {
        CertReader::new(alloc, n)
    }

    fn take(&mut self, bytes: &[u8]) -> Result<(), CertFault> {
        text_laws();
        self.line(bytes)
    }

    fn lines(&self) -> u32 {
        CertReader::lines(self)
    }

    fn end(self) -> Result<Cert, CertStop> {
        match self.finish() {
            Ok(cert) => Ok(cert),
            Err(CertFault::BadLine) => Err(CertStop::BadLine(1)),
            Err(CertFault::NoMemory) => Err(CertStop::NoMemory),
        }
    }
}

impl LineReader for FitCertReader {
    type Cert = FitCert;

    ghost Said = { FitReadSoFar };

    ghost start = { nothing_fit_read };

    ghost step = { fit_line_in };

    ghost count = { fit_line_count };

    ghost finish = { fit_cert_of };

    ghost file = { fit_cert_in };

    ghost IsRead = { λ _ _. Unit {0} };

    ghost level = { λ r. r.n };

    ghost said = { λ r. r.read };

    ghost Goes = { λ r. r.refusal ≡ None };

    ghost format = { fit-format };

    fn begin(alloc: Global, n: u32) -> FitCertReader {
        FitCertReader::new(alloc, n)
    }

    fn take(&mut self, bytes: &[u8]) -> Result<(), CertFault> {
        fit_text_laws();
        self.line(bytes)
    }

    fn lines(&self) -> u32 {
        FitCertReader::lines(self)
    }

    fn end(self) -> Result<FitCert, CertStop> {
        let next = FitCertReader::lines(&self) + 1;
        match self.finish() {
            Ok(cert) => Ok(cert),
            Err(CertFault::BadLine) => Err(CertStop::BadLine(next)),
            Err(CertFault::NoMemory) => Err(CertStop::NoMemory),
        }
    }
}

impl LineReader for KeptCertReader {
    type Cert = KeptCert;

    ghost Said = { KeptReadSoFar };

    ghost start = { nothing_kept_read };

    ghost step = { kept_line_in };

    ghost count = { kept_line_count };

    ghost finish = { kept_cert_of };

    ghost file = { kept_cert_in };

    ghost IsRead = { λ _ _. Unit {0} };

    ghost level = { λ r. r.rest.n };

    ghost said = { kept_reading };

    ghost Goes = { λ r. r.rest.refusal ≡ None };

    ghost format = { kept-format };

    fn begin(alloc: Global, n: u32) -> KeptCertReader {
        KeptCertReader::new(alloc, n)
    }

    fn take(&mut self, bytes: &[u8]) -> Result<(), CertFault> {
        kept_text_laws();
        self.line(bytes)
    }

    fn lines(&self) -> u32 {
        KeptCertReader::lines(self)
    }

    fn end(self) -> Result<KeptCert, CertStop> {
        let next = KeptCertReader::lines(&self) + 1;
        match self.finish() {
            Ok(cert) => Ok(cert),
            Err(CertFault::BadLine) => Err(CertStop::BadLine(next)),
            Err(CertFault::NoMemory) => Err(CertStop::NoMemory),
        }
    }
}
