//! Why a line of a certificate is refused.

ghost use Rattle.std.specs.Prelude.{◌≡◌, ◌++◌, ◌∷◌, [], OnOk, OnErr, IfErr};
ghost use Rattle.cert_text.specs.declared.fault.CertFault.{CertFault};

use thiserror::Error;

/// Why a reader of a certificate refuses a line, or the whole.
#[derive(Clone, Copy, Debug, PartialEq, Eq, Error)]
pub enum CertFault {
    /// The line is none of a certificate, or none that may stand at its place; or there was no line.
    #[error("bad line")]
    BadLine,
    /// There is no room for what the line adds.
    #[error("out of memory")]
    NoMemory,
}

/// Appends what a line adds.
pub(crate) fn push<T: Drop>(entries: &mut Vec<T>, entry: T) -> Result<(), CertFault>
    ensures ok { OnOk result (entries.new.items ≡ entries.old.items ++ entry ∷ []) }
    ensures err { OnErr result (entries.new.items ≡ entries.old.items) }
    ensures no_memory { IfErr result (λ fault. fault ≡ CertFault.NoMemory) }
{
    match entries.push(entry) {
        Ok(()) => Ok(()),
        Err(_) => Err(CertFault::NoMemory),
    }
}
