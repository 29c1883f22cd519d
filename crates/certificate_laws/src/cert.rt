//! A certificate of a fitted mesh.

ghost use Rattle.std.specs.Prelude.{◌≡◌, ◌≤◌, length};
ghost use Rattle.certificate_laws.specs.declared.limits.TheConstants.{MOST_REASONS};

use crate::fit_reason::Witness;
use std::marker::Model;

/// A certificate of a fitted mesh: its tolerance, the reasons that make the mesh, and reasons why no mesh of a budget
/// is off by less.
///
/// Whether it is sound is for a checker to say.
#[derive(Drop)]
pub struct FitCert {
    tolerance: u32,
    needed: Vec<Witness>,
    beyond: Vec<Witness>,
}

impl Model for FitCert {
    ghost use Rattle.std.specs.Prelude.{◌≤◌, length};
    ghost use Rattle.certificate_laws.specs.FitCertificate.{FitCertificate};
    ghost use Rattle.certificate_laws.specs.declared.limits.TheConstants.{MOST_REASONS};

    ghost Value = { FitCertificate };

    ghost view = { λ c. record { tolerance = c.tolerance; needed = c.needed.items; beyond = c.beyond.items } };

    ghost invariant = { λ c. (length c.needed.items ≤ MOST_REASONS) × (length c.beyond.items ≤ MOST_REASONS) };
}

impl FitCert {
    /// The certificate with these reasons before the mesh and behind it. The tolerance is in units of height, times
    /// 2^n.
    pub fn new(tolerance: u32, needed: Vec<Witness>, beyond: Vec<Witness>) -> FitCert
        requires few_needed { length needed.items ≤ MOST_REASONS }
        requires few_beyond { length beyond.items ≤ MOST_REASONS }
        ensures { result ≡ record { tolerance = tolerance; needed = needed.items; beyond = beyond.items } }
    {
        FitCert {
            tolerance,
            needed,
            beyond,
        }
    }

    /// No triangle of the mesh is off by more than this, in units of height, times 2^n.
    pub fn tolerance(&self) -> u32
        ensures { result ≡ self.now.tolerance }
    {
        self.tolerance
    }

    /// The reasons that make the mesh, in order.
    pub fn needed(&self) -> &[Witness]
        ensures value { result.now ≡ self.now.needed }
        ensures few { length self.now.needed ≤ MOST_REASONS }
    {
        &self.needed
    }

    /// The reasons behind it, in order.
    pub fn beyond(&self) -> &[Witness]
        ensures value { result.now ≡ self.now.beyond }
        ensures few { length self.now.beyond ≤ MOST_REASONS }
    {
        &self.beyond
    }
}
