//! A certificate of a fitted mesh that keeps points.

ghost use Rattle.std.specs.Prelude.{◌≡◌, ◌≤◌, length};
ghost use Rattle.certificate_laws.specs.declared.limits.TheConstants.{MOST_REASONS};

use crate::cert::FitCert;
use bintree_addr::Point;
use std::marker::Model;

/// A certificate of a fitted mesh that keeps points: the points whose triangles are split first, since the mesh has to
/// have them, and a certificate that goes on from there.
///
/// Whether it is sound is for a checker to say, who has the points that are kept.
#[derive(Drop)]
pub struct KeptCert {
    needs: Vec<Point>,
    rest: FitCert,
}

impl Model for KeptCert {
    ghost use Rattle.std.specs.Prelude.{◌≤◌, length};
    ghost use Rattle.certificate_laws.specs.Keeping.{KeptCertificate};
    ghost use Rattle.certificate_laws.specs.declared.limits.TheConstants.{MOST_REASONS};

    ghost Value = { KeptCertificate };

    ghost view = { λ c. record { needs = c.needs.items; rest = c.rest } };

    ghost invariant = { λ c. length c.needs.items ≤ MOST_REASONS };
}

impl KeptCert {
    /// The certificate with these points, and these reasons behind them.
    pub fn new(needs: Vec<Point>, rest: FitCert) -> KeptCert
        requires few_needs { length needs.items ≤ MOST_REASONS }
        ensures { result ≡ record { needs = needs.items; rest = rest } }
    {
        KeptCert { needs, rest }
    }

    /// The points whose triangles are split first, in order.
    pub fn needs(&self) -> &[Point]
        ensures value { result.now ≡ self.now.needs }
        ensures few { length self.now.needs ≤ MOST_REASONS }
    {
        &self.needs
    }

    /// The tolerance, and the reasons behind the points.
    pub fn rest(&self) -> &FitCert
        ensures { result.now ≡ self.now.rest }
    {
        &self.rest
    }
}
