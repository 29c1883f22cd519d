//! A certificate of optimality.

ghost use Rattle.std.specs.Prelude.{◌≡◌, ◌≤◌, length};
ghost use Rattle.cert_text.specs.declared.limits.TheConstants.{MOST_LEAVES, MOST_REASONS};

use bintree_addr::Tri;
use certificate_laws::Reason;
use std::marker::Model;
use view_priority::Camera;

/// A certificate of optimality: a camera, a mesh, and reasons why no mesh within a budget is better.
///
/// Whether it is sound is for a checker to say.
#[derive(Drop)]
pub struct Cert {
    camera: Camera,
    leaves: Vec<Tri>,
    reasons: Vec<Reason>,
}

impl Model for Cert {
    ghost use Rattle.std.specs.Prelude.{◌≤◌, length};
    ghost use Rattle.cert_text.specs.Certificate.{Certificate};
    ghost use Rattle.cert_text.specs.declared.limits.TheConstants.{MOST_LEAVES, MOST_REASONS};

    ghost Value = { Certificate };

    ghost view = { λ c. record { camera = c.camera; leaves = c.leaves.items; reasons = c.reasons.items } };

    ghost invariant = { λ c. (length c.leaves.items ≤ MOST_LEAVES) × (length c.reasons.items ≤ MOST_REASONS) };
}

impl Cert {
    /// The certificate of a mesh seen from the camera, with these reasons.
    pub fn new(camera: Camera, leaves: Vec<Tri>, reasons: Vec<Reason>) -> Cert
        requires few_leaves { length leaves.items ≤ MOST_LEAVES }
        requires few_reasons { length reasons.items ≤ MOST_REASONS }
        ensures { result ≡ record { camera = camera; leaves = leaves.items; reasons = reasons.items } }
    {
        Cert {
            camera,
            leaves,
            reasons,
        }
    }

    /// Where the mesh is seen from.
    pub fn camera(&self) -> Camera
        ensures { result ≡ self.now.camera }
    {
        self.camera
    }

    /// The triangles of the mesh, in the order of its faces.
    pub fn leaves(&self) -> &[Tri]
        ensures value { result.now ≡ self.now.leaves }
        ensures few { length self.now.leaves ≤ MOST_LEAVES }
    {
        &self.leaves
    }

    /// The reasons, in order.
    pub fn reasons(&self) -> &[Reason]
        ensures value { result.now ≡ self.now.reasons }
        ensures few { length self.now.reasons ≤ MOST_REASONS }
    {
        &self.reasons
    }
}
