//! The mesh of a sound certificate.

ghost use Rattle.std.specs.Prelude.{◌≡◌, ℕ, ◌+◌, ◌*◌, ◌^◌, ◌≤◌, List, All, IfOk, length};
ghost use Rattle.mesh_defs.specs.Triangle.{level_of};
ghost use Rattle.certificate_laws.specs.declared.fit_reason.Target.{Target};
ghost use Rattle.certificate_laws.specs.FitCertificate.{IsFitSound};

use crate::replay::replay;
use crate::room::{leaves, no_flags};
use bintree_addr::Tri;
use certificate_laws::FitCert;
use mesh_defs::NoMemory;
use pgm_grid::Grid;
use std::alloc::Global;

/// The triangles that the reasons before the mesh make, depth first: for a sound certificate its mesh.
///
/// Of a certificate that is not sound nothing is said. Cost (not proved): that of `check` for these reasons.
pub fn mesh_of(alloc: Global, grid: &Grid, cert: &FitCert) -> Result<Vec<Tri>, NoMemory>
    ensures mesh { IfOk result (λ v. (target : Target) (mesh : List ℕ) →
        IsFitSound grid.now.n grid.now.heights target cert.now mesh → v.items ≡ mesh) }
    ensures levels { IfOk result (λ v. All (λ a. level_of a ≤ 2 * grid.now.n) v.items) }
    ensures few { IfOk result (λ v. length v.items ≤ 2 ^ (2 * grid.now.n + 1)) }
{
    let n = grid.n();
    let mut flags = no_flags(alloc, n)?;
    let flags = flags.as_mut_slice();
    let _bad = replay(grid, cert.tolerance(), cert.needed(), flags);
    leaves(alloc, n, flags)
}
