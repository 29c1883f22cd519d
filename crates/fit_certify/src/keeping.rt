//! Certificates of fitted meshes that keep points: making one, and the mesh of one.

ghost use Rattle.std.specs.Prelude.{◌≡◌, ℕ, ◌+◌, ◌*◌, ◌^◌, ◌<◌, ◌≤◌, Bool, [], false, List, All, IfOk, IfSome, IfNone, length};
ghost use Rattle.mesh_defs.specs.declared.point.Point.{Point as PointSeen};
ghost use Rattle.mesh_defs.specs.Triangle.{level_of};
ghost use Rattle.mesh_defs.specs.ClosedSet.{IsClosed, IsLeastClosed};
ghost use Rattle.mesh_defs.specs.declared.level.TheConstants.{GREATEST_FILE_LEVEL};
ghost use Rattle.bintree_laws.specs.Corners.{IsInSquare};
ghost use Rattle.mesh_laws.specs.Sweep.{is_flagged};
ghost use Rattle.certificate_laws.specs.declared.limits.TheConstants.{MOST_REASONS};
ghost use Rattle.certificate_laws.specs.FitCertificate.{LeadsTo, IsFirstBadFit};
ghost use Rattle.certificate_laws.specs.Keeping.{is_centred, IsKeptSound};

use crate::points::{list_needs, split_centred};
use crate::replay::replay;
use crate::room::{leaves, no_flags};
use crate::settle::settle;
use bintree_addr::{Point, Tri};
use certificate_laws::{FitCert, KeptCert};
use mesh_defs::NoMemory;
use pgm_grid::Grid;
use std::alloc::Global;

/// A sound certificate of the best mesh for a tolerance that keeps these points of the grid: that of `Fit::frame_with` of
/// `fit_mesh` for their triangles. A corner of the square is a vertex of each mesh.
///
/// Its points are those of the list whose triangles are not split by the points before them. A grid of at most 2,049
/// points a side has no more reasons than a certificate may have.
/// Cost (not proved): a level for each point; the error of each triangle that is split or a leaf, once, and a few passes
/// over them; two bytes for each splittable triangle, 12 for each reason and eight for each point.
pub fn make_kept(
    alloc: Global,
    grid: &Grid,
    tolerance: u32,
    points: &[Point],
) -> Result<KeptCert, NoMemory>
    requires file_level { grid.now.n ≤ GREATEST_FILE_LEVEL }
    requires inside { All (IsInSquare (2 ^ grid.now.n)) points.now }
    requires few { length points.now ≤ MOST_REASONS }
    ensures sound { IfOk result (λ c. (mesh : List ℕ) ×
        IsKeptSound grid.now.n grid.now.heights points.now tolerance c mesh) }
    ensures few { IfOk result (λ c. length c.needs ≤ length points.now) }
{
    let n = grid.n();
    let mut flags = no_flags(alloc, n)?;
    let mut known = no_flags(alloc, n)?;
    let flags = flags.as_mut_slice();
    let needs = list_needs(alloc, n, points, flags)?;
    let needed = settle(alloc, grid, tolerance, tolerance, flags, &mut known)?;
    Ok(KeptCert::new(needs, FitCert::new(tolerance, needed, Vec::new(alloc))))
}

/// Splits the triangles of a certificate's points and of its reasons before the mesh, with what they force; or the
/// number of the first reason that is none, counted from 1.
pub(crate) fn replay_kept(grid: &Grid, cert: &KeptCert, flags: &mut [bool]) -> Option<u32>
    requires flags { length flags.old ≡ 2 ^ (2 * grid.now.n + 1) }
    requires empty { (a : ℕ) → is_flagged flags.old a ≡ false }
    ensures flags { length flags.new ≡ length flags.old }
    ensures closed { IsClosed grid.now.n (is_flagged flags.new) }
    ensures all { IfNone result (All (IsInSquare (2 ^ grid.now.n)) cert.now.needs → (start : ℕ → Bool)
        × IsLeastClosed grid.now.n (is_centred grid.now.n cert.now.needs) start
        × LeadsTo grid.now.n grid.now.heights cert.now.rest.tolerance start cert.now.rest.needed
        (is_flagged flags.new)) }
    ensures bad { IfSome result (λ k. All (IsInSquare (2 ^ grid.now.n)) cert.now.needs → (start : ℕ → Bool)
        × IsLeastClosed grid.now.n (is_centred grid.now.n cert.now.needs) start
        × IsFirstBadFit grid.now.n grid.now.heights cert.now.rest.tolerance start cert.now.rest.needed k) }
    ensures place { IfSome result (λ k. k ≤ MOST_REASONS) }
{
    split_centred(grid.n(), cert.needs(), flags);
    let rest = cert.rest();
    replay(grid, rest.tolerance(), rest.needed(), flags)
}

/// The triangles that the points and the reasons before the mesh make, depth first: for a sound certificate its mesh.
///
/// Of a certificate that is not sound nothing is said. Cost (not proved): that of `check_kept` for these.
pub fn mesh_of_kept(alloc: Global, grid: &Grid, cert: &KeptCert) -> Result<Vec<Tri>, NoMemory>
    ensures mesh { IfOk result (λ v. (points : List PointSeen) (tolerance : ℕ) (mesh : List ℕ) →
        All (IsInSquare (2 ^ grid.now.n)) points →
        IsKeptSound grid.now.n grid.now.heights points tolerance cert.now mesh → v.items ≡ mesh) }
    ensures levels { IfOk result (λ v. All (λ a. level_of a ≤ 2 * grid.now.n) v.items) }
    ensures few { IfOk result (λ v. length v.items ≤ 2 ^ (2 * grid.now.n + 1)) }
{
    let n = grid.n();
    let mut flags = no_flags(alloc, n)?;
    let flags = flags.as_mut_slice();
    let _bad = replay_kept(grid, cert, flags);
    leaves(alloc, n, flags)
}
