//! The deviation and the greatest thickness of a mesh.

ghost use Rattle.std.specs.Prelude.{◌≡◌, ◌*◌, ◌^◌, ◌≤◌, ℕ, Bool, max};
ghost use Rattle.mesh_defs.specs.ClosedSet.{IsClosed, leaves_of};
ghost use Rattle.fit_laws.specs.PlaneHeight.{deviation_of, thickest_of};

use crate::line::greater;
use crate::points::off_triangle;
use bintree_addr::Tri;
use wedgie_tree::Wedges;

/// The deviation of the leaves of a closed set, times 2^n: how far the surface is from the planes of the triangles at
/// most, over all grid points, in units of height.
///
/// Cost (not proved): that of `off_triangle` for each leaf.
pub fn deviation(w: &Wedges, leaves: &[Tri]) -> u64
    requires leaves { (has : ℕ → Bool) × IsClosed w.now.n has × (leaves.now ≡ leaves_of w.now.n has) }
    ensures value { result ≡ deviation_of w.now.n w.now.heights leaves.now }
    ensures bound { 2 * result ≤ 2 ^ w.now.n * thickest_of w.now.n w.now.heights leaves.now }
{
    let mut most = 0;
    for t in leaves {
        most = greater(most, u64::from(off_triangle(w.grid(), *t)));
    }
    most
}

/// The greatest thickness among the leaves of a closed set, in half units of height.
pub fn thickest(w: &Wedges, leaves: &[Tri]) -> u32
    requires leaves { (has : ℕ → Bool) × IsClosed w.now.n has × (leaves.now ≡ leaves_of w.now.n has) }
    ensures { result ≡ thickest_of w.now.n w.now.heights leaves.now }
{
    let mut most = 0;
    for t in leaves {
        most = thicker(most, w.thickness(*t));
    }
    most
}

/// The greater of two thicknesses.
fn thicker(i: u32, j: u32) -> u32
    ensures { result ≡ max i j }
{
    i.max(j)
}
