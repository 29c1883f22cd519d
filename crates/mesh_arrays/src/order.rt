//! Where triangles stand, depth first.

ghost use Rattle.std.specs.Prelude.{◌≡◌};
ghost use Rattle.mesh_arrays.specs.Order.{first_of, end_of};

use bintree_addr::Tri;

/// The level below which no grid has triangles.
const DEEPEST: u32 = 28;

/// Where a triangle begins among those of the deepest level, depth first.
pub(crate) fn first(t: Tri) -> u32
    ensures { result ≡ first_of t }
{
    t.number() << (DEEPEST - t.level())
}

/// Where the one behind it begins.
pub(crate) fn end(t: Tri) -> u32
    ensures { result ≡ end_of t }
{
    (t.number() + 1) << (DEEPEST - t.level())
}
