//! Laws of the definitions, each a clause of a function with an empty body.

ghost use Rattle.std.specs.Prelude.{◌≡◌, ℕ, ◌≤◌, ◌&&◌, ◌||◌, not, Bool, List, All};
ghost use Rattle.mesh_defs.specs.Tiling.{IsConforming};
ghost use Rattle.mesh_defs.specs.ClosedSet.{leaves_of, among};
ghost use Rattle.mesh_defs.specs.declared.level.TheConstants.{GREATEST_LEVEL};
ghost use Rattle.bintree_laws.specs.Corners.{IsCounterclockwise};
ghost use Rattle.mesh_arrays.specs.Indices.{indices_of, triangles_at, CoversOnce};
ghost use Rattle.mesh_arrays.specs.Changes.{IsDepthFirst, alone};

/// The indices of a conforming list, read three at a time as places of grid points, cover the square once, each
/// triangle counterclockwise.
pub fn index_laws()
    ensures once { (n : ℕ) (triangles : List ℕ) → IsConforming n triangles →
        CoversOnce n (triangles_at n (indices_of n triangles)) }
    ensures winding { (n : ℕ) (triangles : List ℕ) → IsConforming n triangles →
        All IsCounterclockwise (triangles_at n (indices_of n triangles)) }
{}

/// The leaves of a set stand depth first; and of two lists before, less what it has alone, with what after has alone,
/// is after.
pub fn change_laws()
    ensures leaves { (n : ℕ) (has : ℕ → Bool) → n ≤ GREATEST_LEVEL →
        IsDepthFirst (leaves_of n has) }
    ensures after { (before after : List ℕ) (a : ℕ) → among after a
        ≡ ((among before a && not (among (alone before after) a)) || among (alone after before) a) }
{}
