//! The two children of a triangle: whether one may still be split, and their corners by those of their parent.

ghost use Rattle.std.specs.Prelude.{◌≡◌, ℕ, ◌+◌, ◌*◌, ◌/◌, ◌≤◌, ◌⊎◌, IsTrue, false};
ghost use Rattle.mesh_defs.specs.Triangle.{level_of, corners_of, IsSplittable};
ghost use Rattle.mesh_defs.specs.declared.level.TheConstants.{GREATEST_LEVEL};
ghost use Rattle.mesh_laws.specs.Sweep.{is_flagged};

use address_flags::is_set;
use bintree_addr::{Corners, Tri, child_corners};
use mesh_measure::corners_in;
use pgm_grid::Grid;

/// Whether a child is a leaf that may be split.
pub fn has_open_child(flags: &[bool], n: u32, t: Tri) -> bool
    requires in_grid { n ≤ GREATEST_LEVEL }
    requires splittable { IsSplittable n t }
    ensures none { result ≡ false → (a : ℕ) → 2 ≤ a → a / 2 ≡ t →
        IsTrue (is_flagged flags.now a) ⊎ (2 * n ≤ level_of a) }
{
    if t.level() + 1 >= 2 * n {
        return false;
    }
    !is_set(flags, t.left()) || !is_set(flags, t.right())
}

/// The corners of the left child, and those of the right one.
pub fn corners_below(grid: &Grid, t: Tri) -> (Corners, Corners)
    requires splittable { IsSplittable grid.now.n t }
    ensures left { result.0 ≡ corners_of grid.now.n (2 * t) }
    ensures right { result.1 ≡ corners_of grid.now.n (2 * t + 1) }
{
    let _level = grid.n();
    let corners = corners_in(grid, t);
    (child_corners(corners, false), child_corners(corners, true))
}
