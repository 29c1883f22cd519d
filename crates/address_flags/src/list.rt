//! The leaves of a set of triangles, depth first.

ghost use Rattle.std.specs.Prelude.{◌≡◌, ℕ, ◌+◌, ◌*◌, ◌^◌, ◌≤◌, ◌++◌, ◌∷◌, [], All, false, length, take};
ghost use Rattle.mesh_defs.specs.Triangle.{level_of};
ghost use Rattle.mesh_defs.specs.ClosedSet.{leaves_under, leaves_of};
ghost use Rattle.mesh_defs.specs.declared.level.TheConstants.{GREATEST_LEVEL};
ghost use Rattle.mesh_laws.specs.Sweep.{is_flagged};

use crate::flags::is_set;
use bintree_addr::Tri;

/// Puts the leaves of the flagged set to the front of the list, and answers how many there are.
///
/// They come depth first: 2 before 3, and left child before right child. The list has room for every
/// mesh of the grid, whose triangles are at most all finest ones.
/// Cost (not proved): a step for each leaf and each member.
pub fn list_leaves(flags: &[bool], n: u32, list: &mut [Tri]) -> usize
    requires in_grid { n ≤ GREATEST_LEVEL }
    requires room { length list.old ≡ 2 ^ (2 * n + 1) }
    ensures listed { take result list.new ≡ leaves_of n (is_flagged flags.now) }
    ensures count { result ≡ length (leaves_of n (is_flagged flags.now)) }
    ensures within { result ≤ length list.new }
    ensures levels { All (λ a. level_of a ≤ 2 * n) (take result list.new) }
    ensures base { ((a : ℕ) → is_flagged flags.now a ≡ false) → take result list.new ≡ 2 ∷ (3 ∷ []) }
{
    let between = put_leaves(flags, 2 * n, Tri::LOWER, list, 0);
    put_leaves(flags, 2 * n, Tri::UPPER, list, between)
}

/// Puts the leaves at and below the triangle, which has so many levels below it, behind the first ones.
///
/// The answer is how many there are now.
fn put_leaves(flags: &[bool], levels: u32, t: Tri, list: &mut [Tri], count: usize) -> usize
    requires deep { levels + level_of t ≤ 28 }
    requires room { count + length (leaves_under levels (is_flagged flags.now) t) ≤ length list.old }
    ensures listed { take result list.new
        ≡ take count list.old ++ leaves_under levels (is_flagged flags.now) t }
    ensures count { result ≡ count + length (leaves_under levels (is_flagged flags.now) t) }
{
    if levels == 0 || !is_set(flags, t) {
        list[count] = t;
        return count + 1;
    }
    let between = put_leaves(flags, levels - 1, t.left(), list, count);
    put_leaves(flags, levels - 1, t.right(), list, between)
}
