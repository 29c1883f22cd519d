//! The leaves of a set of triangles, depth first.

ghost use Rattle.std.specs.Prelude.{◌≡◌, ◌+◌, ◌*◌, ◌≤◌, ◌++◌, OnOk};
ghost use Rattle.mesh_defs.specs.Triangle.{level_of};
ghost use Rattle.mesh_defs.specs.ClosedSet.{leaves_under, leaves_of, among};
ghost use Rattle.mesh_defs.specs.GridSet.{IsAscending};
ghost use Rattle.mesh_defs.specs.declared.level.TheConstants.{GREATEST_LEVEL};

use crate::members::contains;
use bintree_addr::Tri;
use mesh_defs::NoMemory;

/// Adds the leaves at and below the triangle, which has so many levels below it.
fn push_leaves(members: &[Tri], levels: u32, t: Tri, out: &mut Vec<Tri>) -> Result<(), NoMemory>
    requires ascending { IsAscending members.now }
    requires deep { levels + level_of t ≤ 28 }
    ensures { OnOk result (out.new.items ≡ out.old.items ++ leaves_under levels (among members.now) t) }
{
    if levels == 0 || !contains(members, t) {
        out.push(t)?;
        return Ok(());
    }
    push_leaves(members, levels - 1, t.left(), out)?;
    push_leaves(members, levels - 1, t.right(), out)?;
    Ok(())
}

/// Adds all leaves of the set in the grid of side 2^n.
pub fn push_all_leaves(members: &[Tri], n: u32, out: &mut Vec<Tri>) -> Result<(), NoMemory>
    requires in_grid { n ≤ GREATEST_LEVEL }
    requires ascending { IsAscending members.now }
    ensures { OnOk result (out.new.items ≡ out.old.items ++ leaves_of n (among members.now)) }
{
    push_leaves(members, 2 * n, Tri::LOWER, out)?;
    push_leaves(members, 2 * n, Tri::UPPER, out)?;
    Ok(())
}
