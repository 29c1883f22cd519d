//! Forced splits: the least closed set that also has a triangle.

ghost use Rattle.std.specs.Prelude.{◌≤◌, OnOk, length};
ghost use Rattle.mesh_defs.specs.Triangle.{IsSplittable};
ghost use Rattle.mesh_defs.specs.ClosedSet.{IsClosed, IsLeastClosed, among};
ghost use Rattle.mesh_defs.specs.Greedy.{with_triangle};
ghost use Rattle.mesh_defs.specs.GridSet.{IsAscending};
ghost use Rattle.mesh_defs.specs.declared.level.TheConstants.{GREATEST_LEVEL};
ghost use Rattle.mesh_laws.specs.Forcing.{IsPrepared};

use crate::members::{contains, insert};
use bintree_addr::Tri;
use mesh_defs::NoMemory;

/// Splits the triangle, and before it what it stands on: its parent, its mate and its mate's parent.
///
/// After an error the members are of no use.
/// Cost (not proved): at most two steps a level, each a search and perhaps an insert.
/// Source: Duchaineau et al., "ROAMing Terrain", IEEE Visualization 1997, section 4 (forced splits).
#[cycle(force)]
pub fn force(members: &mut Vec<Tri>, n: u32, t: Tri) -> Result<(), NoMemory>
    requires in_grid { (1 ≤ n) × (n ≤ GREATEST_LEVEL) }
    requires splittable { IsSplittable n t }
    requires ascending { IsAscending members.old.items }
    requires closed { IsClosed n (among members.old.items) }
    ensures ascending { OnOk result (IsAscending members.new.items) }
    ensures least { OnOk result
        (IsLeastClosed n (with_triangle (among members.old.items) t) (among members.new.items)) }
    ensures longer { OnOk result (length members.old.items ≤ length members.new.items) }
{
    if contains(members, t) {
        return Ok(());
    }
    force_parent(members, n, t)?;
    match t.mate(n) {
        None => {
            insert(members, t)?;
            Ok(())
        }
        Some(mate) => {
            force_parent(members, n, mate)?;
            insert(members, mate)?;
            insert(members, t)?;
            Ok(())
        }
    }
}

/// Splits the triangle's parent, where it has one, and what that stands on.
#[cycle(force)]
fn force_parent(members: &mut Vec<Tri>, n: u32, t: Tri) -> Result<(), NoMemory>
    requires in_grid { (1 ≤ n) × (n ≤ GREATEST_LEVEL) }
    requires splittable { IsSplittable n t }
    requires ascending { IsAscending members.old.items }
    requires closed { IsClosed n (among members.old.items) }
    ensures ascending { OnOk result (IsAscending members.new.items) }
    ensures prepared { OnOk result (IsPrepared n (among members.old.items) (among members.new.items) t) }
    ensures longer { OnOk result (length members.old.items ≤ length members.new.items) }
{
    match t.parent() {
        None => Ok(()),
        Some(parent) => {
            force(members, n, parent)?;
            Ok(())
        }
    }
}
