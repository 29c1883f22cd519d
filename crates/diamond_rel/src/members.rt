//! Sets of triangles as ascending vectors.

ghost use Rattle.std.specs.Prelude.{◌≡◌, ℕ, ◌≤◌, OnOk, length};
ghost use Rattle.mesh_defs.specs.ClosedSet.{among};
ghost use Rattle.mesh_defs.specs.Greedy.{with_triangle};
ghost use Rattle.mesh_defs.specs.GridSet.{IsAscending};

use bintree_addr::Tri;
use mesh_defs::NoMemory;

/// Whether the triangle is a member.
///
/// Cost (not proved): a binary search.
pub fn contains(members: &[Tri], t: Tri) -> bool
    requires ascending { IsAscending members.now }
    ensures value { result ≡ among members.now t }
{
    members.binary_search(&t).is_ok()
}

/// Puts the triangle among the members.
///
/// Cost (not proved): a binary search, and a move of the greater members.
pub fn insert(members: &mut Vec<Tri>, t: Tri) -> Result<(), NoMemory>
    requires ascending { IsAscending members.old.items }
    ensures ascending { OnOk result (IsAscending members.new.items) }
    ensures ok { OnOk result ((a : ℕ) → among members.new.items a ≡ with_triangle (among members.old.items) t a) }
    ensures longer { OnOk result (length members.old.items ≤ length members.new.items) }
{
    match members.binary_search(&t) {
        Ok(_) => Ok(()),
        Err(place) => {
            members.insert(place, t)?;
            Ok(())
        }
    }
}
