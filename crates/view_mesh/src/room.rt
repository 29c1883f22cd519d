//! How many leaves a mesh has room for.

ghost use Rattle.std.specs.Prelude.{◌≡◌, ◌*◌, ◌^◌, ◌≤◌, min};
ghost use Rattle.mesh_defs.specs.declared.level.TheConstants.{GREATEST_LEVEL};

/// For how many leaves a mesh has room.
///
/// For those of the budget, or for all that there can be.
pub fn leaf_room(n: u32, budget: u32) -> u32
    requires in_grid { n ≤ GREATEST_LEVEL }
    requires some { 2 ≤ budget }
    ensures value { result ≡ min budget (2 * 4 ^ n) }
    ensures some { 2 ≤ result }
    ensures few { result ≤ budget }
{
    budget.min(2 * 4u32.pow(n))
}
