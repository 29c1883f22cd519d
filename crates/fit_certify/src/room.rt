//! Room for what is done to a mesh: a flag for each triangle that may be split, and a list of the leaves.

ghost use Rattle.std.specs.Prelude.{◌≡◌, ℕ, ◌+◌, ◌*◌, ◌^◌, ◌≤◌, false, All, IfOk, length};
ghost use Rattle.mesh_defs.specs.Triangle.{level_of};
ghost use Rattle.mesh_defs.specs.ClosedSet.{IsClosed, leaves_of};
ghost use Rattle.mesh_defs.specs.declared.level.TheConstants.{GREATEST_LEVEL};
ghost use Rattle.mesh_laws.specs.Sweep.{is_flagged};

use address_flags::{end, list_leaves};
use bintree_addr::Tri;
use mesh_defs::NoMemory;
use std::alloc::Global;

/// Flags of no triangle, one for each that may be split.
pub(crate) fn no_flags(alloc: Global, n: u32) -> Result<Vec<bool>, NoMemory>
    requires in_grid { (1 ≤ n) × (n ≤ GREATEST_LEVEL) }
    ensures room { IfOk result (λ v. length v.items ≡ 2 ^ (2 * n + 1)) }
    ensures empty { IfOk result (λ v. (a : ℕ) → is_flagged v.items a ≡ false) }
    ensures closed { IfOk result (λ v. IsClosed n (is_flagged v.items)) }
{
    let flags = vec![in alloc; false; end(n) as usize]?;
    Ok(flags)
}

/// A list as long as that of all finest triangles.
pub(crate) fn leaf_room(alloc: Global, n: u32) -> Result<Vec<Tri>, NoMemory>
    requires in_grid { (1 ≤ n) × (n ≤ GREATEST_LEVEL) }
    ensures { IfOk result (λ v. length v.items ≡ 2 ^ (2 * n + 1)) }
{
    let room = vec![in alloc; Tri::LOWER; end(n) as usize]?;
    Ok(room)
}

/// The leaves of the flagged set, depth first.
pub(crate) fn leaves(alloc: Global, n: u32, flags: &[bool]) -> Result<Vec<Tri>, NoMemory>
    requires in_grid { (1 ≤ n) × (n ≤ GREATEST_LEVEL) }
    ensures listed { IfOk result (λ v. v.items ≡ leaves_of n (is_flagged flags.now)) }
    ensures levels { IfOk result (λ v. All (λ a. level_of a ≤ 2 * n) v.items) }
    ensures few { IfOk result (λ v. length v.items ≤ 2 ^ (2 * n + 1)) }
{
    let mut room = leaf_room(alloc, n)?;
    let count = list_leaves(flags, n, &mut room);
    room.truncate(count);
    Ok(room)
}
