//! Forced splits along a ranking, as long as they fit the budget.

ghost use Rattle.std.specs.Prelude.{◌≡◌, ◌<◌, ◌≤◌, IfOk, IfSome, IsNone, All, length};
ghost use Rattle.mesh_defs.specs.Triangle.{IsSplittable};
ghost use Rattle.mesh_defs.specs.ClosedSet.{leaves_of, among};
ghost use Rattle.mesh_defs.specs.GridSet.{IsForced};
ghost use Rattle.mesh_defs.specs.declared.level.TheConstants.{GREATEST_LEVEL};
ghost use Rattle.plain_mesh.specs.Stop.{IsOver, IsStop};

use crate::PlainFrame;
use bintree_addr::{Blocked, Rank, Tri};
use diamond_rel::Split;
use mesh_defs::NoMemory;
use std::alloc::Global;

/// From the empty set, the triangles in turn, up to the first that does not fit.
pub fn refined(alloc: Global, n: u32, ranking: &[Rank], budget: u32) -> Result<PlainFrame, NoMemory>
    requires in_grid { (1 ≤ n) × (n ≤ GREATEST_LEVEL) }
    requires splittable { All (λ r. IsSplittable n r.tri) ranking.now }
    requires budget { 2 ≤ budget }
    ensures n { IfOk result (λ f. f.split.n ≡ n) }
    ensures stop { IfOk result (λ f. IsStop n budget ranking.now f.split.members f.worst f.blocked) }
{
    let mut split = Split::base(alloc, n);
    for entry in ranking {
        if let Some(need) = admit(alloc, &mut split, entry.tri, budget)? {
            return Ok(PlainFrame {
                split,
                worst: entry.p,
                blocked: Some(Blocked {
                    tri: entry.tri,
                    need,
                }),
            });
        }
    }
    Ok(PlainFrame {
        split,
        worst: 0,
        blocked: None,
    })
}

/// Splits the triangle with what that forces, if the leaves then fit the budget. Else nothing changes, and
/// the answer is how many leaves there would be.
fn admit(alloc: Global, split: &mut Split, t: Tri, budget: u32) -> Result<Option<u32>, NoMemory>
    requires splittable { IsSplittable split.old.n t }
    requires within { length (leaves_of split.old.n (among split.old.members)) ≤ budget }
    ensures n { split.new.n ≡ split.old.n }
    ensures split { IfOk result (λ o. IsNone o → IsForced split.old.n split.old.members t split.new.members) }
    ensures fits { IfOk result (λ o. IsNone o →
        length (leaves_of split.old.n (among split.new.members)) ≤ budget) }
    ensures same { IfOk result (λ o. IfSome o (λ need. split.new ≡ split.old)) }
    ensures over { IfOk result (λ o. IfSome o (λ need. IsOver split.old.n budget split.old.members t need)) }
{
    if split.has(t) {
        return Ok(None);
    }
    let need = split.size() + split.gain(alloc, t)? + 2;
    if need > budget {
        return Ok(Some(need));
    }
    split.split_forced(t)?;
    Ok(None)
}
