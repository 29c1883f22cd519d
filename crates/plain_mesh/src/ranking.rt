//! The ranking: which triangles are worth a split, and in which order.

ghost use Rattle.std.specs.Prelude.{◌≡◌, ◌<◌, ◌≤◌, ◌+◌, ◌*◌, ◌^◌, ◌↔◌, IsTrue, IfOk};
ghost use Rattle.mesh_defs.specs.State.{priority_seen};
ghost use Rattle.plain_mesh.specs.Ranks.{IsPicked, IsRanked, positives_below};

use bintree_addr::{Rank, Tri, level_laws, rank_laws};
use mesh_defs::NoMemory;
use std::alloc::Global;
use view_priority::{Meter, Scene};

/// The splittable triangles of positive priority, in rank order.
///
/// Cost (not proved): that of `picked`, and a sort in place.
pub fn ranking_of(alloc: Global, scene: &Scene<'_>) -> Result<Vec<Rank>, NoMemory>
    ensures { IfOk result (λ v.
        IsRanked scene.now.grid.n (priority_seen scene.now) v.items) }
{
    level_laws();
    rank_laws();
    let mut ranking = picked(alloc, scene)?;
    ranking.sort_unstable();
    Ok(ranking)
}

/// The splittable triangles of positive priority, in order of address.
///
/// Cost (not proved): two evaluations of each splittable triangle, and 16 bytes for each that is picked,
/// which are taken at once.
fn picked(alloc: Global, scene: &Scene<'_>) -> Result<Vec<Rank>, NoMemory>
    ensures { IfOk result (λ v. IsPicked (priority_seen scene.now) (2 ^ (2 * scene.now.grid.n + 1)) v.items) }
{
    let room = count_positive(scene);
    let mut meter = Meter::new();
    let mut ranks = Vec::with_capacity(alloc, room as usize)?;
    for number in 2..end(scene) {
        let entry = rank_at(scene, number, &mut meter);
        if is_positive(&entry) {
            ranks.push(entry)?;
        }
    }
    Ok(ranks)
}

/// How many splittable triangles have a positive priority.
fn count_positive(scene: &Scene<'_>) -> u32
    ensures { result ≡ positives_below (priority_seen scene.now) (2 ^ (2 * scene.now.grid.n + 1)) }
{
    let mut meter = Meter::new();
    let mut count = 0;
    for number in 2..end(scene) {
        let entry = rank_at(scene, number, &mut meter);
        if is_positive(&entry) {
            count += 1;
        }
    }
    count
}

/// Whether the triangle is worth a split.
fn is_positive(entry: &Rank) -> bool
    ensures { IsTrue result ↔ (0 < entry.now.p) }
{
    entry.p > 0
}

/// The first address past the splittable ones.
fn end(scene: &Scene<'_>) -> u32
    ensures value { result ≡ 2 ^ (2 * scene.now.grid.n + 1) }
    ensures low { 2 ≤ result }
{
    1 << (2 * scene.n() + 1)
}

/// The rank of the splittable triangle with this address.
fn rank_at(scene: &Scene<'_>, number: u32, meter: &mut Meter) -> Rank
    requires low { 2 ≤ number }
    requires splittable { number < 2 ^ (2 * scene.now.grid.n + 1) }
    ensures tri { result.tri ≡ number }
    ensures value { result.p ≡ priority_seen scene.now number }
{
    level_laws();
    let _valid = scene.n();
    scene.rank(Tri::at(number).unwrap(), meter)
}
