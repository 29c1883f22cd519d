//! The first leaf and the last diamond, by asking at the heads of the mesh.

ghost use Rattle.std.specs.Prelude.{◌≡◌, ◌+◌, ◌*◌, ◌≤◌, ℕ, [], false, IfSome, MatchOption, All};
ghost use Rattle.mesh_defs.specs.Triangle.{level_of};
ghost use Rattle.mesh_defs.specs.ClosedSet.{leaves_of, among};
ghost use Rattle.mesh_laws.specs.Steps.{leaf_count};
ghost use Rattle.mesh_laws.specs.Deferred.{DeferredFrame, IsDeferredFrame, IsEntry};
ghost use Rattle.deferred_loop.specs.Choice.{IsFirstRank, IsLastRank};
ghost use Rattle.deferred_loop.specs.Seen.{SeenMesh, IsRated};
ghost use Rattle.deferred_loop.specs.Kept.{frame_priorities, IsSettled, IsAskedOnly, IsMet, IsAllowed, IsNoneMet};

use crate::gauge::Gauge;
use crate::limit::Limit;
use crate::queued::{Head, Last, Located, QueuedMesh};

/// Asks the priority of a triangle, and tells it to the mesh.
fn ask<M: QueuedMesh, G: Gauge>(mesh: &mut M, gauge: &mut G, t: Located)
    requires level { level_of t.tri ≤ 2 * (G.priorities gauge.old).n }
    requires at { M.tri_at mesh.old t.slot.0 ≡ t.tri }
    requires settled { (M.seen mesh.old).fresh ≡ [] }
    requires entry { IsEntry (M.seen mesh.old).set.n (among (M.seen mesh.old).set.members) t.tri }
    requires unknown { (M.seen mesh.old).known t.tri ≡ false }
    ensures priorities { G.priorities gauge.new ≡ G.priorities gauge.old }
    ensures readings { G.readings gauge.new ≡ G.readings gauge.old }
    ensures log { M.log mesh.new ≡ M.log mesh.old }
    ensures known { IsRated (M.seen mesh.old) (M.seen mesh.new)
        (record { p = (G.priorities gauge.old).of t.tri; tri = t.tri }) }
    ensures rises { G.count gauge.old ≤ G.count gauge.new }
    ensures most { G.count gauge.new ≤ G.count gauge.old + 1 }
{
    let rank = gauge.rank(t.tri);
    mesh.tell(t.slot, rank);
}

/// The first leaf in rank, if one has a positive priority.
///
/// Only the head of the split queue is asked, and only within the budget: above it the split queue is not looked at.
pub fn settle_first<M: QueuedMesh, G: Gauge>(mesh: &mut M, gauge: &mut G) -> Option<Head>
    ghost w: { DeferredFrame }
    requires frame { IsDeferredFrame w }
    requires priorities { G.priorities gauge.old ≡ frame_priorities w }
    requires settled { IsSettled w (M.seen mesh.old) }
    requires within { leaf_count w.n (M.seen mesh.old).set.members ≤ w.budget }
    ensures priorities { G.priorities gauge.new ≡ G.priorities gauge.old }
    ensures readings { G.readings gauge.new ≡ G.readings gauge.old }
    ensures log { M.log mesh.new ≡ M.log mesh.old }
    ensures asked { IsAskedOnly w (M.seen mesh.old) (M.seen mesh.new) (G.count gauge.old) (G.count gauge.new) }
    ensures first { MatchOption result
        (All (λ a. w.priority a ≡ 0) (leaves_of w.n (among (M.seen mesh.old).set.members)))
        (λ h. IsFirstRank w.n w.priority (M.seen mesh.old).set.members h.rank) }
    ensures at { IfSome result (λ h. M.tri_at mesh.new h.slot.0 ≡ h.rank.tri) }
{
    'asking: loop {
        let head = mesh.first();
        if head.rank.p == 0 {
            return None;
        }
        if head.sure {
            return Some(head);
        }
        ask(mesh, gauge, head.leaf());
    }
}

/// The last diamond in rank, if it meets the limit.
///
/// The head's key is compared with the limit before anything of the diamond is asked. The key is a lower bound, so
/// where it does not meet the limit no diamond does.
pub fn settle_last<M: QueuedMesh, G: Gauge>(
    mesh: &mut M,
    gauge: &mut G,
    limit: &Limit,
) -> Option<Last>
    ghost w: { DeferredFrame }
    requires frame { IsDeferredFrame w }
    requires priorities { G.priorities gauge.old ≡ frame_priorities w }
    requires settled { IsSettled w (M.seen mesh.old) }
    requires allowed { IsAllowed w (M.seen mesh.old).set.members limit.now }
    ensures priorities { G.priorities gauge.new ≡ G.priorities gauge.old }
    ensures readings { G.readings gauge.new ≡ G.readings gauge.old }
    ensures log { M.log mesh.new ≡ M.log mesh.old }
    ensures asked { IsAskedOnly w (M.seen mesh.old) (M.seen mesh.new) (G.count gauge.old) (G.count gauge.new) }
    ensures last { MatchOption result
        (IsNoneMet w (M.seen mesh.old).set.members limit.now)
        (λ d. IsLastRank w.n w.priority (M.seen mesh.old).set.members d.rank × IsMet limit.now d.rank) }
    ensures at { IfSome result (λ d. M.tri_at mesh.new d.slot.0 ≡ d.rank.tri) }
{
    'asking: loop {
        let Some(head) = mesh.last() else {
            return None;
        };
        if !limit.is_met(&head.rank) {
            return None;
        }
        let Some(t) = head.unasked else {
            return Some(head);
        };
        ask(mesh, gauge, t);
    }
}
