//! Which step comes next.

ghost use Rattle.std.specs.Prelude.{◌≡◌, ◌≤◌, ◌<◌, ℕ, All};
ghost use Rattle.mesh_defs.specs.ClosedSet.{leaves_of, among};
ghost use Rattle.mesh_laws.specs.Steps.{leaf_count};
ghost use Rattle.mesh_laws.specs.Deferred.{DeferredFrame, IsDeferredFrame};
ghost use Rattle.deferred_loop.specs.Choice.{IsFirstRank, IsNext};
ghost use Rattle.deferred_loop.specs.Seen.{SeenMesh};
ghost use Rattle.deferred_loop.specs.Kept.{frame_priorities, IsSettled, IsAskedOnly, SplitsUnasked, IsStepAt};

use crate::asking::{settle_first, settle_last};
use crate::gauge::Gauge;
use crate::limit::Limit;
use crate::next::{Ending, Next};
use crate::queued::{Head, QueuedMesh};
use bintree_addr::Blocked;

/// Where the leaves exceed the budget.
fn choose_over<M: QueuedMesh, G: Gauge>(mesh: &mut M, gauge: &mut G) -> Next
    ghost w: { DeferredFrame }
    requires frame { IsDeferredFrame w }
    requires priorities { G.priorities gauge.old ≡ frame_priorities w }
    requires settled { IsSettled w (M.seen mesh.old) }
    requires over { w.budget < leaf_count w.n (M.seen mesh.old).set.members }
    ensures priorities { G.priorities gauge.new ≡ G.priorities gauge.old }
    ensures readings { G.readings gauge.new ≡ G.readings gauge.old }
    ensures log { M.log mesh.new ≡ M.log mesh.old }
    ensures asked { IsAskedOnly w (M.seen mesh.old) (M.seen mesh.new) (G.count gauge.old) (G.count gauge.new) }
    ensures next { IsNext w.n w.budget w.priority (M.seen mesh.old).set.members result }
    ensures at { IsStepAt (M.tri_at mesh.new) result }
{
    match settle_last(mesh, gauge, &Limit::Over) {
        Some(d) => Next::Merge(d.diamond()),
        None => Next::End(Ending {
            worst: 0,
            blocked: None,
        }),
    }
}

/// Where a leaf has a positive priority. Nothing is asked of the merge queue where that leaf fits.
fn choose_with<M: QueuedMesh, G: Gauge>(
    mesh: &mut M,
    gauge: &mut G,
    first: &Head,
    budget: u32,
) -> Next
    ghost w: { DeferredFrame }
    requires frame { IsDeferredFrame w }
    requires priorities { G.priorities gauge.old ≡ frame_priorities w }
    requires settled { IsSettled w (M.seen mesh.old) }
    requires budget { budget ≡ w.budget }
    requires within { leaf_count w.n (M.seen mesh.old).set.members ≤ w.budget }
    requires first { IsFirstRank w.n w.priority (M.seen mesh.old).set.members first.now.rank }
    requires at { M.tri_at mesh.old first.now.slot.0 ≡ first.now.rank.tri }
    ensures priorities { G.priorities gauge.new ≡ G.priorities gauge.old }
    ensures readings { G.readings gauge.new ≡ G.readings gauge.old }
    ensures log { M.log mesh.new ≡ M.log mesh.old }
    ensures asked { IsAskedOnly w (M.seen mesh.old) (M.seen mesh.new) (G.count gauge.old) (G.count gauge.new) }
    ensures split { SplitsUnasked result (M.seen mesh.old) (M.seen mesh.new) (G.count gauge.old) (G.count gauge.new) }
    ensures next { IsNext w.n w.budget w.priority (M.seen mesh.old).set.members result }
    ensures at { IsStepAt (M.tri_at mesh.new) result }
{
    let need = mesh.leaf_count() + mesh.gain(first.leaf());
    if need <= budget {
        return Next::Split(first.leaf());
    }
    match settle_last(mesh, gauge, &Limit::After(first.rank)) {
        Some(d) => Next::Merge(d.diamond()),
        None => Next::End(Ending {
            worst: first.rank.p,
            blocked: Some(Blocked {
                tri: first.rank.tri,
                need,
            }),
        }),
    }
}

/// Where no leaf has a positive priority.
fn choose_without<M: QueuedMesh, G: Gauge>(mesh: &mut M, gauge: &mut G) -> Next
    ghost w: { DeferredFrame }
    requires frame { IsDeferredFrame w }
    requires priorities { G.priorities gauge.old ≡ frame_priorities w }
    requires settled { IsSettled w (M.seen mesh.old) }
    requires within { leaf_count w.n (M.seen mesh.old).set.members ≤ w.budget }
    requires none { All (λ a. w.priority a ≡ 0) (leaves_of w.n (among (M.seen mesh.old).set.members)) }
    ensures priorities { G.priorities gauge.new ≡ G.priorities gauge.old }
    ensures readings { G.readings gauge.new ≡ G.readings gauge.old }
    ensures log { M.log mesh.new ≡ M.log mesh.old }
    ensures asked { IsAskedOnly w (M.seen mesh.old) (M.seen mesh.new) (G.count gauge.old) (G.count gauge.new) }
    ensures next { IsNext w.n w.budget w.priority (M.seen mesh.old).set.members result }
    ensures at { IsStepAt (M.tri_at mesh.new) result }
{
    match settle_last(mesh, gauge, &Limit::Zero) {
        Some(d) => Next::Merge(d.diamond()),
        None => Next::End(Ending {
            worst: 0,
            blocked: None,
        }),
    }
}

/// The next step, or the end.
pub fn choose<M: QueuedMesh, G: Gauge>(mesh: &mut M, gauge: &mut G, budget: u32) -> Next
    ghost w: { DeferredFrame }
    requires frame { IsDeferredFrame w }
    requires priorities { G.priorities gauge.old ≡ frame_priorities w }
    requires settled { IsSettled w (M.seen mesh.old) }
    requires budget { budget ≡ w.budget }
    ensures priorities { G.priorities gauge.new ≡ G.priorities gauge.old }
    ensures readings { G.readings gauge.new ≡ G.readings gauge.old }
    ensures log { M.log mesh.new ≡ M.log mesh.old }
    ensures asked { IsAskedOnly w (M.seen mesh.old) (M.seen mesh.new) (G.count gauge.old) (G.count gauge.new) }
    ensures next { IsNext w.n w.budget w.priority (M.seen mesh.old).set.members result }
    ensures at { IsStepAt (M.tri_at mesh.new) result }
{
    if mesh.leaf_count() > budget {
        return choose_over(mesh, gauge);
    }
    match settle_first(mesh, gauge) {
        Some(first) => choose_with(mesh, gauge, &first, budget),
        None => choose_without(mesh, gauge),
    }
}
