//! One split or merge, with its new entries.

ghost use Rattle.std.specs.Prelude.{◌≡◌, ℕ, ◌+◌, ◌-◌, ◌*◌, ◌<◌, ◌≤◌, ◌^◌, length};
ghost use Rattle.mesh_defs.specs.declared.counters.TheConstants.{LONGEST_WAY, MOST_CHANGES};
ghost use Rattle.mesh_laws.specs.Steps.{IsSplitStep, IsMergeStep};
ghost use Rattle.mesh_laws.specs.Deferred.{DeferredFrame, IsDeferredFrame};
ghost use Rattle.mesh_laws.specs.Stamps.{ReadingsHold};
ghost use Rattle.deferred_loop.specs.Choice.{IsNextSplit, IsNextMerge};
ghost use Rattle.deferred_loop.specs.Seen.{PoolSet, SeenMesh, HasRoom, IsCountedBy};
ghost use Rattle.deferred_loop.specs.Log.{IsLogged};
ghost use Rattle.deferred_loop.specs.Kept.{frame_priorities, IsSettled, IsCharged, IsStamped};

use crate::entering::enter_fresh;
use crate::gauge::Gauge;
use crate::queued::{Located, QueuedMesh};

/// Splits the first leaf with what it forces, enters what is new, and counts what was added.
pub fn split_at<M: QueuedMesh, G: Gauge>(
    mesh: &mut M,
    gauge: &mut G,
    odometer: u64,
    t: Located,
    splits: &mut u32,
)
    ghost w: { DeferredFrame }
    requires frame { IsDeferredFrame w }
    requires priorities { G.priorities gauge.old ≡ frame_priorities w }
    requires settled { IsSettled w (M.seen mesh.old) }
    requires next { IsNextSplit w.n w.budget w.priority (M.seen mesh.old).set.members t.tri }
    requires hold { ReadingsHold w.n w.priority odometer (G.readings gauge.old) }
    requires far { odometer ≤ LONGEST_WAY }
    requires small { splits.old ≤ 2 ^ 31 }
    requires counter { (M.seen mesh.old).set.splits + (4 * (M.seen mesh.old).set.n + 4) < MOST_CHANGES }
    requires room { HasRoom w.n (M.seen mesh.old).set.most w.budget }
    requires at { M.tri_at mesh.old t.slot.0 ≡ t.tri }
    ensures priorities { G.priorities gauge.new ≡ G.priorities gauge.old }
    ensures readings { G.readings gauge.new ≡ G.readings gauge.old }
    ensures log { IsLogged (M.seen mesh.old).set (M.seen mesh.new).set (M.log mesh.old) (M.log mesh.new) }
    ensures settled { IsSettled w (M.seen mesh.new) }
    ensures step { IsSplitStep w.n w.budget w.priority (M.seen mesh.old).set.members (M.seen mesh.new).set.members }
    ensures counters { (start : PoolSet) (removed : ℕ) → IsCountedBy start (M.seen mesh.old).set splits.old removed →
        IsCountedBy start (M.seen mesh.new).set splits.new removed }
    ensures charged { (evaluations removed : ℕ) →
        IsCharged w evaluations (M.seen mesh.old) splits.old removed (G.count gauge.old) →
        IsCharged w evaluations (M.seen mesh.new) splits.new removed (G.count gauge.new) }
    ensures stamped { (begin : SeenMesh) (first : ℕ) →
        IsStamped (G.readings gauge.old) odometer begin first (M.seen mesh.old) (G.count gauge.old) →
        IsStamped (G.readings gauge.old) odometer begin first (M.seen mesh.new) (G.count gauge.new) }
{
    let before = mesh.leaf_count();
    mesh.split(t);
    *splits += mesh.leaf_count() - before;
    enter_fresh(mesh, gauge, odometer);
}

/// Merges the last diamond, enters what is new, and counts what was taken away.
pub fn merge_at<M: QueuedMesh, G: Gauge>(
    mesh: &mut M,
    gauge: &mut G,
    odometer: u64,
    t: Located,
    merges: &mut u32,
)
    ghost w: { DeferredFrame }
    requires frame { IsDeferredFrame w }
    requires priorities { G.priorities gauge.old ≡ frame_priorities w }
    requires settled { IsSettled w (M.seen mesh.old) }
    requires next { IsNextMerge w.n w.budget w.priority (M.seen mesh.old).set.members t.tri }
    requires hold { ReadingsHold w.n w.priority odometer (G.readings gauge.old) }
    requires far { odometer ≤ LONGEST_WAY }
    requires small { merges.old ≤ 2 ^ 30 }
    requires counter { (M.seen mesh.old).set.merges < MOST_CHANGES }
    requires at { M.tri_at mesh.old t.slot.0 ≡ t.tri }
    ensures priorities { G.priorities gauge.new ≡ G.priorities gauge.old }
    ensures readings { G.readings gauge.new ≡ G.readings gauge.old }
    ensures log { IsLogged (M.seen mesh.old).set (M.seen mesh.new).set (M.log mesh.old) (M.log mesh.new) }
    ensures settled { IsSettled w (M.seen mesh.new) }
    ensures step { IsMergeStep w.n w.budget w.priority (M.seen mesh.old).set.members (M.seen mesh.new).set.members }
    ensures counters { (start : PoolSet) (added : ℕ) → IsCountedBy start (M.seen mesh.old).set added merges.old →
        IsCountedBy start (M.seen mesh.new).set added merges.new }
    ensures charged { (evaluations added : ℕ) →
        IsCharged w evaluations (M.seen mesh.old) added merges.old (G.count gauge.old) →
        IsCharged w evaluations (M.seen mesh.new) added merges.new (G.count gauge.new) }
    ensures stamped { (begin : SeenMesh) (first : ℕ) →
        IsStamped (G.readings gauge.old) odometer begin first (M.seen mesh.old) (G.count gauge.old) →
        IsStamped (G.readings gauge.old) odometer begin first (M.seen mesh.new) (G.count gauge.new) }
{
    let before = mesh.leaf_count();
    mesh.merge(t);
    *merges += before - mesh.leaf_count();
    enter_fresh(mesh, gauge, odometer);
}
