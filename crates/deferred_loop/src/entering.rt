//! New and due entries.

ghost use Rattle.std.specs.Prelude.{◌≡◌, ℕ, ◌+◌, ◌-◌, ◌<◌, ◌≤◌, ◌^◌, IsTrue, false, length};
ghost use Rattle.mesh_defs.specs.declared.counters.TheConstants.{LONGEST_WAY};
ghost use Rattle.mesh_defs.specs.Triangle.{IsAddress};
ghost use Rattle.mesh_defs.specs.ClosedSet.{among};
ghost use Rattle.mesh_laws.specs.Deferred.{DeferredFrame, IsDeferredFrame};
ghost use Rattle.mesh_laws.specs.Stamps.{ReadingsHold};
ghost use Rattle.deferred_loop.specs.Seen.{SeenMesh, IsQuiet};
ghost use Rattle.deferred_loop.specs.Log.{emptied};
ghost use Rattle.deferred_loop.specs.Kept.{frame_priorities, IsFrameOf, HasTrueKeys, IsSettled, IsCharged, IsCaughtUp};
ghost use Rattle.deferred_loop.specs.Kept.{IsStamped};

use crate::gauge::Gauge;
use crate::queued::QueuedMesh;

/// Takes a stamp of each fresh entry, and puts it in its place. No priority is asked.
pub fn enter_fresh<M: QueuedMesh, G: Gauge>(mesh: &mut M, gauge: &mut G, odometer: u64)
    ghost w: { DeferredFrame }
    requires priorities { G.priorities gauge.old ≡ frame_priorities w }
    requires hold { ReadingsHold w.n w.priority odometer (G.readings gauge.old) }
    requires sound { HasTrueKeys w (M.seen mesh.old) }
    requires unknown { (a : ℕ) → IsTrue (among (M.seen mesh.old).fresh a) → (M.seen mesh.old).known a ≡ false }
    requires addresses { (a : ℕ) → IsTrue (among (M.seen mesh.old).fresh a) → IsAddress w.n a }
    requires far { odometer ≤ LONGEST_WAY }
    ensures priorities { G.priorities gauge.new ≡ G.priorities gauge.old }
    ensures readings { G.readings gauge.new ≡ G.readings gauge.old }
    ensures log { M.log mesh.new ≡ M.log mesh.old }
    ensures entered { IsCaughtUp w (G.readings gauge.old) odometer (M.seen mesh.old) (M.seen mesh.new) }
    ensures most { G.count gauge.new ≤ G.count gauge.old + length (M.seen mesh.old).fresh }
    ensures least { G.count gauge.new < 2 ^ 64 - 1 →
        G.count gauge.old + length (M.seen mesh.old).fresh ≤ G.count gauge.new }
{
    'entering: loop {
        let Some(t) = mesh.next_fresh() else {
            return;
        };
        let reading = gauge.reading(t);
        mesh.enter(t, &reading, odometer);
    }
}

/// The frame's beginning: what is due is stamped anew, before any priority is asked.
pub fn begin_frame<M: QueuedMesh, G: Gauge>(mesh: &mut M, gauge: &mut G, odometer: u64)
    ghost w: { DeferredFrame }
    requires frame { IsDeferredFrame w }
    requires priorities { G.priorities gauge.old ≡ frame_priorities w }
    requires of { IsFrameOf w (G.readings gauge.old) odometer (M.seen mesh.old) }
    requires hold { ReadingsHold w.n w.priority odometer (G.readings gauge.old) }
    requires quiet { IsQuiet (M.seen mesh.old) }
    requires far { odometer ≤ LONGEST_WAY }
    ensures priorities { G.priorities gauge.new ≡ G.priorities gauge.old }
    ensures readings { G.readings gauge.new ≡ G.readings gauge.old }
    ensures log { M.log mesh.new ≡ emptied (M.log mesh.old) }
    ensures set { (M.seen mesh.new).set ≡ (M.seen mesh.old).set }
    ensures settled { IsSettled w (M.seen mesh.new) }
    ensures charged { IsCharged w (G.count gauge.old) (M.seen mesh.new) 0 0 (G.count gauge.new) }
    ensures stamped { IsStamped (G.readings gauge.old) odometer (M.seen mesh.old) (G.count gauge.old) (M.seen mesh.new)
        (G.count gauge.new) }
{
    mesh.begin(odometer);
    enter_fresh(mesh, gauge, odometer);
}
