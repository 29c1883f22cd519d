//! One frame.

ghost use Rattle.std.specs.Prelude.{◌≡◌, ℕ, ◌+◌, ◌-◌, ◌*◌, ◌<◌, ◌≤◌, ◌^◌, IsTrue, List, length};
ghost use Rattle.mesh_defs.specs.declared.counters.TheConstants.{LONGEST_WAY, CHANGES_AT_FRAME};
ghost use Rattle.mesh_defs.specs.ClosedSet.{among};
ghost use Rattle.mesh_defs.specs.GridSet.{IsGridSet};
ghost use Rattle.mesh_defs.specs.Falling.{IsFalling};
ghost use Rattle.mesh_laws.specs.Steps.{IsFrameRun};
ghost use Rattle.mesh_laws.specs.Deferred.{DeferredFrame, IsDeferredFrame, IsOpen};
ghost use Rattle.mesh_laws.specs.Frame.{IsFrame};
ghost use Rattle.mesh_laws.specs.Stamps.{StampsHold, ReadingsHold};
ghost use Rattle.deferred_loop.specs.Choice.{IsSparing};
ghost use Rattle.deferred_loop.specs.Seen.{SeenMesh, IsQuiet, HasRoom, IsCountedBy};
ghost use Rattle.deferred_loop.specs.Log.{emptied, IsLogged, IsFrameLog};
ghost use Rattle.deferred_loop.specs.Kept.{frame_priorities, IsFrameOf, IsStamped};
ghost use Rattle.deferred_loop.specs.Promise.{IsAtMost, IsAtLeast, AreStampsGood};

use crate::choice::choose;
use crate::entering::begin_frame;
use crate::gauge::Gauge;
use crate::next::Next;
use crate::queued::QueuedMesh;
use crate::step::{merge_at, split_at};
use bintree_addr::Blocked;

/// What one frame did.
#[derive(Clone, Copy)]
pub struct Steps {
    /// How many triangles were split, forced ones too.
    pub splits: u32,
    /// How many triangles were merged.
    pub merges: u32,
    /// The greatest priority of a leaf.
    pub worst: u64,
    /// The first triangle in rank that the budget does not let in.
    pub blocked: Option<Blocked>,
}

/// One frame, over the frame over bounds that it begins.
fn advance_over<M: QueuedMesh, G: Gauge>(
    mesh: &mut M,
    gauge: &mut G,
    budget: u32,
    odometer: u64,
) -> Steps
    ghost w: { DeferredFrame }
    requires frame { IsDeferredFrame w }
    requires priorities { G.priorities gauge.old ≡ frame_priorities w }
    requires of { IsFrameOf w (G.readings gauge.old) odometer (M.seen mesh.old) }
    requires hold { ReadingsHold w.n w.priority odometer (G.readings gauge.old) }
    requires quiet { IsQuiet (M.seen mesh.old) }
    requires budget { budget ≡ w.budget }
    requires far { odometer ≤ LONGEST_WAY }
    requires counted { G.count gauge.old < CHANGES_AT_FRAME }
    requires room { HasRoom w.n (M.seen mesh.old).set.most w.budget }
    requires counters { ((M.seen mesh.old).set.splits < CHANGES_AT_FRAME)
        × ((M.seen mesh.old).set.merges < CHANGES_AT_FRAME) }
    ensures priorities { G.priorities gauge.new ≡ G.priorities gauge.old }
    ensures readings { G.readings gauge.new ≡ G.readings gauge.old }
    ensures log { IsLogged (M.seen mesh.old).set (M.seen mesh.new).set (emptied (M.log mesh.old)) (M.log mesh.new) }
    ensures grid { (M.seen mesh.new).set.n ≡ w.n }
    ensures quiet { IsQuiet (M.seen mesh.new) }
    ensures counted { G.count gauge.new < 2 ^ 64 - 1 }
    ensures counters { IsCountedBy (M.seen mesh.old).set (M.seen mesh.new).set result.splits result.merges }
    ensures run { IsFrameRun w.n w.budget w.priority w.start (M.seen mesh.new).set.members result.splits result.merges }
    ensures frame { IsFrame w.n w.budget w.priority (among (M.seen mesh.new).set.members) result.worst result.blocked }
    ensures most { (all_open : List ℕ) → ((a : ℕ) → IsOpen w a → IsTrue (among all_open a)) →
        G.count gauge.new ≤ G.count gauge.old + 2 * length all_open + 6 * (result.splits + result.merges) }
    ensures stamped { IsStamped (G.readings gauge.old) odometer (M.seen mesh.old) (G.count gauge.old) (M.seen mesh.new)
        (G.count gauge.new) }
{
    begin_frame(mesh, gauge, odometer);
    let mut splits = 0;
    let mut merges = 0;
    'steps: loop {
        match choose(mesh, gauge, budget) {
            Next::Split(t) => split_at(mesh, gauge, odometer, t, &mut splits),
            Next::Merge(t) => merge_at(mesh, gauge, odometer, t, &mut merges),
            Next::End(e) => {
                mesh.forget();
                return Steps {
                    splits,
                    merges,
                    worst: e.worst,
                    blocked: e.blocked,
                };
            }
        }
    }
}

/// Makes the mesh of one frame from that of the frame before, which may be any closed set, also one over the budget.
///
/// `run` and `frame`: the set is the rank closure of the budget, reached by the steps of the frame. `sparing`: it
/// changes no more than it must. `most` and `least`: how often the gauge was asked. `stamps`: each entry has a stamp
/// that is not due. `changed`: the log has each triangle whose membership differs.
pub fn advance<M: QueuedMesh, G: Gauge>(
    mesh: &mut M,
    gauge: &mut G,
    budget: u32,
    odometer: u64,
) -> Steps
    requires grid { (G.priorities gauge.old).n ≡ (M.seen mesh.old).set.n }
    requires budget { 2 ≤ budget }
    requires far { odometer ≤ LONGEST_WAY }
    requires counted { G.count gauge.old < CHANGES_AT_FRAME }
    requires room { HasRoom (M.seen mesh.old).set.n (M.seen mesh.old).set.most budget }
    requires counters { ((M.seen mesh.old).set.splits < CHANGES_AT_FRAME)
        × ((M.seen mesh.old).set.merges < CHANGES_AT_FRAME) }
    requires falls { IsFalling (G.priorities gauge.old).n (G.priorities gauge.old).of }
    requires readings { ReadingsHold (G.priorities gauge.old).n (G.priorities gauge.old).of
        odometer (G.readings gauge.old) }
    requires stamps { StampsHold (G.priorities gauge.old).of odometer (M.seen mesh.old).stamps }
    requires valid { IsGridSet (M.seen mesh.old).set.n (M.seen mesh.old).set.members }
    requires quiet { IsQuiet (M.seen mesh.old) }
    ensures priorities { G.priorities gauge.new ≡ G.priorities gauge.old }
    ensures readings { G.readings gauge.new ≡ G.readings gauge.old }
    ensures grid { (M.seen mesh.new).set.n ≡ (M.seen mesh.old).set.n }
    ensures quiet { IsQuiet (M.seen mesh.new) }
    ensures counted { G.count gauge.new < 2 ^ 64 - 1 }
    ensures counters { IsCountedBy (M.seen mesh.old).set (M.seen mesh.new).set result.splits result.merges }
    ensures run { IsFrameRun (M.seen mesh.old).set.n budget (G.priorities gauge.old).of
        (M.seen mesh.old).set.members (M.seen mesh.new).set.members result.splits result.merges }
    ensures frame { IsFrame (M.seen mesh.old).set.n budget (G.priorities gauge.old).of
        (among (M.seen mesh.new).set.members) result.worst result.blocked }
    ensures sparing { IsSparing (M.seen mesh.old).set.n budget (G.priorities gauge.old).of
        (M.seen mesh.old).set.members (M.seen mesh.new).set.members result.splits result.merges }
    ensures most { IsAtMost (G.priorities gauge.old) (G.readings gauge.old) odometer (M.seen mesh.old) budget
        (result.splits + result.merges) (G.count gauge.old) (G.count gauge.new) }
    ensures least { IsAtLeast (M.seen mesh.old) (M.seen mesh.new) (G.count gauge.old) (G.count gauge.new) }
    ensures stamps { AreStampsGood (G.readings gauge.old) odometer (M.seen mesh.old) (M.seen mesh.new) }
    ensures changed { IsFrameLog (M.seen mesh.old).set.members (M.seen mesh.new).set.members
        (result.splits + result.merges) (M.log mesh.old) (M.log mesh.new) }
{
    advance_over(mesh, gauge, budget, odometer)
}
