//! The mesh.

ghost use Rattle.std.specs.Prelude.{◌≡◌, ℕ, ◌+◌, ◌-◌, ◌*◌, ◌^◌, ◌<◌, ◌≤◌, false, None, Some, [], MatchOption, cond};
ghost use Rattle.std.specs.Prelude.{nat_eq, option_map, slice_index, ◌↔◌, All, IsNone, IfOk};
ghost use Rattle.mesh_defs.specs.declared.counters.TheConstants.{LONGEST_WAY, CHANGES_AT_FRAME};
ghost use Rattle.mesh_defs.specs.ClosedSet.{leaves_of, among};
ghost use Rattle.mesh_defs.specs.Falling.{IsFalling};
ghost use Rattle.mesh_defs.specs.declared.level.TheConstants.{GREATEST_LEVEL};
ghost use Rattle.mesh_laws.specs.Slots.{address_at, split_set, IsLive, IsPool};
ghost use Rattle.triangle_pool.specs.declared.pool.TheConstants.{MOST_LEAVES};
ghost use Rattle.mesh_laws.specs.Frame.{IsFrame};
ghost use Rattle.mesh_laws.specs.Steps.{IsFrameRun};
ghost use Rattle.mesh_laws.specs.Stamps.{StampsHold, ReadingsHold};
ghost use Rattle.deferred_loop.specs.Seen.{HasRoom, IsCountedBy};
ghost use Rattle.deferred_loop.specs.Log.{IsFrameLog};
ghost use Rattle.deferred_loop.specs.Choice.{IsSparing};
ghost use Rattle.deferred_loop.specs.Promise.{IsAtMost, IsAtLeast, AreStampsGood};
ghost use Rattle.roam_mesh.specs.Mesh.{stamp_of, pool_members, pool_set, seen_of, with_expired};
ghost use Rattle.roam_mesh.specs.Mesh.{OnlyEntriesStamped};
ghost use Rattle.roam_mesh.specs.Chosen.{SparesChosen};

use crate::find::find;
use crate::log::ChangeLog;
use crate::parts::Parts;
use crate::queued::QueuedParts;
use bintree_addr::{Slot, Tri};
use deferred_loop::{Gauge, Steps, advance};
use mesh_defs::NoMemory;
use mesh_laws::frame_laws;
use std::alloc::Global;
use std::marker::Model;
use triangle_pool::Pool;

/// A mesh from frame to frame: seen as its pool, and a finite map from its triangles to stamps.
#[derive(Drop)]
pub struct Mesh {
    /// On the heap, so that a function which owns a mesh owns little: each exit of such a function drops it.
    queued: Box<QueuedParts>,
}

impl Model for Mesh {
    ghost use Rattle.deferred_loop.specs.Seen.{IsQuiet};
    ghost use Rattle.roam_mesh.specs.Mesh.{MeshState};
    ghost use Rattle.roam_mesh.specs.Parts.{mesh_of, seen_parts};

    ghost Value = { MeshState };

    ghost view = { λ m. mesh_of m.queued.value.parts m.queued.value.log };

    ghost invariant = { λ m. IsQuiet (seen_parts m.queued.value.parts) };
}

impl Mesh {
    /// The two halves of the square, with room for as many leaves as asked; no triangle has a stamp.
    pub fn make(alloc: Global, n: u32, leaves: u32) -> Result<Mesh, NoMemory>
        requires n { (1 ≤ n) × (n ≤ GREATEST_LEVEL) }
        requires some { 2 ≤ leaves }
        requires few { leaves ≤ MOST_LEAVES }
        ensures n { IfOk result (λ m. m.pool.n ≡ n) }
        ensures most { IfOk result (λ m. m.pool.most ≡ leaves) }
        ensures base { IfOk result (λ m. (a : ℕ) → split_set m.pool.pairs a ≡ false) }
        ensures splits { IfOk result (λ m. m.pool.splits ≡ 0) }
        ensures merges { IfOk result (λ m. m.pool.merges ≡ 0) }
        ensures stamps { IfOk result (λ m. (a : ℕ) → stamp_of m a ≡ None) }
        ensures log { IfOk result (λ m. m.log ≡ record { changed = Some []; room = leaves }) }
    {
        let log = ChangeLog::new(alloc, leaves)?;
        let parts = Parts::new(alloc, n, leaves)?;
        Ok(Mesh {
            queued: Box::new(alloc, QueuedParts { parts, log })?,
        })
    }

    /// The pool of its triangles. The two halves of the square stand at the slots 0 and 1.
    pub fn pool(&self) -> &Pool
        ensures pool { result.now ≡ self.now.pool }
        ensures valid { IsPool self.now.pool.n self.now.pool.pairs }
        ensures root { slice_index self.now.pool.pairs 0 ≡ 1 }
        ensures only { OnlyEntriesStamped self.now }
    {
        let queued: &QueuedParts = &self.queued;
        &queued.parts.pool
    }

    /// The stamp of the triangle, if there is one, is expired from now on.
    pub fn expire(&mut self, t: Tri)
        ensures pool { self.new.pool ≡ self.old.pool }
        ensures stamps { (a : ℕ) → stamp_of self.new a
            ≡ cond (nat_eq t a) (option_map with_expired (stamp_of self.old a)) (stamp_of self.old a) }
        ensures log { self.new.log ≡ self.old.log }
    {
        if let Some(s) = find(self.pool(), t) {
            self.expire_at(s);
        }
    }

    /// The stamp of the triangle at a slot, if there is one, is expired from now on.
    ///
    /// Cost (not proved): that of `Lazy::expire`; `expire` looks for the slot first.
    pub fn expire_at(&mut self, s: Slot)
        requires live { IsLive self.old.pool.pairs s.0 }
        ensures pool { self.new.pool ≡ self.old.pool }
        ensures stamps { (a : ℕ) → stamp_of self.new a ≡ cond (nat_eq (address_at self.old.pool.pairs s.0) a)
            (option_map with_expired (stamp_of self.old a)) (stamp_of self.old a) }
        ensures log { self.new.log ≡ self.old.log }
    {
        self.queued.parts.expire(s);
    }

    /// The triangles that the last frame split or merged, in the order of its steps. Each that is split now and was
    /// not before it is among them, and each that was and is not; one that was split and merged again is listed
    /// twice. None where the frame split and merged more triangles than `make` took room for leaves.
    ///
    /// Nothing is listed before the first frame, and no other call changes the list.
    /// Cost (not proved): nothing; `advance` pays for the list, a place for each triangle that it splits or merges.
    pub fn changed(&self) -> Option<&[Tri]>
        ensures { MatchOption result
            (self.now.log.changed ≡ None)
            (λ list. self.now.log.changed ≡ Some list.now) }
    {
        let queued: &QueuedParts = &self.queued;
        queued.log.changed()
    }

    /// Makes the mesh of one frame from that of the frame before.
    ///
    /// `run` and `frame`: the set is the rank closure of the budget, reached by the steps of the frame. `sparing` and
    /// `spares`: it changes no more than it must, and merges no diamond that holds a triangle which greedy splitting
    /// picks. `unblocked`: nothing blocks exactly where no leaf is worth a split. `most` and `least`: how often the
    /// gauge was asked. `stamps`: each entry has a stamp that is not due; `only`: nothing else has one. `changed`:
    /// what `Mesh::changed` lists from then on.
    pub fn advance<G: Gauge>(&mut self, gauge: &mut G, budget: u32, odometer: u64) -> Steps
        requires grid { (G.priorities gauge.old).n ≡ self.old.pool.n }
        requires budget { 2 ≤ budget }
        requires far { odometer ≤ LONGEST_WAY }
        requires counted { G.count gauge.old < CHANGES_AT_FRAME }
        requires room { HasRoom self.old.pool.n self.old.pool.most budget }
        requires counters { (self.old.pool.splits < CHANGES_AT_FRAME) × (self.old.pool.merges < CHANGES_AT_FRAME) }
        requires falls { IsFalling (G.priorities gauge.old).n (G.priorities gauge.old).of }
        requires readings { ReadingsHold (G.priorities gauge.old).n (G.priorities gauge.old).of
            odometer (G.readings gauge.old) }
        requires stamps { StampsHold (G.priorities gauge.old).of odometer (stamp_of self.old) }
        ensures priorities { G.priorities gauge.new ≡ G.priorities gauge.old }
        ensures readings { G.readings gauge.new ≡ G.readings gauge.old }
        ensures n { self.new.pool.n ≡ self.old.pool.n }
        ensures counters { IsCountedBy (pool_set self.old.pool) (pool_set self.new.pool) result.splits result.merges }
        ensures run { IsFrameRun self.old.pool.n budget (G.priorities gauge.old).of
            (pool_members self.old.pool) (pool_members self.new.pool) result.splits result.merges }
        ensures frame { IsFrame self.old.pool.n budget (G.priorities gauge.old).of
            (among (pool_members self.new.pool)) result.worst result.blocked }
        ensures unblocked { IsNone result.blocked
            ↔ All (λ a. (G.priorities gauge.old).of a ≡ 0) (leaves_of self.old.pool.n
            (among (pool_members self.new.pool))) }
        ensures sparing { IsSparing self.old.pool.n budget (G.priorities gauge.old).of
            (pool_members self.old.pool) (pool_members self.new.pool) result.splits result.merges }
        ensures spares { SparesChosen self.old.pool.n budget (G.priorities gauge.old).of
            (pool_members self.old.pool) (pool_members self.new.pool) }
        ensures most { IsAtMost (G.priorities gauge.old) (G.readings gauge.old) odometer (seen_of self.old) budget
            (result.splits + result.merges) (G.count gauge.old) (G.count gauge.new) }
        ensures least { IsAtLeast (seen_of self.old) (seen_of self.new) (G.count gauge.old) (G.count gauge.new) }
        ensures counted { G.count gauge.new < 2 ^ 64 - 1 }
        ensures stamps { AreStampsGood (G.readings gauge.old) odometer (seen_of self.old) (seen_of self.new) }
        ensures only { OnlyEntriesStamped self.new }
        ensures changed { IsFrameLog (pool_members self.old.pool) (pool_members self.new.pool)
            (result.splits + result.merges) self.old.log self.new.log }
    {
        frame_laws();
        let _before = self.pool();
        let steps = advance(&mut *self.queued, gauge, budget, odometer);
        let _after = self.pool();
        steps
    }
}
