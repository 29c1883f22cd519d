//! A mesh as the loop sees it: its set, with the room and the counts of its pool, the heads of its queues, the stamps
//! of its entries, the priorities that were told in this frame, and the entries that are still fresh.

ghost use Rattle.std.specs.Prelude.{◌≡◌, ℕ, ◌+◌, ◌*◌, ◌<◌, ◌≤◌, ◌∷◌, ◌^◌, List, [], false, Contains, IfSome, MatchOption};
ghost use Rattle.mesh_defs.specs.declared.counters.TheConstants.{LONGEST_WAY, MOST_CHANGES};
ghost use Rattle.mesh_defs.specs.Triangle.{IsSplittable};
ghost use Rattle.mesh_defs.specs.ClosedSet.{leaves_of, among};
ghost use Rattle.mesh_defs.specs.GridSet.{IsForced, IsGain};
ghost use Rattle.mesh_laws.specs.Diamond.{CanMerge};
ghost use Rattle.mesh_laws.specs.Steps.{leaf_count};
ghost use Rattle.mesh_laws.specs.Deferred.{IsEntry};
ghost use Rattle.deferred_loop.specs.Seen.{SeenMesh, IsHead, IsLastHead, IsRated, IsEntered, IsSplitOf, IsMergeOf};
ghost use Rattle.deferred_loop.specs.Seen.{IsBegun, IsForgotten, IsQuiet};
ghost use Rattle.deferred_loop.specs.Log.{Log, emptied, IsLogged};

use crate::gauge::Reading;
use bintree_addr::{Rank, Slot, Tri};

/// A triangle, and the slot at which a mesh has it.
#[derive(Clone, Copy)]
pub struct Located {
    /// The triangle.
    pub tri: Tri,
    /// Its slot in the pool.
    pub slot: Slot,
}

/// The head of the split queue.
#[derive(Clone, Copy)]
pub struct Head {
    /// The leaf with its key.
    pub rank: Rank,
    /// The leaf's slot.
    pub slot: Slot,
    /// Whether the key is its priority.
    pub sure: bool,
}

impl Head {
    /// The leaf at its slot.
    pub fn leaf(&self) -> Located
        ensures { result ≡ record { tri = self.now.rank.tri; slot = self.now.slot } }
    {
        Located {
            tri: self.rank.tri,
            slot: self.slot,
        }
    }
}

/// The head of the merge queue.
#[derive(Clone, Copy)]
pub struct Last {
    /// The better triangle of the diamond, with its key.
    pub rank: Rank,
    /// That triangle's slot.
    pub slot: Slot,
    /// A triangle of the diamond that was not asked; None where the diamond's rank is known.
    pub unasked: Option<Located>,
}

impl Last {
    /// The better triangle of the diamond at its slot.
    pub fn diamond(&self) -> Located
        ensures { result ≡ record { tri = self.now.rank.tri; slot = self.now.slot } }
    {
        Located {
            tri: self.rank.tri,
            slot: self.slot,
        }
    }
}

/// A mesh with its queues and stamps.
///
/// It learns a priority only where it is told one, so no clause speaks of a gauge. A leaf stands in the split queue
/// under the best that its priority can be, a diamond in the merge queue under the worst; the fresh entries stand in
/// neither. Its log lists the triangles that steps split or merge, from `begin` on. A head comes with its slot, which
/// is handed back for a step, so that no triangle is searched for.
pub trait QueuedMesh {
    ghost seen: { Self → SeenMesh };

    // The triangle at a slot.
    ghost tri_at: { Self → ℕ → ℕ };

    ghost log: { Self → Log };

    fn leaf_count(&self) -> u32
        ensures { result ≡ leaf_count (seen self.now).set.n (seen self.now).set.members };

    /// How many triangles a split adds, with what it forces.
    fn gain(&self, t: Located) -> u32
        requires at { tri_at self.now t.slot.0 ≡ t.tri }
        requires splittable { IsSplittable (seen self.now).set.n t.tri }
        requires leaf { Contains (leaves_of (seen self.now).set.n (among (seen self.now).set.members)) t.tri }
        ensures gain { IsGain (seen self.now).set.n (seen self.now).set.members t.tri result }
        ensures small { result ≤ 1073741824 };

    fn first(&self) -> Head
        requires settled { (seen self.now).fresh ≡ [] }
        ensures head { IsHead (seen self.now) result }
        ensures at { tri_at self.now result.slot.0 ≡ result.rank.tri };

    fn last(&self) -> Option<Last>
        requires settled { (seen self.now).fresh ≡ [] }
        ensures head { MatchOption result
            ((a : ℕ) → CanMerge (seen self.now).set.n (among (seen self.now).set.members) a → ⊥)
            (IsLastHead (seen self.now)) }
        ensures at { IfSome result (λ h. tri_at self.now h.slot.0 ≡ h.rank.tri) }
        ensures unasked_at { IfSome result (λ h. IfSome h.unasked (λ t. tri_at self.now t.slot.0 ≡ t.tri)) };

    /// Takes a priority that was asked of the triangle at a slot as the key of its leaf or diamond.
    fn tell(&mut self, slot: Slot, rank: Rank)
        requires at { tri_at self.old slot.0 ≡ rank.tri }
        requires settled { (seen self.old).fresh ≡ [] }
        requires entry { IsEntry (seen self.old).set.n (among (seen self.old).set.members) rank.tri }
        requires unknown { (seen self.old).known rank.tri ≡ false }
        ensures told { IsRated (seen self.old) (seen self.new) rank }
        ensures log { log self.new ≡ log self.old };

    fn next_fresh(&self) -> Option<Tri>
        ensures { MatchOption result
            ((seen self.now).fresh ≡ [])
            (λ t. (rest : List ℕ) × ((seen self.now).fresh ≡ t ∷ rest)) };

    /// Gives the next fresh entry its stamp, and puts it in its place once nothing of its diamond is fresh.
    fn enter(&mut self, t: Tri, reading: &Reading, odometer: u64)
        requires next { (rest : List ℕ) × ((seen self.old).fresh ≡ t ∷ rest) }
        requires far { odometer ≤ LONGEST_WAY }
        requires small { reading.now.slack ≤ 2 ^ 32 }
        requires hi { reading.now.hi.tri ≡ t }
        requires lo { reading.now.lo.tri ≡ t }
        ensures entered { IsEntered (seen self.old) (seen self.new) t reading.now odometer }
        ensures log { log self.new ≡ log self.old };

    /// Splits a leaf with what it forces, and logs what was split.
    fn split(&mut self, t: Located)
        requires at { tri_at self.old t.slot.0 ≡ t.tri }
        requires settled { (seen self.old).fresh ≡ [] }
        requires splittable { IsSplittable (seen self.old).set.n t.tri }
        requires leaf { Contains (leaves_of (seen self.old).set.n (among (seen self.old).set.members)) t.tri }
        requires room { (after : List ℕ) → IsForced (seen self.old).set.n (seen self.old).set.members t.tri after →
            leaf_count (seen self.old).set.n after ≤ (seen self.old).set.most }
        requires counter { (seen self.old).set.splits + (4 * (seen self.old).set.n + 4) < MOST_CHANGES }
        ensures split { IsSplitOf (seen self.old) (seen self.new) t.tri }
        ensures log { IsLogged (seen self.old).set (seen self.new).set (log self.old) (log self.new) };

    /// Merges a diamond, and logs its triangles.
    fn merge(&mut self, t: Located)
        requires at { tri_at self.old t.slot.0 ≡ t.tri }
        requires settled { (seen self.old).fresh ≡ [] }
        requires can { CanMerge (seen self.old).set.n (among (seen self.old).set.members) t.tri }
        requires counter { (seen self.old).set.merges < MOST_CHANGES }
        ensures merge { IsMergeOf (seen self.old) (seen self.new) t.tri }
        ensures log { IsLogged (seen self.old).set (seen self.new).set (log self.old) (log self.new) };

    /// Lists what is due at this odometer, and empties the log.
    fn begin(&mut self, odometer: u64)
        requires quiet { IsQuiet (seen self.old) }
        requires far { odometer ≤ LONGEST_WAY }
        ensures begun { IsBegun (seen self.old) (seen self.new) odometer }
        ensures log { log self.new ≡ emptied (log self.old) };

    /// Forgets what was told, so that the keys are those of the stamps again.
    fn forget(&mut self)
        requires settled { (seen self.old).fresh ≡ [] }
        ensures forgotten { IsForgotten (seen self.old) (seen self.new) }
        ensures log { log self.new ≡ log self.old };
}
