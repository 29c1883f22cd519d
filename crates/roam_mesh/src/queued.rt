//! What the loop of a frame sees of the parts.

ghost use Rattle.mesh_laws.specs.Slots.{address_at};
ghost use Rattle.roam_mesh.specs.Parts.{seen_parts};

use crate::log::ChangeLog;
use crate::parts::Parts;
use bintree_addr::{Rank, Slot, Tri};
use deferred_loop::{Head, Last, Located, QueuedMesh, Reading};
use force_split::plan;
use std::marker::Model;

/// The parts between two calls of the loop: every entry that is not fresh is in its place.
#[derive(Drop)]
pub struct QueuedParts {
    pub parts: Parts,
    /// What the frame split and merged so far; between frames, what the last one did.
    pub log: ChangeLog,
}

impl Model for QueuedParts {
    ghost use Rattle.roam_mesh.specs.Parts.{QueuedState, IsParts};

    ghost Value = { QueuedState };

    ghost view = { λ m. record { parts = m.parts; log = m.log } };

    ghost invariant = { λ m. IsParts m.parts };
}

impl QueuedMesh for QueuedParts {
    ghost seen = { λ q. seen_parts q.parts };

    ghost tri_at = { λ q. address_at q.parts.pool.pairs };

    ghost log = { λ q. q.log };

    fn leaf_count(&self) -> u32 {
        self.parts.pool.leaf_count()
    }

    fn gain(&self, t: Located) -> u32 {
        plan(&self.parts.pool, t.slot).gain
    }

    fn first(&self) -> Head {
        match self.parts.split_queue.first() {
            Some((s, rank)) => Head {
                rank,
                slot: s,
                sure: self.parts.entries[s.0 as usize].is_sure(),
            },
            None => Head {
                rank: Rank {
                    p: 0,
                    tri: Tri::default(),
                },
                slot: Slot(0),
                sure: true,
            },
        }
    }

    fn last(&self) -> Option<Last> {
        let (head, rank) = self.parts.merge_queue.last()?;
        let (slot, next) = self.parts.better_and_unasked(head);
        let unasked = match next {
            Some(s) => Some(Located {
                tri: self.parts.pool.tri(s),
                slot: s,
            }),
            None => None,
        };
        Some(Last {
            rank,
            slot,
            unasked,
        })
    }

    fn tell(&mut self, slot: Slot, rank: Rank) {
        self.parts.set_priority(slot, rank.p);
    }

    fn next_fresh(&self) -> Option<Tri> {
        if self.parts.fresh_count == 0 {
            return None;
        }
        Some(
            self.parts
                .pool
                .tri(self.parts.fresh[self.parts.fresh_count as usize - 1]),
        )
    }

    fn enter(&mut self, _t: Tri, reading: &Reading, odometer: u64) {
        self.parts.enter_next(reading, odometer);
    }

    fn split(&mut self, t: Located) {
        let _before = self.parts.pool.n();
        let born = self.parts.split(t.slot);
        self.log.note_split(&self.parts, &born);
    }

    fn merge(&mut self, t: Located) {
        self.log.note_diamond(&self.parts, t.slot);
        self.parts.merge(t.slot);
    }

    fn begin(&mut self, odometer: u64) {
        self.log.clear();
        while self.parts.list_due(odometer) {}
    }

    fn forget(&mut self) {
        while self.parts.forget_last() {}
    }
}
