//! The triangles that a frame splits and merges.

ghost use Rattle.std.specs.Prelude.{◌≡◌, ◌≤◌, ◌/◌, IfOk, MatchOption, None, Some, true, []};
ghost use Rattle.std.specs.List.{AllByRecursion};
ghost use Rattle.mesh_laws.specs.Slots.{address_at};
ghost use Rattle.deferred_loop.specs.Log.{emptied};
ghost use Rattle.roam_mesh.specs.Parts.{is_ready_at};
ghost use Rattle.roam_mesh.specs.Splitting.{born_slots};
ghost use Rattle.roam_mesh.specs.Log.{noted, noted_all, parents_of, diamond_of};

use crate::parts::Parts;
use bintree_addr::{Slot, Tri};
use mesh_defs::NoMemory;
use std::alloc::Global;
use std::marker::Model;
use triangle_pool::Born;

/// A list of triangles whose memory is all taken at the start. It is lost where one more comes than it has room for.
#[derive(Drop)]
pub struct ChangeLog {
    /// The triangles in the order of the steps, some of them more than once.
    changed: Vec<Tri>,
    room: u32,
    is_lost: bool,
}

impl Model for ChangeLog {
    ghost use Rattle.std.specs.Prelude.{◌≡◌, None, Some, cond, vec_capacity};
    ghost use Rattle.deferred_loop.specs.Log.{Log};

    ghost Value = { Log };

    ghost view = { λ l. record { changed = cond l.is_lost None (Some l.changed.items); room = l.room } };

    ghost invariant = { λ l. vec_capacity l.changed ≡ l.room };
}

impl ChangeLog {
    /// An empty list with room for so many triangles.
    pub fn new(alloc: Global, room: u32) -> Result<ChangeLog, NoMemory>
        ensures { IfOk result (λ l. l ≡ record { changed = Some []; room = room }) }
    {
        Ok(ChangeLog {
            changed: Vec::with_capacity(alloc, room as usize)?,
            room,
            is_lost: false,
        })
    }

    /// The list; None where it is lost.
    pub fn changed(&self) -> Option<&[Tri]>
        ensures { MatchOption result
            (self.now.changed ≡ None)
            (λ list. self.now.changed ≡ Some list.now) }
    {
        if self.is_lost {
            None
        } else {
            Some(self.changed.as_slice())
        }
    }

    /// Begins anew with nothing listed.
    pub fn clear(&mut self)
        ensures { self.new ≡ emptied self.old }
    {
        self.changed.clear();
        self.is_lost = false;
    }

    /// Lists a triangle.
    fn note(&mut self, t: Tri)
        ensures { self.new ≡ noted self.old t }
    {
        if self.is_lost {
            return;
        }
        if self.changed.len() >= self.room as usize {
            self.is_lost = true;
            return;
        }
        self.changed.push_reserved(t);
    }

    /// Lists the parent of a triangle.
    fn note_parent(&mut self, parts: &Parts, s: Slot)
        requires low { 4 ≤ address_at parts.now.pool.pairs s.0 }
        ensures { self.new ≡ noted self.old (address_at parts.now.pool.pairs s.0 / 2) }
    {
        if let Some(parent) = parts.pool.tri(s).parent() {
            self.note(parent);
        }
    }

    /// Lists the triangles that were split, by the slots that their children got.
    pub fn note_split(&mut self, parts: &Parts, answers: &[Born])
        requires low { AllByRecursion (λ r. 4 ≤ address_at parts.now.pool.pairs r) (born_slots answers.now) }
        ensures { self.new ≡ noted_all self.old (parents_of parts.now.pool.pairs answers.now) }
    {
        let Some((born, rest)) = answers.split_first() else {
            return;
        };
        self.note_parent(parts, born.first.0);
        if let Some((left, _right)) = born.second {
            self.note_parent(parts, left);
        }
        self.note_split(parts, rest);
    }

    /// Lists the triangles of a diamond.
    pub fn note_diamond(&mut self, parts: &Parts, s: Slot)
        requires ready { is_ready_at parts.now.pool.pairs s.0 ≡ true }
        ensures { self.new ≡ noted_all self.old (diamond_of (address_at parts.now.pool.pairs s.0)) }
    {
        if let Some(mate) = parts.mate(s) {
            self.note(parts.pool.tri(mate));
        }
        self.note(parts.pool.tri(s));
    }
}
