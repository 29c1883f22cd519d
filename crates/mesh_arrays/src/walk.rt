//! A list of leaves in the middle of a patch.

ghost use Rattle.std.specs.Prelude.{◌≡◌, ℕ, ◌+◌, ◌*◌, ◌<◌, ◌≤◌, ◌++◌, [], ◌∷◌, true, IfOk, length, take, drop};
ghost use Rattle.std.specs.Prelude.{replicate, slice_index_or, slice_set, vec_capacity};
ghost use Rattle.triangle_pool.specs.declared.pool.TheConstants.{MOST_LEAVES};
ghost use Rattle.mesh_arrays.specs.Order.{run_length, begins_with};

use crate::order::{end, first};
use bintree_addr::{Slot, Tri};
use mesh_defs::NoMemory;
use std::alloc::Global;
use std::marker::Model;
use std::mem::swap;

/// The leaves before and those that are written, what went and what came, and a mark for each slot.
#[derive(Drop)]
pub(crate) struct Walk {
    leaves: Vec<Tri>,
    before: Vec<Tri>,
    /// How many of the leaves before were read.
    at: usize,
    gone: Vec<Tri>,
    come: Vec<Tri>,
    touched: Vec<bool>,
    most: u32,
}

impl Model for Walk {
    ghost use Rattle.std.specs.Prelude.{drop, vec_capacity};
    ghost use Rattle.mesh_arrays.specs.Walk.{WalkState, IsRoomy};

    ghost Value = { WalkState };

    ghost view = { λ w. record {
      leaves = w.leaves.items;
      rest = drop w.at w.before.items;
      gone = w.gone.items;
      come = w.come.items;
      touched = w.touched.items;
      most = w.most;
    } };

    ghost invariant = { λ w. IsRoomy w.leaves.items w.before.items w.gone.items w.come.items w.touched.items w.at w.most
        (vec_capacity w.leaves) (vec_capacity w.before) (vec_capacity w.gone) (vec_capacity w.come) };
}

impl Walk {
    /// No leaves, and room for so many.
    pub(crate) fn new(alloc: Global, most: u32) -> Result<Walk, NoMemory>
        requires few { most ≤ MOST_LEAVES }
        ensures leaves { IfOk result (λ w. w.leaves ≡ []) }
        ensures rest { IfOk result (λ w. w.rest ≡ []) }
        ensures gone { IfOk result (λ w. w.gone ≡ []) }
        ensures come { IfOk result (λ w. w.come ≡ []) }
        ensures most { IfOk result (λ w. w.most ≡ most) }
    {
        let room = most as usize;
        Ok(Walk {
            leaves: Vec::with_capacity(alloc, room)?,
            before: Vec::with_capacity(alloc, room)?,
            at: 0,
            gone: Vec::with_capacity(alloc, room)?,
            come: Vec::with_capacity(alloc, room)?,
            touched: vec![in alloc; true; 2 * room]?,
            most,
        })
    }

    /// The leaves that are written.
    pub(crate) fn leaves(&self) -> &[Tri]
        ensures { result.now ≡ self.now.leaves }
    {
        &self.leaves
    }

    /// What went.
    pub(crate) fn gone(&self) -> &[Tri]
        ensures { result.now ≡ self.now.gone }
    {
        &self.gone
    }

    /// What came.
    pub(crate) fn come(&self) -> &[Tri]
        ensures { result.now ≡ self.now.come }
    {
        &self.come
    }

    /// The leaves are to be read, and nothing is written.
    pub(crate) fn begin(&mut self)
        ensures { self.new ≡ record self.old { leaves = []; rest = self.old.leaves; gone = []; come = [] } }
    {
        swap(&mut self.leaves, &mut self.before);
        self.at = 0;
        self.leaves.clear();
        self.gone.clear();
        self.come.clear();
    }

    /// Nothing went and nothing came.
    pub(crate) fn forget(&mut self)
        ensures { self.new ≡ record self.old { gone = []; come = [] } }
    {
        self.gone.clear();
        self.come.clear();
    }

    /// Whether a triangle is the next one to be read.
    pub(crate) fn is_next(&self, t: Tri) -> bool
        ensures { result ≡ begins_with t self.now.rest }
    {
        self.at < self.before.len() && self.before[self.at].number() == t.number()
    }

    /// How many of those to be read come before the end of a triangle.
    ///
    /// Cost (not proved): a step for each of them.
    pub(crate) fn run(&self, t: Tri) -> usize
        ensures value { result ≡ run_length t self.now.rest }
        ensures few { result ≤ length self.now.rest }
    {
        let end = end(t);
        let mut k = self.at;
        while k < self.before.len() && first(self.before[k]) < end {
            k += 1;
        }
        k - self.at
    }

    /// So many are read and written.
    pub(crate) fn keep(&mut self, count: usize)
        requires there { count ≤ length self.old.rest }
        requires room { length self.old.leaves + count ≤ self.old.most }
        ensures { self.new ≡ record self.old {
          leaves = self.old.leaves ++ take count self.old.rest;
          rest = drop count self.old.rest;
        } }
    {
        let next = self.at + count;
        match self.leaves.extend_from_slice(&self.before[self.at..next]) {
            Ok(()) => {}
            Err(_) => unreachable!(),
        }
        self.at = next;
    }

    /// So many are read and go.
    pub(crate) fn leave(&mut self, count: usize)
        requires there { count ≤ length self.old.rest }
        ensures { self.new ≡ record self.old {
          gone = self.old.gone ++ take count self.old.rest;
          rest = drop count self.old.rest;
        } }
    {
        let next = self.at + count;
        match self.gone.extend_from_slice(&self.before[self.at..next]) {
            Ok(()) => {}
            Err(_) => unreachable!(),
        }
        self.at = next;
    }

    /// A triangle comes.
    pub(crate) fn put(&mut self, t: Tri)
        requires room { length self.old.leaves < self.old.most }
        ensures { self.new ≡ record self.old {
          leaves = self.old.leaves ++ t ∷ [];
          come = self.old.come ++ t ∷ [];
        } }
    {
        note(&mut self.leaves, t);
        note(&mut self.come, t);
    }

    /// Whether a slot has a mark.
    pub(crate) fn is_touched(&self, s: Slot) -> bool
        requires within { s.0 < 2 * self.now.most }
        ensures { result ≡ slice_index_or self.now.touched s.0 true }
    {
        self.touched[s.0 as usize]
    }

    /// A slot has a mark.
    pub(crate) fn touch(&mut self, s: Slot)
        requires within { s.0 < 2 * self.old.most }
        ensures { self.new ≡ record self.old { touched = slice_set self.old.touched s.0 true } }
    {
        self.touched[s.0 as usize] = true;
    }

    /// All slots have marks, or none has one.
    pub(crate) fn touch_all(&mut self, mark: bool)
        ensures { self.new ≡ record self.old { touched = replicate (length self.old.touched) mark } }
    {
        self.touched.as_mut_slice().fill(mark);
    }
}

/// Puts a triangle behind the others; takes no memory.
fn note(triangles: &mut Vec<Tri>, t: Tri)
    requires { length triangles.old.items < vec_capacity triangles.old }
    ensures items { triangles.new.items ≡ triangles.old.items ++ t ∷ [] }
    ensures capacity { vec_capacity triangles.old ≤ vec_capacity triangles.new }
{
    match triangles.push(t) {
        Ok(()) => {}
        Err(_) => unreachable!(),
    }
}
