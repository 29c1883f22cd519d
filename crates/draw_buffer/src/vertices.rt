//! Numbers for the grid points that are corners, each in use as often as it is a corner.

ghost use Rattle.std.specs.Prelude.{◌≡◌, ◌≢◌, ℕ, ◌+◌, ◌^◌, ◌<◌, ◌≤◌, ◌++◌, [], ◌∷◌, IfOk, length, slice_index, sum};
ghost use Rattle.std.specs.Prelude.{vec_capacity};
ghost use Rattle.draw_buffer.specs.Times.{same};

use mesh_defs::NoMemory;
use std::alloc::Global;
use std::marker::Model;

/// A number for each grid point that is in use. A number that is in use no more is given out again.
#[derive(Drop)]
pub struct VertexTable {
    points: Vec<u32>,
    uses: Vec<u32>,
    /// The number of each grid point. It says nothing of a point whose number there is of another, or in no use.
    numbers: Vec<u32>,
    free: Vec<u32>,
    given: Vec<u32>,
    most: u32,
}

impl Model for VertexTable {
    ghost use Rattle.std.specs.Prelude.{length, vec_capacity};
    ghost use Rattle.draw_buffer.specs.Vertices.{VertexState, AreSound};

    ghost Value = { VertexState };

    ghost view = { λ t. record {
      points = t.points.items;
      uses = t.uses.items;
      given = t.given.items;
      end = length t.numbers.items;
      most = t.most;
    } };

    ghost invariant = { λ t. AreSound t.points.items t.uses.items t.numbers.items t.free.items t.most
        (vec_capacity t.points) (vec_capacity t.uses) (vec_capacity t.free) (vec_capacity t.given) };
}

impl VertexTable {
    ghost use Rattle.draw_buffer.specs.Vertices.{IsTaken};

    /// A table for the grid points below `end`, with no number in use and room for so many uses.
    pub fn new(alloc: Global, end: u32, most: u32) -> Result<VertexTable, NoMemory>
        ensures points { IfOk result (λ t. t.points ≡ []) }
        ensures uses { IfOk result (λ t. t.uses ≡ []) }
        ensures given { IfOk result (λ t. t.given ≡ []) }
        ensures end { IfOk result (λ t. t.end ≡ end) }
        ensures most { IfOk result (λ t. t.most ≡ most) }
    {
        Ok(VertexTable {
            points: Vec::with_capacity(alloc, most as usize)?,
            uses: Vec::with_capacity(alloc, most as usize)?,
            numbers: vec![in alloc; 0; end as usize]?,
            free: Vec::with_capacity(alloc, most as usize)?,
            given: Vec::with_capacity(alloc, most as usize)?,
            most,
        })
    }

    /// The grid point of each number, as its place in the list of heights.
    pub fn points(&self) -> &[u32]
        ensures value { result.now ≡ self.now.points }
        ensures apart { (v w : ℕ) → 0 < slice_index self.now.uses v → 0 < slice_index self.now.uses w
            → slice_index self.now.points v ≡ slice_index self.now.points w → v ≡ w }
    {
        &self.points
    }

    /// The numbers that were given out since the patch began.
    pub fn given(&self) -> &[u32]
        ensures { result.now ≡ self.now.given }
    {
        &self.given
    }

    /// Forgets which numbers were given out.
    pub fn begin(&mut self)
        ensures { self.new ≡ record self.old { given = [] } }
    {
        self.given.clear();
    }

    /// The number of a grid point, with a use more; takes no memory.
    pub fn take(&mut self, point: u32) -> u32
        requires point { point < self.old.end }
        requires room { sum self.old.uses < self.old.most }
        requires given { length self.old.given < self.old.most }
        ensures { IsTaken self.old self.new point result }
    {
        let v = self.numbers[point as usize];
        if (v as usize) < self.points.len()
            && self.uses[v as usize] > 0
            && self.points[v as usize] == point
        {
            self.uses[v as usize] += 1;
            return v;
        }
        self.give(point)
    }

    /// A number that is in no use for a grid point that has none.
    fn give(&mut self, point: u32) -> u32
        requires point { point < self.old.end }
        requires new { (v : ℕ) → 0 < slice_index self.old.uses v → slice_index self.old.points v ≢ point }
        requires room { sum self.old.uses < self.old.most }
        requires given { length self.old.given < self.old.most }
        ensures { IsTaken self.old self.new point result }
    {
        match self.free.pop() {
            Some(v) => {
                self.points[v as usize] = point;
                self.uses[v as usize] = 1;
                self.numbers[point as usize] = v;
                note(&mut self.given, v);
                v
            }
            None => {
                let v = self.points.len() as u32;
                note(&mut self.points, point);
                note(&mut self.uses, 1);
                self.numbers[point as usize] = v;
                note(&mut self.given, v);
                v
            }
        }
    }

    /// A number has a use less, and is free where that was its last; takes no memory.
    pub fn leave(&mut self, v: u32)
        requires used { 0 < slice_index self.old.uses v }
        ensures rest { self.new ≡ record self.old { uses = self.new.uses } }
        ensures uses { (w : ℕ) → slice_index self.new.uses w + same v w ≡ slice_index self.old.uses w }
        ensures total { sum self.new.uses + 1 ≡ sum self.old.uses }
    {
        self.uses[v as usize] -= 1;
        if self.uses[v as usize] == 0 {
            note(&mut self.free, v);
        }
    }
}

/// Puts a number behind the others; takes no memory.
pub fn note(numbers: &mut Vec<u32>, number: u32)
    requires { length numbers.old.items < vec_capacity numbers.old }
    ensures items { numbers.new.items ≡ numbers.old.items ++ number ∷ [] }
    ensures capacity { vec_capacity numbers.new ≡ vec_capacity numbers.old }
{
    numbers.push_reserved(number);
}
