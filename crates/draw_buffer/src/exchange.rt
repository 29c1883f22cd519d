//! A buffer in the middle of a patch: the triangles that came wait for a place, until one goes or all that go have
//! gone.

ghost use Rattle.std.specs.Prelude.{◌≡◌, ℕ, ◌+◌, ◌-◌, ◌*◌, ◌^◌, ◌<◌, ◌≤◌, ◌↔◌, ◌++◌, [], ◌∷◌, IfOk, IsTrue, length};
ghost use Rattle.std.specs.Prelude.{map, slice_index, sum};
ghost use Rattle.mesh_defs.specs.Triangle.{level_of};
ghost use Rattle.mesh_defs.specs.declared.level.TheConstants.{GREATEST_LEVEL};
ghost use Rattle.draw_buffer.specs.Times.{times, same};
ghost use Rattle.draw_buffer.specs.Corners.{corner_uses};
ghost use Rattle.draw_buffer.specs.Vertices.{AreTaken};

use crate::indices::{Indices, grid_indices};
use crate::places::PlaceTable;
use crate::vertices::{VertexTable, note};
use bintree_addr::Tri;
use mesh_defs::NoMemory;
use std::alloc::Global;
use std::marker::Model;

/// The greatest number of triangles that a buffer may have room for: those of the finest mesh of the greatest grid.
pub const MOST_TRIANGLES: u32 = 1 << 29;

/// A triangle that waits for a place, with its corners.
#[derive(Clone, Copy)]
pub struct Waiting {
    /// The triangle.
    pub tri: Tri,
    /// Its corners.
    pub corners: Indices,
}

/// Triangles at dense places with their corners, triangles that wait for a place, and the places that were written.
#[derive(Drop)]
pub struct Exchange {
    n: u32,
    places: PlaceTable,
    vertices: VertexTable,
    corners: Vec<Indices>,
    waiting: Vec<Waiting>,
    written: Vec<u32>,
}

impl Model for Exchange {
    ghost use Rattle.std.specs.Prelude.{vec_capacity};
    ghost use Rattle.draw_buffer.specs.Exchange.{ExchangeState, IsWholeBuffer};

    ghost Value = { ExchangeState };

    ghost view = { λ e. record {
      n = e.n;
      most = e.places.most;
      triangles = e.places.triangles;
      corners = e.corners.items;
      waiting = e.waiting.items;
      written = e.written.items;
      points = e.vertices.points;
      uses = e.vertices.uses;
      given = e.vertices.given;
    } };

    ghost invariant = { λ e. IsWholeBuffer e.n e.places e.vertices e.corners.items e.waiting.items
        (vec_capacity e.corners) (vec_capacity e.waiting) (vec_capacity e.written) };
}

impl Exchange {
    ghost use Rattle.draw_buffer.specs.Corners.{grid_indices, shown, uses_in};
    ghost use Rattle.draw_buffer.specs.Exchange.{addresses_of, KeepsUntold, IsGiven};

    /// No triangle at all.
    #[tactic(auto, using(bintree_laws::proofs::CornerLemmas::side_small))]
    pub fn new(alloc: Global, n: u32, most: u32) -> Result<Exchange, NoMemory>
        requires in_grid { (1 ≤ n) × (n ≤ GREATEST_LEVEL) }
        requires few { most ≤ MOST_TRIANGLES }
        ensures n { IfOk result (λ e. e.n ≡ n) }
        ensures most { IfOk result (λ e. e.most ≡ most) }
        ensures triangles { IfOk result (λ e. e.triangles ≡ []) }
        ensures corners { IfOk result (λ e. e.corners ≡ []) }
        ensures waiting { IfOk result (λ e. e.waiting ≡ []) }
        ensures written { IfOk result (λ e. e.written ≡ []) }
        ensures points { IfOk result (λ e. e.points ≡ []) }
        ensures given { IfOk result (λ e. e.given ≡ []) }
    {
        let side = (1 << n) + 1;
        Ok(Exchange {
            n,
            places: PlaceTable::new(alloc, 4 << (2 * n), most)?,
            vertices: VertexTable::new(alloc, side * side, 6 * most)?,
            corners: Vec::with_capacity(alloc, most as usize)?,
            waiting: Vec::with_capacity(alloc, most as usize)?,
            written: Vec::with_capacity(alloc, most as usize)?,
        })
    }

    /// How many triangles there may be.
    pub fn most(&self) -> u32
        ensures { result ≡ self.now.most }
    {
        self.places.most()
    }

    /// How many triangles there are.
    pub fn len(&self) -> u32
        ensures value { result ≡ length self.now.triangles }
        ensures few { result ≤ self.now.most }
    {
        self.places.len()
    }

    /// Whether a triangle has a place.
    pub fn has(&self, t: Tri) -> bool
        ensures { IsTrue result ↔ (0 < times self.now.triangles t) }
    {
        self.places.has(t)
    }

    /// Whether a triangle waits; and what holds of every exchange.
    pub fn is_waiting(&self) -> bool
        ensures value { IsTrue result ↔ (0 < length self.now.waiting) }
        ensures drawn { map (shown self.now.points) self.now.corners
            ≡ map (grid_indices self.now.n) self.now.triangles }
    {
        !self.waiting.is_empty()
    }

    /// The triangle at each place.
    pub fn triangles(&self) -> &[Tri]
        ensures value { result.now ≡ self.now.triangles }
        ensures once { (a : ℕ) → times self.now.triangles a ≤ 1 }
    {
        let _ = &self.corners;
        self.places.triangles()
    }

    /// The corners at each place.
    pub fn corners(&self) -> &[Indices]
        ensures value { result.now ≡ self.now.corners }
        ensures drawn { map (shown self.now.points) self.now.corners
            ≡ map (grid_indices self.now.n) self.now.triangles }
    {
        &self.corners
    }

    /// The grid point of each vertex number, as its place in the list of heights.
    pub fn points(&self) -> &[u32]
        ensures value { result.now ≡ self.now.points }
        ensures apart { (v w : ℕ) → 0 < uses_in self.now.corners v → 0 < uses_in self.now.corners w
            → slice_index self.now.points v ≡ slice_index self.now.points w → v ≡ w }
    {
        let _ = &self.corners;
        self.vertices.points()
    }

    /// The vertex numbers that were given out.
    pub fn given(&self) -> &[u32]
        ensures { result.now ≡ self.now.given }
    {
        self.vertices.given()
    }

    /// The places that were written.
    pub fn written(&self) -> &[u32]
        ensures { result.now ≡ self.now.written }
    {
        &self.written
    }

    /// Forgets which places were written, and which numbers were given out.
    pub fn begin(&mut self)
        ensures value { self.new ≡ record self.old { written = []; given = [] } }
        ensures few { length self.old.triangles ≤ self.old.most }
        ensures used { (v : ℕ) → uses_in self.old.corners v ≤ slice_index self.old.uses v }
    {
        self.written.clear();
        self.vertices.begin();
    }

    /// A triangle comes, and waits for a place.
    pub fn admit(&mut self, t: Tri)
        requires level { level_of t ≤ 2 * self.old.n }
        requires new { times self.old.triangles t + times (addresses_of self.old.waiting) t ≡ 0 }
        requires room { length self.old.waiting < self.old.most }
        requires numbers { length self.old.given + 3 ≤ 6 * self.old.most }
        ensures waiting { addresses_of self.new.waiting ≡ addresses_of self.old.waiting ++ t ∷ [] }
        ensures rest { self.new ≡ record self.old {
          waiting = self.new.waiting;
          points = self.new.points;
          uses = self.new.uses;
          given = self.new.given;
        } }
        ensures given { IsGiven self.old self.new }
        ensures few { length self.new.given ≤ length self.old.given + 3 }
    {
        let places = grid_indices(self.n, t);
        let corners = take_three(&mut self.vertices, places);
        self.waiting.push_reserved(Waiting { tri: t, corners });
    }

    /// A triangle goes, and one that waits takes its place; where none waits, the last closes the gap.
    pub fn leave(&mut self, gone: Tri)
        requires here { 0 < times self.old.triangles gone }
        requires room { length self.old.written < self.old.most }
        ensures n { self.new.n ≡ self.old.n }
        ensures most { self.new.most ≡ self.old.most }
        ensures points { self.new.points ≡ self.old.points }
        ensures given { self.new.given ≡ self.old.given }
        ensures total { (a : ℕ) → times self.new.triangles a + times (addresses_of self.new.waiting) a + same gone a
            ≡ times self.old.triangles a + times (addresses_of self.old.waiting) a }
        ensures left { (a : ℕ) → times self.old.triangles a ≤ times self.new.triangles a + same gone a }
        ensures waiting { length self.new.waiting ≡ length self.old.waiting - 1 }
        ensures count { length self.new.triangles + length self.new.waiting + 1
            ≡ length self.old.triangles + length self.old.waiting }
        ensures told { KeepsUntold self.old self.new }
        ensures few { length self.new.written ≤ length self.old.written + 1 }
    {
        let at = self.places.place(gone);
        match self.waiting.pop() {
            Some(next) => {
                self.places.put(at, next.tri);
                let old = self.corners[at as usize];
                self.corners[at as usize] = next.corners;
                leave_three(&mut self.vertices, old);
                note(&mut self.written, at);
            }
            None => {
                self.places.close(at);
                let old = self.corners.swap_remove(at as usize);
                leave_three(&mut self.vertices, old);
                if at < self.places.len() {
                    note(&mut self.written, at);
                }
            }
        }
    }

    /// A triangle that waits comes behind the last.
    pub fn settle(&mut self)
        requires some { 0 < length self.old.waiting }
        requires room { length self.old.triangles < self.old.most }
        requires written { length self.old.written < self.old.most }
        ensures n { self.new.n ≡ self.old.n }
        ensures most { self.new.most ≡ self.old.most }
        ensures points { self.new.points ≡ self.old.points }
        ensures given { self.new.given ≡ self.old.given }
        ensures total { (a : ℕ) → times self.new.triangles a + times (addresses_of self.new.waiting) a
            ≡ times self.old.triangles a + times (addresses_of self.old.waiting) a }
        ensures waiting { length self.new.waiting + 1 ≡ length self.old.waiting }
        ensures count { length self.new.triangles ≡ length self.old.triangles + 1 }
        ensures told { KeepsUntold self.old self.new }
        ensures few { length self.new.written ≡ length self.old.written + 1 }
    {
        let Some(next) = self.waiting.pop() else {
            unreachable!()
        };
        note(&mut self.written, self.places.len());
        self.places.push(next.tri);
        self.corners.push_reserved(next.corners);
    }
}

/// The numbers of three grid points, each with a use more; takes no memory.
fn take_three(vertices: &mut VertexTable, places: Indices) -> Indices
    requires apex { places.apex < vertices.old.end }
    requires v0 { places.v0 < vertices.old.end }
    requires v1 { places.v1 < vertices.old.end }
    requires room { sum vertices.old.uses + 3 ≤ vertices.old.most }
    requires given { length vertices.old.given + 3 ≤ vertices.old.most }
    ensures { AreTaken vertices.old vertices.new places result }
{
    let apex = vertices.take(places.apex);
    let v0 = vertices.take(places.v0);
    let v1 = vertices.take(places.v1);
    Indices { apex, v0, v1 }
}

/// Three numbers have a use less each; takes no memory.
fn leave_three(vertices: &mut VertexTable, corners: Indices)
    requires used { (v : ℕ) → corner_uses corners v ≤ slice_index vertices.old.uses v }
    ensures rest { vertices.new ≡ record vertices.old { uses = vertices.new.uses } }
    ensures uses { (v : ℕ) → slice_index vertices.new.uses v + corner_uses corners v ≡ slice_index vertices.old.uses v }
    ensures total { sum vertices.new.uses + 3 ≡ sum vertices.old.uses }
{
    vertices.leave(corners.apex);
    vertices.leave(corners.v0);
    vertices.leave(corners.v1);
}
