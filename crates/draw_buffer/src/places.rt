//! Which triangle stands at which place.

ghost use Rattle.std.specs.Prelude.{◌≡◌, ℕ, ◌+◌, ◌^◌, ◌<◌, ◌≤◌, ◌↔◌, ◌++◌, [], ◌∷◌, IfOk, IsTrue, length, slice_index};
ghost use Rattle.std.specs.Prelude.{slice_set, swap_remove};
ghost use Rattle.draw_buffer.specs.Times.{times};

use bintree_addr::Tri;
use mesh_defs::NoMemory;
use std::alloc::Global;
use std::marker::Model;

/// Triangles at dense places, each at most once, and the place of each.
#[derive(Drop)]
pub struct PlaceTable {
    triangles: Vec<Tri>,
    /// The place of each triangle by its address. It says nothing of a triangle where another stands at that place.
    places: Vec<u32>,
    most: u32,
}

impl Model for PlaceTable {
    ghost use Rattle.std.specs.Prelude.{length, vec_capacity};
    ghost use Rattle.draw_buffer.specs.Places.{PlaceState, AreSoundPlaces};

    ghost Value = { PlaceState };

    ghost view = { λ p. record {
      triangles = p.triangles.items;
      end = length p.places.items;
      most = p.most;
    } };

    ghost invariant = { λ p.
        AreSoundPlaces p.triangles.items p.places.items p.most (vec_capacity p.triangles) };
}

impl PlaceTable {
    /// A table for the addresses below `end`, without a triangle.
    pub fn new(alloc: Global, end: u32, most: u32) -> Result<PlaceTable, NoMemory>
        ensures triangles { IfOk result (λ p. p.triangles ≡ []) }
        ensures end { IfOk result (λ p. p.end ≡ end) }
        ensures most { IfOk result (λ p. p.most ≡ most) }
    {
        Ok(PlaceTable {
            triangles: Vec::with_capacity(alloc, most as usize)?,
            places: vec![in alloc; 0; end as usize]?,
            most,
        })
    }

    /// The triangle at each place.
    pub fn triangles(&self) -> &[Tri]
        ensures { result.now ≡ self.now.triangles }
    {
        &self.triangles
    }

    /// How many triangles there may be.
    pub fn most(&self) -> u32
        ensures { result ≡ self.now.most }
    {
        self.most
    }

    /// How many triangles there are.
    pub fn len(&self) -> u32
        ensures value { result ≡ length self.now.triangles }
        ensures few { result ≤ self.now.most }
    {
        self.triangles.len() as u32
    }

    /// Whether a triangle stands at a place.
    pub fn has(&self, t: Tri) -> bool
        ensures { IsTrue result ↔ (0 < times self.now.triangles t) }
    {
        let number = t.number() as usize;
        if number >= self.places.len() {
            return false;
        }
        let at = self.places[number] as usize;
        at < self.triangles.len() && self.triangles[at] == t
    }

    /// The place of a triangle.
    pub fn place(&self, t: Tri) -> u32
        requires here { 0 < times self.now.triangles t }
        ensures within { result < length self.now.triangles }
        ensures at { slice_index self.now.triangles result ≡ t }
    {
        self.places[t.number() as usize]
    }

    /// Puts a triangle at a place, where another goes.
    pub fn put(&mut self, at: u32, t: Tri)
        requires within { at < length self.old.triangles }
        requires new { times self.old.triangles t ≡ 0 }
        requires address { t < self.old.end }
        ensures { self.new ≡ record self.old { triangles = slice_set self.old.triangles at t } }
    {
        self.triangles[at as usize] = t;
        self.places[t.number() as usize] = at;
    }

    /// Puts a triangle behind the last; takes no memory.
    pub fn push(&mut self, t: Tri)
        requires room { length self.old.triangles < self.old.most }
        requires new { times self.old.triangles t ≡ 0 }
        requires address { t < self.old.end }
        ensures { self.new ≡ record self.old { triangles = self.old.triangles ++ t ∷ [] } }
    {
        self.places[t.number() as usize] = self.triangles.len() as u32;
        self.triangles.push_reserved(t);
    }

    /// Takes out the triangle at a place, and closes the gap by the last.
    pub fn close(&mut self, at: u32)
        requires within { at < length self.old.triangles }
        ensures { self.new ≡ record self.old { triangles = swap_remove self.old.triangles at 0 } }
    {
        self.triangles.swap_remove(at as usize);
        if (at as usize) < self.triangles.len() {
            let last = self.triangles[at as usize];
            self.places[last.number() as usize] = at;
        }
    }
}
