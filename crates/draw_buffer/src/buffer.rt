//! The drawing buffer.

ghost use Rattle.std.specs.Prelude.{◌≡◌, ℕ, ◌+◌, ◌-◌, ◌*◌, ◌^◌, ◌<◌, ◌≤◌, ◌↔◌, ◌++◌, [], ◌∷◌, max, All, IfOk, IsTrue};
ghost use Rattle.std.specs.Prelude.{length, map, slice_index};
ghost use Rattle.mesh_defs.specs.Triangle.{level_of};
ghost use Rattle.mesh_defs.specs.declared.level.TheConstants.{GREATEST_LEVEL};
ghost use Rattle.draw_buffer.specs.Times.{times};
ghost use Rattle.draw_buffer.specs.Corners.{grid_indices, shown, uses_in};
ghost use Rattle.draw_buffer.specs.Exchange.{addresses_of, KeepsUntold, IsGiven};

use crate::exchange::{Exchange, MOST_TRIANGLES};
use crate::indices::Indices;
use bintree_addr::Tri;
use mesh_defs::NoMemory;
use std::alloc::Global;
use std::marker::Model;

/// An index buffer that follows a mesh from patch to patch.
#[derive(Drop)]
pub struct DrawBuffer {
    exchange: Exchange,
}

impl Model for DrawBuffer {
    ghost use Rattle.std.specs.Prelude.{◌≡◌, []};
    ghost use Rattle.draw_buffer.specs.Buffer.{BufferState, buffer_of};

    ghost Value = { BufferState };

    ghost view = { λ b. buffer_of b.exchange };

    ghost invariant = { λ b. b.exchange.waiting ≡ [] };
}

impl DrawBuffer {
    ghost use Rattle.draw_buffer.specs.Buffer.{IsKept};

    /// A buffer for a grid of side 2^n + 1, with room for so many triangles and none in it.
    ///
    /// Memory: 4 bytes for each address and each point of the grid, about 20 * 4^n in all (5 MB at n = 9, 84 MB at
    /// n = 11), and 132 for each triangle that there is room for.
    pub fn make(alloc: Global, n: u32, most: u32) -> Result<DrawBuffer, NoMemory>
        requires in_grid { (1 ≤ n) × (n ≤ GREATEST_LEVEL) }
        requires few { most ≤ MOST_TRIANGLES }
        ensures n { IfOk result (λ b. b.n ≡ n) }
        ensures most { IfOk result (λ b. b.most ≡ most) }
        ensures triangles { IfOk result (λ b. b.triangles ≡ []) }
        ensures written { IfOk result (λ b. b.written ≡ []) }
        ensures points { IfOk result (λ b. b.points ≡ []) }
        ensures given { IfOk result (λ b. b.given ≡ []) }
    {
        Ok(DrawBuffer {
            exchange: Exchange::new(alloc, n, most)?,
        })
    }

    /// How many triangles there are.
    pub fn len(&self) -> u32
        ensures value { result ≡ length self.now.triangles }
        ensures few { result ≤ self.now.most }
    {
        self.exchange.len()
    }

    /// For how many triangles more there is room.
    pub fn room(&self) -> u32
        ensures { result + length self.now.triangles ≡ self.now.most }
    {
        self.exchange.most() - self.exchange.len()
    }

    /// Whether a triangle is in the buffer.
    pub fn has(&self, t: Tri) -> bool
        ensures { IsTrue result ↔ (0 < times self.now.triangles t) }
    {
        self.exchange.has(t)
    }

    /// The triangle at each place.
    pub fn triangles(&self) -> &[Tri]
        ensures value { result.now ≡ self.now.triangles }
        ensures once { (a : ℕ) → times self.now.triangles a ≤ 1 }
    {
        self.exchange.triangles()
    }

    /// The vertex numbers of the corners of the triangle at each place, for a graphics card.
    pub fn corners(&self) -> &[Indices]
        ensures value { result.now ≡ self.now.corners }
        ensures drawn { map (shown self.now.points) self.now.corners
            ≡ map (grid_indices self.now.n) self.now.triangles }
    {
        self.exchange.corners()
    }

    /// The places that the last patch wrote.
    pub fn written(&self) -> &[u32]
        ensures { result.now ≡ self.now.written }
    {
        self.exchange.written()
    }

    /// The grid point of each vertex number, as its place in the list of heights: rows from the top, each from left
    /// to right. Of a number that no corner has it says nothing.
    pub fn points(&self) -> &[u32]
        ensures value { result.now ≡ self.now.points }
        ensures apart { (v w : ℕ) → 0 < uses_in self.now.corners v → 0 < uses_in self.now.corners w
            → slice_index self.now.points v ≡ slice_index self.now.points w → v ≡ w }
    {
        self.exchange.points()
    }

    /// The vertex numbers that the last patch gave to grid points.
    pub fn given(&self) -> &[u32]
        ensures { result.now ≡ self.now.given }
    {
        self.exchange.given()
    }

    /// Takes triangles out and puts others in.
    ///
    /// A triangle that comes has the place of one that goes; what gaps are left the last ones close. A grid point
    /// keeps its number while a triangle has it at a corner, those that come counted before those that go: so no number
    /// that a corner had is given out (`apart`). A written place may be past the end.
    /// Cost (not proved): a few steps for each triangle that goes, and a step a level for each that comes; takes no
    /// memory.
    pub fn patch(&mut self, gone: &[Tri], come: &[Tri])
        requires levels { All (λ a. level_of a ≤ 2 * self.old.n) come.now }
        requires gone { (a : ℕ) → times gone.now a ≤ times self.old.triangles a }
        requires come { (a : ℕ) → times self.old.triangles a + times come.now a ≤ 1 }
        requires room { length self.old.triangles + length come.now ≤ self.old.most + length gone.now }
        ensures n { self.new.n ≡ self.old.n }
        ensures most { self.new.most ≡ self.old.most }
        ensures members { (a : ℕ) → times self.new.triangles a + times gone.now a
            ≡ times self.old.triangles a + times come.now a }
        ensures once { (a : ℕ) → times self.new.triangles a ≤ 1 }
        ensures drawn { map (shown self.new.points) self.new.corners
            ≡ map (grid_indices self.new.n) self.new.triangles }
        ensures count { length self.new.triangles + length gone.now
            ≡ length self.old.triangles + length come.now }
        ensures kept { IsKept self.old self.new }
        ensures few { length self.new.written ≤ max (length gone.now) (length come.now) }
        ensures given { length self.new.given ≤ 3 * length come.now }
        ensures apart { (v : ℕ) → 0 < uses_in self.old.corners v → times self.new.given v ≡ 0 }
    {
        self.exchange.begin();
        admit_all(&mut self.exchange, come);
        leave_all(&mut self.exchange, gone);
        settle_all(&mut self.exchange);
    }
}

/// All of these come, and wait.
fn admit_all(exchange: &mut Exchange, come: &[Tri])
    requires levels { All (λ a. level_of a ≤ 2 * exchange.old.n) come.now }
    requires none { exchange.old.waiting ≡ [] }
    requires come { (a : ℕ) → times exchange.old.triangles a + times come.now a ≤ 1 }
    requires room { length come.now ≤ exchange.old.most }
    requires given { exchange.old.given ≡ [] }
    ensures waiting { addresses_of exchange.new.waiting ≡ come.now }
    ensures rest { exchange.new ≡ record exchange.old {
      waiting = exchange.new.waiting;
      points = exchange.new.points;
      uses = exchange.new.uses;
      given = exchange.new.given;
    } }
    ensures given { IsGiven exchange.old exchange.new }
    ensures few { length exchange.new.given ≤ 3 * length come.now }
{
    for t in come {
        exchange.admit(*t);
    }
}

/// All of these go.
fn leave_all(exchange: &mut Exchange, gone: &[Tri])
    requires here { (a : ℕ) → times gone.now a ≤ times exchange.old.triangles a }
    requires none { exchange.old.written ≡ [] }
    requires room { length gone.now ≤ exchange.old.most }
    ensures n { exchange.new.n ≡ exchange.old.n }
    ensures most { exchange.new.most ≡ exchange.old.most }
    ensures points { exchange.new.points ≡ exchange.old.points }
    ensures given { exchange.new.given ≡ exchange.old.given }
    ensures total { (a : ℕ) →
        times exchange.new.triangles a + times (addresses_of exchange.new.waiting) a + times gone.now a
        ≡ times exchange.old.triangles a + times (addresses_of exchange.old.waiting) a }
    ensures waiting { length exchange.new.waiting ≡ length exchange.old.waiting - length gone.now }
    ensures count { length exchange.new.triangles + length exchange.new.waiting + length gone.now
        ≡ length exchange.old.triangles + length exchange.old.waiting }
    ensures told { KeepsUntold exchange.old exchange.new }
    ensures few { length exchange.new.written ≤ length gone.now }
{
    for t in gone {
        exchange.leave(*t);
    }
}

/// All that wait come behind the last.
fn settle_all(exchange: &mut Exchange)
    requires room { length exchange.old.triangles + length exchange.old.waiting ≤ exchange.old.most }
    requires written { length exchange.old.written + length exchange.old.waiting ≤ exchange.old.most }
    ensures n { exchange.new.n ≡ exchange.old.n }
    ensures most { exchange.new.most ≡ exchange.old.most }
    ensures points { exchange.new.points ≡ exchange.old.points }
    ensures given { exchange.new.given ≡ exchange.old.given }
    ensures none { exchange.new.waiting ≡ [] }
    ensures drawn { map (shown exchange.new.points) exchange.new.corners
        ≡ map (grid_indices exchange.new.n) exchange.new.triangles }
    ensures total { (a : ℕ) → times exchange.new.triangles a
        ≡ times exchange.old.triangles a + times (addresses_of exchange.old.waiting) a }
    ensures count { length exchange.new.triangles ≡ length exchange.old.triangles + length exchange.old.waiting }
    ensures told { KeepsUntold exchange.old exchange.new }
    ensures few { length exchange.new.written ≡ length exchange.old.written + length exchange.old.waiting }
{
    while exchange.is_waiting() {
        exchange.settle();
    }
}
