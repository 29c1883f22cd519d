//! What a terrain of tiles is to whoever fits it.

ghost use Rattle.std.specs.Prelude.{◌≡◌, ◌≢◌, ℕ, List, OnOk, OnErr};
ghost use Rattle.mesh_defs.specs.declared.point.Point.{Point};
ghost use Rattle.mesh_defs.specs.HeightField.{HeightField};
ghost use Rattle.mosaic_laws.specs.Tile.{IsTile};
ghost use Rattle.roam_edge.specs.Fault.{Rose};

use bintree_addr::Tri;
use mesh_defs::{Failed, Point};
use pgm_grid::Grid;

/// The heights of tiles, each a grid of its own, and a mesh of each tile.
///
/// Neighbours have the same heights on the row of points that they share. That is the caller's business, and no
/// contract asks for it: where it is not so, meshes have the same border points all the same.
pub trait Tiles {
    // How many columns and rows of tiles there are, and the n of each: its side is 2^n.
    ghost columns: { Self → ℕ };

    ghost rows: { Self → ℕ };

    ghost exponent: { Self → ℕ };

    // The heights of each tile, in file order.
    ghost heights: { Self → Point → List ℕ };

    // The grid of the tile that was loaded last.
    ghost loaded: { Self → HeightField };

    // The mesh of each tile that was kept last, by its triangles.
    ghost meshes: { Self → Point → List ℕ };

    // How often a call failed.
    ghost faults: { Self → ℕ };

    /// Makes the tile's heights those of `grid`.
    fn load(&mut self, t: Point) -> Result<(), Failed>
        requires tile { IsTile (columns self.old) (rows self.old) t }
        ensures ok { OnOk result ((loaded self.new).heights ≡ heights self.old t) }
        ensures n { OnOk result ((loaded self.new).n ≡ exponent self.old) }
        ensures columns { columns self.new ≡ columns self.old }
        ensures rows { rows self.new ≡ rows self.old }
        ensures exponent { exponent self.new ≡ exponent self.old }
        ensures heights { (u : Point) → heights self.new u ≡ heights self.old u }
        ensures meshes { (u : Point) → meshes self.new u ≡ meshes self.old u }
        ensures calm { OnOk result (faults self.new ≡ faults self.old) }
        ensures failed { OnErr result (Rose (faults self.old) (faults self.new)) };

    /// The heights of the tile that was loaded last.
    fn grid(&self) -> &Grid
        ensures value { result.now ≡ loaded self.now };

    /// Keeps the mesh of the tile in the place of the one before.
    fn keep(&mut self, t: Point, leaves: &[Tri]) -> Result<(), Failed>
        requires tile { IsTile (columns self.old) (rows self.old) t }
        ensures ok { OnOk result (meshes self.new t ≡ leaves.now) }
        ensures others { (u : Point) → IsTile (columns self.old) (rows self.old) u → u ≢ t →
            meshes self.new u ≡ meshes self.old u }
        ensures columns { columns self.new ≡ columns self.old }
        ensures rows { rows self.new ≡ rows self.old }
        ensures exponent { exponent self.new ≡ exponent self.old }
        ensures heights { (u : Point) → heights self.new u ≡ heights self.old u }
        ensures calm { OnOk result (faults self.new ≡ faults self.old) }
        ensures failed { OnErr result (Rose (faults self.old) (faults self.new)) };
}
