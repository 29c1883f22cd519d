//! A terrain in memory, of three columns and two rows of tiles.

ghost use Rattle.std.specs.Prelude.{◌≡◌, ℕ, ◌<◌, ◌*◌, List, map, length, IfOk};
ghost use Rattle.mesh_defs.specs.declared.point.Point.{Point};
ghost use Rattle.mesh_tests.specs.Terrain.{grid_at, mesh_at, number_of};

use bintree_addr::Tri;
use mosaic_fit::{Failed, Point, Tiles};
use pgm_grid::Grid;
use std::alloc::Global;
use std::test::Fail;

/// How many columns of tiles there are.
pub const COLUMNS: u32 = 3;

/// How many rows.
pub const ROWS: u32 = 2;

/// The grids of six tiles, row by row, and a mesh of each.
#[derive(Drop)]
pub struct Hills {
    alloc: Global,
    n: u32,
    grids: Vec<Grid>,
    meshes: Vec<Vec<Tri>>,
    /// The tile that was loaded last.
    loaded: usize,
    faults: u64,
    ghost has_grid: { loaded < length grids.items },
}

impl Hills {
    /// Tiles of these grids, of side 2^n, without meshes.
    pub fn new(alloc: Global, n: u32, grids: Vec<Grid>) -> Result<Hills, Fail>
        ensures n { IfOk result (λ h. h.n ≡ n) }
    {
        let mut meshes = Vec::new(alloc);
        for _ in 0..COLUMNS * ROWS {
            meshes.push(Vec::new(alloc))?;
        }
        if grids.is_empty() {
            return Err("a grid".into());
        }
        Ok(Hills {
            alloc,
            n,
            grids,
            meshes,
            loaded: 0,
            faults: 0,
        })
    }

    /// The mesh of a tile.
    pub fn mesh(&self, number: usize) -> &[Tri] {
        match self.meshes.get(number) {
            Some(mesh) => mesh,
            None => &[],
        }
    }
}

impl Tiles for Hills {
    ghost columns = { λ _. 3 };

    ghost rows = { λ _. 2 };

    ghost exponent = { λ h. h.n };

    ghost heights = { λ h t. (grid_at h.grids.items (number_of t)).heights };

    ghost loaded = { λ h. grid_at h.grids.items h.loaded };

    ghost meshes = { λ h t. mesh_at (map (λ v. v.items) h.meshes.items) t };

    ghost faults = { λ h. h.faults };

    fn load(&mut self, t: Point) -> Result<(), Failed> {
        let number = t.y as usize * 3 + t.x as usize;
        if number >= self.grids.len() || self.grids[number].n() != self.n {
            self.faults = self.faults.saturating_add(1);
            return Err(Failed);
        }
        self.loaded = number;
        Ok(())
    }

    fn grid(&self) -> &Grid {
        &self.grids[self.loaded]
    }

    fn keep(&mut self, t: Point, leaves: &[Tri]) -> Result<(), Failed> {
        let number = t.y as usize * 3 + t.x as usize;
        let Ok(copy) = Vec::from_slice(self.alloc, leaves) else {
            self.faults = self.faults.saturating_add(1);
            return Err(Failed);
        };
        if number >= self.meshes.len() {
            self.faults = self.faults.saturating_add(1);
            return Err(Failed);
        }
        self.meshes[number] = copy;
        Ok(())
    }
}
