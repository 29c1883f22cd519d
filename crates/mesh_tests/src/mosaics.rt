//! Three columns and two rows of tiles beside one large grid.

ghost use Rattle.std.specs.Prelude.{◌≡◌, ◌≤◌, ◌<◌, IfOk};
ghost use Rattle.mesh_defs.specs.declared.level.TheConstants.{GREATEST_LEVEL};

use crate::terrain::{COLUMNS, Hills, ROWS};
use bintree_addr::Tri;
use fit_mesh::{Fit, are_splittable};
use mosaic_fit::fit_tiles;
use mosaic_rounds::{Rounds, limit_laws};
use pgm_grid::Grid;
use std::alloc::Global;
use std::test::Fail;

/// The tiles have the side 8, and the large grid has four columns and four rows of tiles.
const N: u32 = 3;

const SIDE: u32 = 8;

/// The height of a point of the terrain: without order inside, 0 on the border and beyond.
fn height(x: u32, y: u32) -> u16 {
    if x == 0 || y == 0 || x >= COLUMNS * SIDE || y >= ROWS * SIDE {
        return 0;
    }
    let mixed = x.wrapping_mul(2_654_435_761) ^ y.wrapping_mul(1_013_904_223);
    (mixed >> 7 & 127) as u16
}

/// The grid of this n whose lower left point is this one of the terrain.
fn grid_from(alloc: Global, n: u32, left: u32, lower: u32) -> Result<Grid, Fail>
    requires in_grid { (1 ≤ n) × (n ≤ GREATEST_LEVEL) }
    ensures n { IfOk result (λ g. g.n ≡ n) }
{
    let mut grid = Grid::flat(alloc, n, 65_535)?;
    for place in 0u32..33 * 33 {
        let (x, y) = (place % 33, place / 33);
        if (x as usize) < grid.side() && (y as usize) < grid.side() {
            grid.put(x, y, height(left.wrapping_add(x), lower.wrapping_add(y)));
        }
    }
    Ok(grid)
}

/// The grids of the tiles, row by row.
fn grids(alloc: Global) -> Result<Vec<Grid>, Fail> {
    let mut grids = Vec::new(alloc);
    for number in 0..COLUMNS * ROWS {
        let (x, y) = (number % COLUMNS, number / COLUMNS);
        grids.push(grid_from(alloc, N, x * SIDE, y * SIDE)?)?;
    }
    Ok(grids)
}

/// The tiles, fitted in rounds.
fn fitted(alloc: Global, tolerance: u32) -> Result<Hills, Fail> {
    limit_laws();
    let mut rounds = Rounds::make(alloc, COLUMNS, ROWS, N)?;
    let mut fit = Fit::make(alloc, N, 2)?;
    let mut required = [Tri::LOWER; 32];
    let mut hills = Hills::new(alloc, N, grids(alloc)?)?;
    match fit_tiles(&mut hills, &mut rounds, &mut fit, &mut required, tolerance) {
        Ok(()) => Ok(hills),
        Err(_) => Err("a failed call".into()),
    }
}

/// The corners of a triangle as one number, the apex first, in a grid whose lower left point is this one.
fn corners(t: Tri, n: u32, left: u32, lower: u32) -> u64
    requires in_grid { (1 ≤ n) × (n ≤ GREATEST_LEVEL) }
{
    if t.level() > 2 * n {
        return 0;
    }
    let c = t.corners(n);
    let mut all = 0;
    for p in [c.apex, c.v0, c.v1] {
        let (x, y) = (left.wrapping_add(p.x), lower.wrapping_add(p.y));
        all = all << 16 | u64::from(x) << 8 | u64::from(y);
    }
    all
}

/// Whether the triangle of the large grid lies in one of the tiles.
fn is_inside(t: Tri) -> bool {
    if t.level() > 2 * (N + 2) {
        return false;
    }
    let c = t.corners(N + 2);
    [c.apex, c.v0, c.v1]
        .iter()
        .all(|p| p.x <= COLUMNS * SIDE && p.y <= ROWS * SIDE)
}

/// The triangles of all tiles, fitted in rounds, by their corners.
fn in_rounds(alloc: Global, tolerance: u32) -> Result<Vec<u64>, Fail> {
    let hills = fitted(alloc, tolerance)?;
    let mut all = Vec::new(alloc);
    for number in 0..COLUMNS * ROWS {
        let (x, y) = (number % COLUMNS, number / COLUMNS);
        for leaf in hills.mesh(number as usize) {
            all.push(corners(*leaf, N, x * SIDE, y * SIDE))?;
        }
    }
    all.sort()?;
    Ok(all)
}

/// The triangles that are larger than the tiles' quarters, and so are split in each mosaic.
fn coarse(alloc: Global) -> Result<Vec<Tri>, Fail> {
    let mut coarse = Vec::new(alloc);
    for number in 2..64 {
        coarse.push(Tri::new(number).ok_or("an address")?)?;
    }
    Ok(coarse)
}

/// The least mesh of the large grid in which those are split.
fn fitted_in_one(alloc: Global, tolerance: u32) -> Result<Fit, Fail> {
    let coarse = coarse(alloc)?;
    if !are_splittable(N + 2, &coarse) {
        return Err("coarse triangles".into());
    }
    let grid = grid_from(alloc, N + 2, 0, 0)?;
    let mut fit = Fit::make(alloc, N + 2, 2)?;
    let _note = fit.frame_with(&grid, tolerance, &coarse);
    Ok(fit)
}

/// Its triangles in the tiles, by their corners.
fn in_one(alloc: Global, tolerance: u32) -> Result<Vec<u64>, Fail> {
    let fit = fitted_in_one(alloc, tolerance)?;
    let mut all = Vec::new(alloc);
    for leaf in fit.leaves() {
        if is_inside(*leaf) {
            all.push(corners(*leaf, N + 2, 0, 0))?;
        }
    }
    all.sort()?;
    Ok(all)
}

// No height is above 127, and errors are counted in parts of 2^3 = 8: with 127 each tile has just its quarters.
#[test]
fn tiles_in_rounds_are_the_mesh_of_one_grid(rt: HostRuntime) -> Result<(), Fail> {
    assert_eq!(rt; in_rounds(rt.alloc(), 127 * 8)?.len(), 6 * 4);
    for tolerance in [0, 50, 100, 200, 300, 400, 600, 1000] {
        // An error of the large grid is counted in parts four times as small.
        let tiles = in_rounds(rt.alloc(), tolerance)?;
        assert!(rt; tiles == in_one(rt.alloc(), 4 * tolerance)?, "{tolerance}");
    }
    Ok(())
}
