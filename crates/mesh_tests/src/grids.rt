//! Small grids that are flat but for a few points.

use pgm_grid::Grid;
use std::alloc::Global;

/// A point with its height: column, row, height.
pub type Peak = (u32, u32, u16);

/// The grid of side 2 ^ n with these heights, and else 0.
pub fn grid_with(alloc: Global, n: u32, peaks: &[Peak]) -> Option<Grid> {
    if n < 1 || n > 14 {
        return None;
    }
    let mut grid = Grid::flat(alloc, n, 65535).ok()?;
    for (x, y, h) in peaks {
        if !put(&mut grid, *x, *y, *h) {
            return None;
        }
    }
    Some(grid)
}

/// Puts a height, if the grid has that point.
fn put(grid: &mut Grid, x: u32, y: u32, h: u16) -> bool {
    let side = grid.side();
    if x as usize >= side || y as usize >= side || h > grid.maxval() {
        return false;
    }
    grid.put(x, y, h);
    true
}
