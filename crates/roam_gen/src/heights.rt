//! The generated heights: of one point, of a row, and of a grid.

ghost use Rattle.std.specs.Prelude.{◌≡◌, ◌≢◌, ◌+◌, ◌-◌, ◌/◌, ◌^◌, ◌<◌, ◌≤◌, ℕ, length, slice_index, IfOk};
ghost use Rattle.mesh_defs.specs.HeightField.{height_at, side_of};
ghost use Rattle.mesh_defs.specs.declared.level.TheConstants.{GREATEST_FILE_LEVEL};
ghost use Rattle.roam_gen.specs.Generated.{octave, octave_base, octaves, made_height, made_grid};
ghost use Rattle.roam_gen.specs.Rows.{cell_at, IsCellSmall, HasOctaves, HasRow};

use crate::octave::{Cell, base_of, last_of, within};
use pgm_grid::{Grid, MOST_SIDE};
use roam_edge::NoMemory;
use std::alloc::Global;

/// The maxval of a generated grid.
pub(crate) const GREATEST_HEIGHT: u16 = mesh_defs::GREATEST_HEIGHT as u16;

/// The height of the point (x, y) of the grid of this level and seed.
///
/// Cost (not proved): 4 lattice values for each of n + 1 octaves. Takes no memory.
pub fn gen_height(n: u32, seed: u32, x: u32, y: u32) -> u16
    requires n_low { 1 ≤ n }
    requires n_high { n ≤ GREATEST_FILE_LEVEL }
    requires in_columns { x ≤ 2 ^ n }
    requires in_rows { y ≤ 2 ^ n }
    ensures { result ≡ made_height n seed x y }
{
    let mut height = 0;
    for k in 0..n + 1 {
        let cell = Cell::at(base_of(seed, k), x >> k, y >> k);
        height += part(&cell, n, k, x, y);
    }
    height
}

/// What an octave adds to the height of a point, which lies in this square of its lattice.
fn part(cell: &Cell, n: u32, k: u32, x: u32, y: u32) -> u16
    requires n_high { n ≤ GREATEST_FILE_LEVEL }
    requires octave { k ≤ n }
    requires small { IsCellSmall cell.now }
    ensures value { (seed : ℕ) → cell.now ≡ cell_at (octave_base seed k) (x / 2 ^ k) (y / 2 ^ k)
        → result ≡ octave seed k x y / 2 ^ (n - k + 1) }
    ensures bounded { result ≤ 65535 / 2 ^ (n - k + 1) }
{
    let value = cell.value(k, within(x, k), within(y, k));
    (value >> (n - k + 1)) as u16
}

/// Makes row y, or the first points of it.
///
/// Octave by octave, so that neighbours in a square of its lattice share its four values.
pub(crate) fn fill_row(row: &mut [u16], n: u32, seed: u32, y: u32)
    requires n_high { n ≤ GREATEST_FILE_LEVEL }
    requires short { length row.old ≤ side_of n }
    requires in_rows { y ≤ 2 ^ n }
    ensures { HasOctaves row.new (n + 1) n seed y }
{
    clear(row);
    for k in 0..n + 1 {
        add_octave(row, n, seed, k, y);
    }
}

/// Sets all heights of a row to 0.
fn clear(row: &mut [u16])
    ensures { (x : ℕ) → x < length row.old → slice_index row.new x ≡ 0 }
{
    for height in row.iter_mut() {
        *height = 0;
    }
}

/// Adds an octave to a row that has the ones before it.
fn add_octave(row: &mut [u16], n: u32, seed: u32, k: u32, y: u32)
    requires n_high { n ≤ GREATEST_FILE_LEVEL }
    requires octave { k ≤ n }
    requires short { length row.old ≤ side_of n }
    requires in_rows { y ≤ 2 ^ n }
    requires before { HasOctaves row.old k n seed y }
    ensures { HasOctaves row.new (k + 1) n seed y }
{
    let base = base_of(seed, k);
    let line = y >> k;
    let mut cell = Cell::at(base, 0, line);
    for (x, height) in row.iter_mut().enumerate() {
        cell = cell.moved_to(base, x as u32 >> k, line);
        *height += part(&cell, n, k, x as u32, y);
    }
}

/// The grid of this level and seed. Its maxval is 65535.
///
/// Cost (not proved): one step a point and octave. The one error is that memory runs out.
pub fn gen_grid(alloc: Global, n: u32, seed: u32) -> Result<Grid, NoMemory>
    requires n_low { 1 ≤ n }
    requires n_high { n ≤ GREATEST_FILE_LEVEL }
    ensures value { IfOk result (λ grid. grid ≡ made_grid n seed) }
    ensures heights { IfOk result (λ grid. (x y : ℕ) → x ≤ 2 ^ n → y ≤ 2 ^ n
        → height_at n grid.heights x y ≡ made_height n seed x y) }
{
    let mut grid = Grid::flat(alloc, n, GREATEST_HEIGHT)?;
    let mut room = [0u16; MOST_SIDE];
    let side = last_of(n) as usize + 1;
    fill_grid(&mut grid, &mut room[..side], n, seed);
    Ok(grid)
}

/// Makes the heights of a grid, each row in the same room.
fn fill_grid(grid: &mut Grid, row: &mut [u16], n: u32, seed: u32)
    requires n_high { n ≤ GREATEST_FILE_LEVEL }
    requires level { grid.old.n ≡ n }
    requires all { grid.old.maxval ≡ 65535 }
    requires length { length row.old ≡ side_of n }
    ensures level { grid.new.n ≡ n }
    ensures maxval { grid.new.maxval ≡ 65535 }
    ensures count { length grid.new.heights ≡ length grid.old.heights }
    ensures heights { (x y : ℕ) → x ≤ 2 ^ n → y ≤ 2 ^ n
        → height_at n grid.new.heights x y ≡ made_height n seed x y }
{
    for y in 0..(1 << n) + 1 {
        fill_row(row, n, seed, y);
        put_row(grid, row, y);
    }
}

/// Makes these the heights of row y of the grid.
fn put_row(grid: &mut Grid, row: &[u16], y: u32)
    requires length { length row.now ≡ side_of grid.old.n }
    requires in_rows { y ≤ 2 ^ grid.old.n }
    requires n_high { grid.old.n ≤ GREATEST_FILE_LEVEL }
    requires all { grid.old.maxval ≡ 65535 }
    ensures level { grid.new.n ≡ grid.old.n }
    ensures maxval { grid.new.maxval ≡ grid.old.maxval }
    ensures count { length grid.new.heights ≡ length grid.old.heights }
    ensures row { (x : ℕ) → x ≤ 2 ^ grid.old.n
        → height_at grid.old.n grid.new.heights x y ≡ slice_index row.now x }
    ensures others { (i j : ℕ) → i ≤ 2 ^ grid.old.n → j ≤ 2 ^ grid.old.n → j ≢ y
        → height_at grid.old.n grid.new.heights i j ≡ height_at grid.old.n grid.old.heights i j }
{
    for (x, height) in row.iter().enumerate() {
        grid.put(x as u32, y, *height);
    }
}
