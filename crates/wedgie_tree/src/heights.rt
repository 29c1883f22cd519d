//! Changes of the heights of a grid, a row at a time.

ghost use Rattle.std.specs.Prelude.{◌≡◌, ℕ, ◌+◌, ◌<◌, ◌≤◌, ◌≤ℤ◌, ◌+ℤ◌, ◌^◌, pos, true, length, slice_index, All};
ghost use Rattle.roam_lanes.specs.Raising.{least_change, greatest_change};
ghost use Rattle.mesh_defs.specs.HeightField.{height_at, IsHeightField};
ghost use Rattle.mesh_defs.specs.State.{clamped, is_in_area, raised_heights};
ghost use Rattle.wedgie_tree.specs.Edits.{with_row};

use crate::Area;
use arrayvec::ArrayVec;
use pgm_grid::{Grid, MOST_SIDE};
use roam_lanes::raise_row;

/// Puts a row of heights from the point (x, y) to the right.
pub fn put_row(grid: &mut Grid, x: u32, y: u32, row: &[u16])
    requires in_columns { x + length row.now ≤ 2 ^ grid.old.n + 1 }
    requires in_rows { y ≤ 2 ^ grid.old.n }
    requires bounded { All (λ h. h ≤ grid.old.maxval) row.now }
    ensures value { grid.new ≡ record grid.old { heights = with_row grid.old x y row.now } }
    ensures valid { IsHeightField grid.new }
    ensures there { (k : ℕ) → k < length row.now →
        height_at grid.old.n grid.new.heights (x + k) y ≡ slice_index row.now k }
    ensures others { (i j : ℕ) → i ≤ 2 ^ grid.old.n → j ≤ 2 ^ grid.old.n → (j ≡ y → x ≤ i → i < x + length row.now → ⊥)
        → height_at grid.old.n grid.new.heights i j ≡ height_at grid.old.n grid.old.heights i j }
{
    let _small = grid.n();
    for k in 0..row.len() {
        grid.put(x + k as u32, y, row[k]);
    }
}

/// The heights of these columns of a row.
fn row_of(grid: &Grid, x0: u32, x1: u32, y: u32) -> ArrayVec<u16, MOST_SIDE>
    requires order { x0 ≤ x1 }
    requires in_columns { x1 ≤ 2 ^ grid.now.n }
    requires in_rows { y ≤ 2 ^ grid.now.n }
    ensures count { x0 + length result.items ≡ x1 + 1 }
    ensures each { (k : ℕ) → k < length result.items →
        slice_index result.items k ≡ height_at grid.now.n grid.now.heights (x0 + k) y }
    ensures bounded { All (λ h. h ≤ grid.now.maxval) result.items }
{
    let _small = grid.n();
    let mut row = ArrayVec::new();
    for x in x0..x1 + 1 {
        row.push(grid.height(x, y));
    }
    row
}

/// Raises a row of heights, brings them into 0 to the bound of heights, and puts them from (x, y) on.
fn put_raised(grid: &mut Grid, x: u32, y: u32, row: &mut [u16], dz: i32)
    requires in_columns { x + length row.old ≤ 2 ^ grid.old.n + 1 }
    requires in_rows { y ≤ 2 ^ grid.old.n }
    requires bounded { All (λ h. h ≤ grid.old.maxval) row.old }
    requires at_least { least_change ≤ℤ dz }
    requires at_most { dz ≤ℤ greatest_change }
    ensures n { grid.new.n ≡ grid.old.n }
    ensures maxval { grid.new.maxval ≡ grid.old.maxval }
    ensures valid { IsHeightField grid.new }
    ensures there { (k : ℕ) → k < length row.old → height_at grid.old.n grid.new.heights (x + k) y
        ≡ clamped grid.old.maxval (pos (slice_index row.old k) +ℤ dz) }
    ensures others { (i j : ℕ) → i ≤ 2 ^ grid.old.n → j ≤ 2 ^ grid.old.n → (j ≡ y → x ≤ i → i < x + length row.old → ⊥)
        → height_at grid.old.n grid.new.heights i j ≡ height_at grid.old.n grid.old.heights i j }
{
    raise_row(row, dz, grid.maxval());
    put_row(grid, x, y, row);
}

/// Raises the heights of these columns of a row, and brings them into 0 to the bound of heights.
fn raise_one_row(grid: &mut Grid, x0: u32, x1: u32, y: u32, dz: i32)
    requires order { x0 ≤ x1 }
    requires in_columns { x1 ≤ 2 ^ grid.old.n }
    requires in_rows { y ≤ 2 ^ grid.old.n }
    requires at_least { least_change ≤ℤ dz }
    requires at_most { dz ≤ℤ greatest_change }
    ensures n { grid.new.n ≡ grid.old.n }
    ensures maxval { grid.new.maxval ≡ grid.old.maxval }
    ensures valid { IsHeightField grid.new }
    ensures there { (i : ℕ) → x0 ≤ i → i ≤ x1 → height_at grid.old.n grid.new.heights i y
        ≡ clamped grid.old.maxval (pos (height_at grid.old.n grid.old.heights i y) +ℤ dz) }
    ensures others { (i j : ℕ) → i ≤ 2 ^ grid.old.n → j ≤ 2 ^ grid.old.n → (j ≡ y → x0 ≤ i → i ≤ x1 → ⊥)
        → height_at grid.old.n grid.new.heights i j ≡ height_at grid.old.n grid.old.heights i j }
{
    let mut row = row_of(grid, x0, x1, y);
    put_raised(grid, x0, y, row.as_mut_slice(), dz);
}

/// Raises the heights of an area, and brings them into 0 to the bound of heights.
pub fn raise_heights(grid: &mut Grid, area: Area, dz: i32)
    requires in_columns { area.x1 ≤ 2 ^ grid.old.n }
    requires in_rows { area.y1 ≤ 2 ^ grid.old.n }
    requires at_least { least_change ≤ℤ dz }
    requires at_most { dz ≤ℤ greatest_change }
    ensures value { grid.new ≡ record grid.old { heights = raised_heights grid.old area dz } }
    ensures others { (i j : ℕ) → i ≤ 2 ^ grid.old.n → j ≤ 2 ^ grid.old.n → (is_in_area area i j ≡ true → ⊥)
        → height_at grid.old.n grid.new.heights i j ≡ height_at grid.old.n grid.old.heights i j }
{
    let _small = grid.n();
    for y in area.y0..area.y1 + 1 {
        raise_one_row(grid, area.x0, area.x1, y, dz);
    }
}
