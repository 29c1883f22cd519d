//! A grid of heights.

ghost use Rattle.std.specs.Prelude.{◌≡◌, ◌<◌, ◌≤◌, ◌^◌, ◌*◌, ℕ, length, replicate, slice_set, IfOk};
ghost use Rattle.mesh_defs.specs.HeightField.{IsHeightField, height_at, place_of, side_of};
ghost use Rattle.mesh_defs.specs.declared.level.TheConstants.{GREATEST_LEVEL};
ghost use Rattle.pgm_grid.specs.declared.grid.TheConstants.{MOST_SIDE, MOST_POINTS};
ghost use Rattle.pgm_grid.specs.PgmText.{point_count};

use mesh_defs::NoMemory;
use std::alloc::Global;
use std::marker::Model;

/// The most points of a side, 2^14 + 1.
pub const MOST_SIDE: usize = 16385;

/// The most points of a grid.
pub const MOST_POINTS: usize = MOST_SIDE * MOST_SIDE;

/// A square grid of heights, of 2^n + 1 points a side.
///
/// Heights are in units of height, in file order: rows from the top, each from left to right.
/// Point (0, 0) is the lower left corner.
#[derive(Debug, Drop)]
pub struct Grid {
    /// The level of the grid.
    pub(crate) n: u32,
    /// The bound of the heights.
    pub(crate) maxval: u16,
    /// The heights in file order.
    pub(crate) heights: Vec<u16>,
}

impl Model for Grid {
    ghost use Rattle.mesh_defs.specs.HeightField.{HeightField, IsHeightField};

    ghost Value = { HeightField };

    ghost use Rattle.pgm_grid.specs.GridView.{field_of};

    ghost view = { field_of };

    ghost invariant = { λ g. IsHeightField (field_of g) };
}

impl Grid {
    /// A grid of this level and this bound of heights, whose heights are all 0.
    ///
    /// Cost (not proved): one step a point, and two bytes a point. The one error is out of memory.
    pub fn flat(alloc: Global, n: u32, maxval: u16) -> Result<Grid, NoMemory>
        requires n_low { 1 ≤ n }
        requires n_high { n ≤ GREATEST_LEVEL }
        requires maxval_low { 1 ≤ maxval }
        ensures value { IfOk result (λ grid. grid
            ≡ record { n = n; maxval = maxval; heights = replicate (side_of n * side_of n) 0 }) }
        ensures valid { IfOk result IsHeightField }
    {
        let heights = vec![in alloc; 0; points_for(n)]?;
        Ok(Grid { n, maxval, heights })
    }

    /// The grid of these heights, in file order: rows from the top, each from left to right.
    ///
    /// For grids that come from elsewhere than a PGM file. Takes no memory and looks at no height.
    pub fn from_heights(n: u32, maxval: u16, heights: Vec<u16>) -> Grid
        requires valid { IsHeightField (record { n = n; maxval = maxval; heights = heights.items }) }
        ensures value { result ≡ record { n = n; maxval = maxval; heights = heights.items } }
        ensures valid { IsHeightField result }
    {
        Grid { n, maxval, heights }
    }

    /// The level of the grid: a side has 2^n + 1 points.
    pub fn n(&self) -> u32
        ensures value { result ≡ self.now.n }
        ensures low { 1 ≤ result }
        ensures high { result ≤ GREATEST_LEVEL }
        ensures valid { IsHeightField self.now }
    {
        self.n
    }

    /// The bound of the heights, which the file's header gave.
    pub fn maxval(&self) -> u16
        ensures value { result ≡ self.now.maxval }
        ensures low { 1 ≤ result }
        ensures valid { IsHeightField self.now }
    {
        self.maxval
    }

    /// The number of points of a side.
    pub fn side(&self) -> usize
        ensures value { result ≡ side_of self.now.n }
        ensures high { result ≤ MOST_SIDE }
    {
        side_for(self.n)
    }

    /// The number of points.
    pub fn points(&self) -> usize
        ensures value { result ≡ point_count self.now.n }
        ensures high { result ≤ MOST_POINTS }
        ensures valid { IsHeightField self.now }
    {
        points_for(self.n)
    }

    /// All heights, in file order.
    pub fn heights(&self) -> &[u16]
        ensures value { result.now ≡ self.now.heights }
        ensures count { length result.now ≡ side_of self.now.n * side_of self.now.n }
        ensures valid { IsHeightField self.now }
    {
        self.heights.as_slice()
    }

    /// The height of the point in column `x` from the left and row `y` from the bottom.
    pub fn height(&self, x: u32, y: u32) -> u16
        requires in_columns { x ≤ 2 ^ self.now.n }
        requires in_rows { y ≤ 2 ^ self.now.n }
        ensures value { result ≡ height_at self.now.n self.now.heights x y }
        ensures bounded { result ≤ self.now.maxval }
    {
        self.heights[self.place(x, y)]
    }

    /// Makes `h` the height of the point in column `x` from the left and row `y` from the bottom.
    ///
    /// Cost (not proved): a few steps. Takes no memory.
    pub fn put(&mut self, x: u32, y: u32, h: u16)
        requires in_columns { x ≤ 2 ^ self.old.n }
        requires in_rows { y ≤ 2 ^ self.old.n }
        requires bounded { h ≤ self.old.maxval }
        ensures value { self.new ≡ record self.old {
          heights = slice_set self.old.heights (place_of self.old.n x y) h;
        } }
        ensures valid { IsHeightField self.new }
        ensures there { height_at self.old.n self.new.heights x y ≡ h }
        // Each other point of the grid keeps its height.
        ensures others { (i j : ℕ) → i ≤ 2 ^ self.old.n → j ≤ 2 ^ self.old.n → (i ≡ x → j ≡ y → ⊥)
            → height_at self.old.n self.new.heights i j ≡ height_at self.old.n self.old.heights i j }
    {
        let place = self.place(x, y);
        self.heights[place] = h;
    }

    /// The place of a point's height in file order.
    fn place(&self, x: u32, y: u32) -> usize
        requires in_columns { x ≤ 2 ^ self.now.n }
        requires in_rows { y ≤ 2 ^ self.now.n }
        ensures value { result ≡ place_of self.now.n x y }
        ensures within { result < length self.now.heights }
    {
        let side = side_for(self.n);
        (side - 1 - y as usize) * side + x as usize
    }
}

/// The number of points of a side of a grid with this n.
pub fn side_for(n: u32) -> usize
    requires { n ≤ GREATEST_LEVEL }
    ensures value { result ≡ side_of n }
    ensures high { result ≤ MOST_SIDE }
{
    (1 << n) + 1
}

/// The number of points of a grid with this n.
pub(crate) fn points_for(n: u32) -> usize
    requires { n ≤ GREATEST_LEVEL }
    ensures value { result ≡ point_count n }
    ensures high { result ≤ MOST_POINTS }
{
    let side = side_for(n);
    side * side
}
