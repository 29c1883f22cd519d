//! A grid with the thickness and the box of each of its triangles.

ghost use Rattle.std.specs.Prelude.{◌≡◌, ℕ, ◌+◌, ◌*◌, ◌<◌, ◌≤◌, ◌^◌, IfOk, pos, ◌≤ℤ◌, true, length, slice_index};
ghost use Rattle.std.specs.Prelude.{slice_set, All};
ghost use Rattle.roam_lanes.specs.Raising.{least_change, greatest_change};
ghost use Rattle.mesh_defs.specs.HeightField.{IsHeightField, height_at, place_of};
ghost use Rattle.mesh_defs.specs.State.{is_in_area, raised_heights};
ghost use Rattle.mesh_defs.specs.Triangle.{level_of, corners_of};
ghost use Rattle.mesh_defs.specs.Thickness.{thickness_of};
ghost use Rattle.mesh_defs.specs.BoundingBox.{low_of, high_of, box_of};
ghost use Rattle.wedgie_tree.specs.declared.wedges.TheConstants.{GREATEST_SPACING};
ghost use Rattle.wedgie_tree.specs.Edits.{with_row};

use crate::Area;
use crate::fine::fine_wedge;
use crate::heights::{put_row, raise_heights};
use crate::laws::wedge_laws;
use crate::shape::box_around;
use crate::table::{entry, fill, levels, mend, places};
use crate::wedge::Wedge;
use bintree_addr::{Corners, Cuboid, Tri};
use mesh_defs::NoMemory;
use pgm_grid::Grid;
use std::alloc::Global;
use std::marker::Model;

/// The most world units that a grid step has: so no corner of a box lies beyond 2^24.
pub const GREATEST_SPACING: u32 = 1024;

/// A grid of heights with the thickness, the least and the greatest height of each of its triangles.
///
/// Source: Duchaineau et al., "ROAMing Terrain", IEEE Visualization 1997, the part on nested bounds.
/// There a wedgie is the space around a triangle; here its thickness is in half units of height, and the
/// least and greatest height over all points of the triangle give its box.
#[derive(Debug, Drop)]
pub struct Wedges {
    grid: Grid,
    table: Vec<Wedge>,
}

impl Model for Wedges {
    ghost use Rattle.mesh_defs.specs.HeightField.{HeightField};

    ghost Value = { HeightField };

    ghost use Rattle.wedgie_tree.specs.Table.{IsTable};

    ghost view = { λ w. w.grid };

    ghost invariant = { λ w. IsTable w.grid w.table.items };
}

impl Wedges {
    /// The wedges of this grid, which is dropped where memory is wanted.
    ///
    /// Cost (not proved): a step for each triangle; 8 bytes for each splittable triangle.
    pub fn build(alloc: Global, grid: Grid) -> Result<Wedges, NoMemory>
        ensures { IfOk result (λ w. w ≡ grid) }
    {
        let empty = Wedge {
            thickness: 0,
            low: 0,
            high: 0,
        };
        let mut table = vec![in alloc; empty; places(grid.n())]?;
        fill(&mut table, &grid);
        Ok(Wedges { grid, table })
    }

    /// The grid of heights.
    pub fn grid(&self) -> &Grid
        ensures value { result.now ≡ self.now }
        ensures valid { IsHeightField self.now }
    {
        &self.grid
    }

    /// Makes `h` the height of the point in column `x` from the left and row `y` from the bottom. All
    /// thicknesses and boxes follow.
    ///
    /// Cost (not proved): a step for each triangle whose bounding rectangle has the point, at most a few
    /// hundred. Takes no memory.
    pub fn set(&mut self, x: u32, y: u32, h: u16)
        requires in_columns { x ≤ 2 ^ self.old.n }
        requires in_rows { y ≤ 2 ^ self.old.n }
        requires bounded { h ≤ self.old.maxval }
        ensures value { self.new ≡ record self.old {
          heights = slice_set self.old.heights (place_of self.old.n x y) h;
        } }
        // Each other point of the grid keeps its height.
        ensures others { (i j : ℕ) → i ≤ 2 ^ self.old.n → j ≤ 2 ^ self.old.n → (i ≡ x → j ≡ y → ⊥)
            → height_at self.old.n self.new.heights i j ≡ height_at self.old.n self.old.heights i j }
    {
        self.grid.put(x, y, h);
        mend(&mut self.table, &self.grid, Area::new(x, y, x, y));
    }

    /// Puts a row of heights from the point (x, y) to the right. All thicknesses and boxes follow.
    ///
    /// Cost (not proved): a step for each height and for each triangle whose bounding rectangle has one
    /// of the points. Takes no memory.
    pub fn set_row(&mut self, x: u32, y: u32, heights: &[u16])
        requires in_columns { x + length heights.now ≤ 2 ^ self.old.n + 1 }
        requires in_rows { y ≤ 2 ^ self.old.n }
        requires bounded { All (λ h. h ≤ self.old.maxval) heights.now }
        ensures value { self.new ≡ record self.old { heights = with_row self.old x y heights.now } }
        ensures there { (k : ℕ) → k < length heights.now →
            height_at self.old.n self.new.heights (x + k) y ≡ slice_index heights.now k }
        ensures others { (i j : ℕ) → i ≤ 2 ^ self.old.n → j ≤ 2 ^ self.old.n
            → (j ≡ y → x ≤ i → i < x + length heights.now → ⊥)
            → height_at self.old.n self.new.heights i j ≡ height_at self.old.n self.old.heights i j }
    {
        // The heights are those of a grid, also where the row is empty.
        let _valid = self.grid();
        let count = heights.len();
        if count == 0 {
            return;
        }
        put_row(&mut self.grid, x, y, heights);
        let last = x + (count - 1) as u32;
        mend(&mut self.table, &self.grid, Area::new(x, y, last, y));
    }

    /// Raises each height of an area by `dz`, lowers it where `dz` is negative, and brings it into 0 to the
    /// bound of heights. All thicknesses and boxes follow.
    ///
    /// Cost (not proved): a step for each point of the area and for each triangle whose bounding rectangle
    /// has one of them, so at most that of `build`. Takes no memory.
    pub fn raise(&mut self, area: Area, dz: i32)
        requires in_columns { area.x1 ≤ 2 ^ self.old.n }
        requires in_rows { area.y1 ≤ 2 ^ self.old.n }
        requires at_least { least_change ≤ℤ dz }
        requires at_most { dz ≤ℤ greatest_change }
        ensures value { self.new ≡ record self.old { heights = raised_heights self.old area dz } }
        ensures others { (i j : ℕ) → i ≤ 2 ^ self.old.n → j ≤ 2 ^ self.old.n → (is_in_area area i j ≡ true → ⊥)
            → height_at self.old.n self.new.heights i j ≡ height_at self.old.n self.old.heights i j }
    {
        raise_heights(&mut self.grid, area, dz);
        mend(&mut self.table, &self.grid, area);
    }

    /// The thickness of a triangle, in half units of height.
    pub fn thickness(&self, t: Tri) -> u32
        requires level { level_of t ≤ 2 * self.now.n }
        ensures value { result ≡ thickness_of self.now.n self.now.heights t }
        ensures bounded { result ≤ 262140 * self.now.n }
    {
        wedge_laws();
        if t.level() == 2 * self.grid.n() {
            0
        } else {
            self.wedge(t).thickness
        }
    }

    /// The least height of the grid points in a triangle, its border included.
    ///
    /// Cost (not proved): at the finest level, that of `Tri::corners`.
    pub fn low(&self, t: Tri) -> u16
        requires level { level_of t ≤ 2 * self.now.n }
        ensures { result ≡ low_of self.now.n self.now.heights t }
    {
        self.wedge(t).low
    }

    /// The greatest height of the grid points in a triangle, its border included.
    ///
    /// Cost (not proved): at the finest level, that of `Tri::corners`.
    pub fn high(&self, t: Tri) -> u16
        requires level { level_of t ≤ 2 * self.now.n }
        ensures { result ≡ high_of self.now.n self.now.heights t }
    {
        self.wedge(t).high
    }

    /// What `thickness` and `cuboid` answer, for one walk down to the corners.
    ///
    /// Cost (not proved): that of `Tri::corners`, and at the last levels a step for each of at most 15 heights.
    pub fn thickness_and_cuboid(&self, t: Tri, spacing: u32) -> (u32, Cuboid)
        requires level { level_of t ≤ 2 * self.now.n }
        requires spacing_low { 1 ≤ spacing }
        requires spacing_high { spacing ≤ GREATEST_SPACING }
        ensures thickness { result.0 ≡ thickness_of self.now.n self.now.heights t }
        ensures x0 { result.1.x0 ≡ (box_of self.now.n self.now.heights spacing t).x0 }
        ensures x1 { result.1.x1 ≡ (box_of self.now.n self.now.heights spacing t).x1 }
        ensures y0 { result.1.y0 ≡ (box_of self.now.n self.now.heights spacing t).y0 }
        ensures y1 { result.1.y1 ≡ (box_of self.now.n self.now.heights spacing t).y1 }
        ensures z0 { result.1.z0 ≡ (box_of self.now.n self.now.heights spacing t).z0 }
        ensures z1 { result.1.z1 ≡ (box_of self.now.n self.now.heights spacing t).z1 }

        // Lower ends are at least 0, and at most the upper ends, which are at most 2^24.
        ensures x_from_0 { pos 0 ≤ℤ result.1.x0 }
        ensures y_from_0 { pos 0 ≤ℤ result.1.y0 }
        ensures z_from_0 { pos 0 ≤ℤ result.1.z0 }
        ensures x_small { result.1.x1 ≤ℤ pos (2 ^ 24) }
        ensures y_small { result.1.y1 ≤ℤ pos (2 ^ 24) }
        ensures z_small { result.1.z1 ≤ℤ pos (2 ^ 24) }
    {
        wedge_laws();
        let corners = t.corners(self.grid.n());
        let wedge = self.wedge_at(t, corners);
        let cuboid = box_around(corners, spacing, wedge.low, wedge.high);
        (wedge.thickness, cuboid)
    }

    /// The box around a triangle's part of the surface, in world units, where a grid step has so many of
    /// them as the spacing says and a unit of height is one.
    ///
    /// Cost (not proved): that of `Tri::corners`.
    pub fn cuboid(&self, t: Tri, spacing: u32) -> Cuboid
        requires level { level_of t ≤ 2 * self.now.n }
        requires spacing_low { 1 ≤ spacing }
        requires spacing_high { spacing ≤ GREATEST_SPACING }
        ensures x0 { result.x0 ≡ (box_of self.now.n self.now.heights spacing t).x0 }
        ensures x1 { result.x1 ≡ (box_of self.now.n self.now.heights spacing t).x1 }
        ensures y0 { result.y0 ≡ (box_of self.now.n self.now.heights spacing t).y0 }
        ensures y1 { result.y1 ≡ (box_of self.now.n self.now.heights spacing t).y1 }
        ensures z0 { result.z0 ≡ (box_of self.now.n self.now.heights spacing t).z0 }
        ensures z1 { result.z1 ≡ (box_of self.now.n self.now.heights spacing t).z1 }

        // Lower ends are at least 0, and at most the upper ends, which are at most 2^24.
        ensures x_from_0 { pos 0 ≤ℤ result.x0 }
        ensures y_from_0 { pos 0 ≤ℤ result.y0 }
        ensures z_from_0 { pos 0 ≤ℤ result.z0 }
        ensures x_small { result.x1 ≤ℤ pos (2 ^ 24) }
        ensures y_small { result.y1 ≤ℤ pos (2 ^ 24) }
        ensures z_small { result.z1 ≤ℤ pos (2 ^ 24) }
    {
        let (_, cuboid) = self.thickness_and_cuboid(t, spacing);
        cuboid
    }

    ghost use Rattle.wedgie_tree.specs.Table.{IsWedge};

    // The wedge of a triangle: from the table, or at the last levels from its heights.
    fn wedge(&self, t: Tri) -> Wedge
        requires { level_of t ≤ 2 * self.now.n }
        ensures { IsWedge self.now t result }
    {
        let n = self.grid.n();
        if levels(n) <= t.level() {
            fine_wedge(&self.grid, t, t.corners(n))
        } else {
            entry(&self.grid, &self.table, t)
        }
    }

    /// The thickness, the least and the greatest height of a triangle whose corners are known.
    ///
    /// Cost (not proved): a read, and at the last levels a step for each of at most 15 heights.
    pub fn wedge_at(&self, t: Tri, corners: Corners) -> Wedge
        requires level { level_of t ≤ 2 * self.now.n }
        requires of_tri { corners ≡ corners_of self.now.n t }
        ensures { IsWedge self.now t result }
    {
        if levels(self.grid.n()) <= t.level() {
            fine_wedge(&self.grid, t, corners)
        } else {
            entry(&self.grid, &self.table, t)
        }
    }
}
