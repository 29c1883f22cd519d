//! A page's heights with the wedges of its triangles.

ghost use Rattle.std.specs.Prelude.{◌≡◌, ◌+◌, ◌*◌, ◌^◌, ◌<◌, ◌≤◌, ◌≤ℤ◌, IfOk, if◌then◌else◌, slice_set};
ghost use Rattle.roam_lanes.specs.Raising.{least_change, greatest_change};
ghost use Rattle.mesh_defs.specs.HeightField.{IsHeightField, place_of};
ghost use Rattle.mesh_defs.specs.State.{raised_heights};
ghost use Rattle.mesh_defs.specs.Triangle.{level_of, corners_of};
ghost use Rattle.page_wedges.specs.declared.join.TheConstants.{THICKEST};
ghost use Rattle.page_wedges.specs.Page.{own_wedge, quarter_in, with_quarter, joined_in, half_in, IsAlone};

use crate::join::{THICKEST, half_square, joined};
use bintree_addr::{Corners, Tri, corner_laws, level_laws};
use mesh_defs::NoMemory;
use page_laws::KnownWedge;
use pgm_grid::Grid;
use std::alloc::Global;
use std::marker::Model;
use wedgie_tree::{Area, Wedges, wedge_laws};

/// The wedges of a page: those of its grid of heights, and of its four quarters with what finer pages have below them.
///
/// Below its quarters a page has the triangles of its grid, whichever diagonal cuts its square; a half is asked for by
/// the quarter that it has, the lower (0) or the upper one (1).
#[derive(Debug, Drop)]
pub struct PageWedges {
    /// On the heap, so that a place for a page takes no more than a pointer.
    parts: Box<Parts>,
}

/// The wedges of the grid, the diagonal, and the wedges of the quarters.
#[derive(Debug, Drop)]
struct Parts {
    own: Wedges,
    turned: bool,
    lower: KnownWedge,
    left: KnownWedge,
    upper: KnownWedge,
    right: KnownWedge,
}

impl Model for PageWedges {
    ghost use Rattle.page_wedges.specs.Page.{Page};

    ghost Value = { Page };

    ghost view = { λ w. record {
      field = w.parts.value.own;
      turned = w.parts.value.turned;
      lower = w.parts.value.lower;
      left = w.parts.value.left;
      upper = w.parts.value.upper;
      right = w.parts.value.right;
    } };

    ghost use Rattle.page_wedges.specs.Page.{AreThin};

    ghost invariant = { λ w. AreThin w.parts.value.lower w.parts.value.left w.parts.value.upper w.parts.value.right };
}

impl PageWedges {
    /// The wedges of a page with these heights, in a square that the rising diagonal cuts if it is `turned`.
    ///
    /// The grid is dropped where memory is wanted.
    /// Cost (not proved): that of `Wedges::build`, on any thread; no finer page is looked at.
    pub fn build(alloc: Global, grid: Grid, turned: bool) -> Result<PageWedges, NoMemory>
        ensures field { IfOk result (λ w. w.field ≡ grid) }
        ensures turned { IfOk result (λ w. w.turned ≡ turned) }
        ensures alone { IfOk result IsAlone }
    {
        let flat = KnownWedge {
            thickness: 0,
            low: 0,
            high: 0,
        };
        let parts = Parts {
            own: Wedges::build(alloc, grid)?,
            turned,
            lower: flat,
            left: flat,
            upper: flat,
            right: flat,
        };
        let mut page = PageWedges {
            parts: Box::new(alloc, parts)?,
        };
        page.read_quarters();
        Ok(page)
    }

    // Gives each quarter the wedge that it has in the page's grid.
    fn read_quarters(&mut self)
        ensures value { self.new ≡ record self.old {
          lower = own_wedge self.old.field 4;
          left = own_wedge self.old.field 5;
          upper = own_wedge self.old.field 6;
          right = own_wedge self.old.field 7;
        } }
        ensures alone { IsAlone self.new }
    {
        let parts: &mut Parts = &mut self.parts;
        // The grid has a first level.
        let _some = parts.own.grid();
        parts.lower = quarter_of(&parts.own, 0);
        parts.left = quarter_of(&parts.own, 1);
        parts.upper = quarter_of(&parts.own, 2);
        parts.right = quarter_of(&parts.own, 3);
    }

    /// Makes `h` the height of a point.
    ///
    /// It lies in column `x` from the left and row `y` from the bottom of the page's grid. All wedges follow, and those of
    /// the quarters are as built: join them again where finer pages are loaded.
    /// Cost (not proved): that of `Wedges::set`. Takes no memory.
    pub fn set_height(&mut self, x: u32, y: u32, h: u16)
        requires in_columns { x ≤ 2 ^ self.old.field.n }
        requires in_rows { y ≤ 2 ^ self.old.field.n }
        requires bounded { h ≤ self.old.field.maxval }
        ensures field { self.new.field ≡ record self.old.field {
          heights = slice_set self.old.field.heights (place_of self.old.field.n x y) h;
        } }
        ensures turned { self.new.turned ≡ self.old.turned }
        ensures alone { IsAlone self.new }
    {
        self.parts.own.set(x, y, h);
        self.read_quarters();
    }

    /// Raises the heights of an area by `dz`.
    ///
    /// They are lowered where `dz` is negative, and brought into 0 to the bound of heights. All wedges follow, as in
    /// `set_height`.
    /// Cost (not proved): that of `Wedges::raise`. Takes no memory.
    pub fn raise(&mut self, area: Area, dz: i32)
        requires in_columns { area.x1 ≤ 2 ^ self.old.field.n }
        requires in_rows { area.y1 ≤ 2 ^ self.old.field.n }
        requires at_least { least_change ≤ℤ dz }
        requires at_most { dz ≤ℤ greatest_change }
        ensures field { self.new.field ≡ record self.old.field {
          heights = raised_heights self.old.field area dz;
        } }
        ensures turned { self.new.turned ≡ self.old.turned }
        ensures alone { IsAlone self.new }
    {
        self.parts.own.raise(area, dz);
        self.read_quarters();
    }

    /// The heights.
    pub fn grid(&self) -> &Grid
        ensures value { result.now ≡ self.now.field }
        ensures valid { IsHeightField self.now.field }
    {
        self.parts.own.grid()
    }

    /// Says which diagonal cuts the page's square: a page may be built before its place in the terrain is known.
    pub fn cut_by(&mut self, turned: bool)
        ensures value { self.new ≡ record self.old { turned = turned } }
    {
        self.parts.turned = turned;
    }

    /// The wedge of a triangle by the page's heights alone, which it has where no finer page lies in its part.
    ///
    /// The caller has its corners.
    /// Cost (not proved): a read, or at the last levels a step for each of at most 15 heights.
    pub fn own(&self, tri: Tri, corners: Corners) -> KnownWedge
        requires level { level_of tri ≤ 2 * self.now.field.n }
        requires of_tri { corners ≡ corners_of self.now.field.n tri }
        ensures value { result ≡ own_wedge self.now.field tri }
        ensures bounded { result.thickness ≤ THICKEST }
    {
        own_of(&self.parts.own, tri, corners)
    }

    /// The wedge of a quarter, from the lower one (0) clockwise.
    pub fn quarter(&self, k: u32) -> KnownWedge
        requires in_square { k < 4 }
        ensures value { result ≡ quarter_in self.now k }
        ensures bounded { result.thickness ≤ THICKEST + 131070 }
    {
        match k {
            0 => self.parts.lower,
            1 => self.parts.left,
            2 => self.parts.upper,
            _ => self.parts.right,
        }
    }

    /// The wedge of the half that has the lower quarter, or of the one that has the upper.
    ///
    /// Cost (not proved): three heights.
    pub fn half(&self, upper: bool) -> KnownWedge
        ensures value { result ≡ half_in self.now (if upper then 1 else 0) }
        ensures bounded { result.thickness ≤ THICKEST + 2 * 131070 }
    {
        let (first, second) = self.children_of(upper);
        let parts: &Parts = &self.parts;
        let grid = parts.own.grid();
        let side = grid.side() as u32 - 1;
        joined(grid, half_square(side, parts.turned, upper), first, second)
    }

    ghost use Rattle.page_laws.specs.Pages.{left_quarter, right_quarter};

    // The wedges of the left and of the right child of a half.
    fn children_of(&self, upper: bool) -> (KnownWedge, KnownWedge)
        ensures left { result.0 ≡ quarter_in self.now (left_quarter self.now.turned (if upper then 1 else 0)) }
        ensures right { result.1 ≡ quarter_in self.now (right_quarter self.now.turned (if upper then 1 else 0)) }
        ensures left_small { result.0.thickness ≤ THICKEST + 131070 }
        ensures right_small { result.1.thickness ≤ THICKEST + 131070 }
    {
        let parts: &Parts = &self.parts;
        match (parts.turned, upper) {
            (false, false) => (parts.lower, parts.left),
            (false, true) => (parts.upper, parts.right),
            (true, false) => (parts.right, parts.lower),
            (true, true) => (parts.left, parts.upper),
        }
    }

    /// Joins a quarter again, from the wedges of its children: a finer page's halves, or what `own` answers.
    pub fn join_quarter(&mut self, k: u32, left: KnownWedge, right: KnownWedge)
        requires in_square { k < 4 }
        requires left_small { left.thickness ≤ THICKEST }
        requires right_small { right.thickness ≤ THICKEST }
        ensures value { self.new ≡ with_quarter self.old k
            (joined_in self.old.field (corners_of self.old.field.n (4 + k)) left right) }
    {
        let parts: &mut Parts = &mut self.parts;
        let grid = parts.own.grid();
        let wedge = joined(grid, quarter(k).corners(grid.n()), left, right);
        match k {
            0 => parts.lower = wedge,
            1 => parts.left = wedge,
            2 => parts.upper = wedge,
            _ => parts.right = wedge,
        }
    }
}

/// The triangle of this quarter in the page's grid.
fn quarter(k: u32) -> Tri
    requires in_square { k < 4 }
    ensures value { result ≡ 4 + k }
    ensures level { level_of result ≡ 1 }
{
    level_laws();
    Tri::at(4 + k).unwrap()
}

/// The wedge that this quarter has in its grid.
fn quarter_of(wedges: &Wedges, k: u32) -> KnownWedge
    requires in_square { k < 4 }
    ensures value { result ≡ own_wedge wedges.now (4 + k) }
    ensures bounded { result.thickness ≤ THICKEST }
{
    let tri = quarter(k);
    own_of(wedges, tri, tri.corners(wedges.grid().n()))
}

/// The wedge of a triangle of a grid.
fn own_of(wedges: &Wedges, tri: Tri, corners: Corners) -> KnownWedge
    requires level { level_of tri ≤ 2 * wedges.now.n }
    requires of_tri { corners ≡ corners_of wedges.now.n tri }
    ensures value { result ≡ own_wedge wedges.now tri }
    ensures bounded { result.thickness ≤ THICKEST }
{
    wedge_laws();
    let _small = wedges.grid().n();
    let _address = tri.number();
    let wedge = wedges.wedge_at(tri, corners);
    KnownWedge {
        thickness: wedge.thickness,
        low: wedge.low,
        high: wedge.high,
    }
}
