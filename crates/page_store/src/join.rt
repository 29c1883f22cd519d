//! The quarters of a page, joined again where finer pages in it came, went or changed.

ghost use Rattle.std.specs.Prelude.{◌≡◌, ℕ, ◌+◌, ◌-◌, ◌*◌, ◌^◌, ◌<◌, ◌≤◌, Some, None, option_map, slice_set};
ghost use Rattle.std.specs.Prelude.{slice_index_or, vec_len};
ghost use Rattle.mesh_defs.specs.Triangle.{corners_of};
ghost use Rattle.mesh_defs.specs.declared.point.Point.{Point};
ghost use Rattle.mosaic_laws.specs.Tile.{IsTile, in_tile};
ghost use Rattle.page_laws.specs.Pages.{square_above};
ghost use Rattle.page_laws.specs.Loaded.{known_wedge};
ghost use Rattle.page_wedges.specs.Page.{Page, with_quarter, joined_in};
ghost use Rattle.page_wedges.specs.declared.join.TheConstants.{THICKEST};
ghost use Rattle.page_store.specs.Store.{top_of, page_at, height_in, known_in, AreJoined, IsTable};
ghost use Rattle.wedgie_tree.specs.Edits.{area_between};
ghost use Rattle.page_store.specs.Edit.{IsNear, AreJoinedBut};
ghost use Rattle.page_store.specs.Change.{IsQuarterJoined, IsPageJoined, AreSameGrids, AreOthersJoined};

use crate::edits::span;
use crate::part::Part;
use crate::table::{Table, place};
use crate::wedge::is_upper;
use bintree_addr::Tri;
use mesh_defs::Point;
use page_laws::KnownWedge;
use page_wedges::{PageWedges, terrain_laws};

impl Table {
    /// The wedge of a child of a page's quarter, the left (0) or the right one (1): a half of a finer page, where that
    /// is loaded.
    fn child(&self, cuts: u32, part: Part, page: &PageWedges, side: u32) -> KnownWedge
        requires coarse { cuts < top_of self.now }
        requires in_square { IsTile (2 ^ cuts) (2 ^ cuts) part.square }
        requires quarter { part.quarter < 4 }
        requires side { side < 2 }
        requires page { page_at self.now (top_of self.now - cuts) part.square ≡ Some page.now }
        requires joined { (u : Point) (finer : Page) → square_above u ≡ part.square →
            page_at self.now (top_of self.now - (cuts + 1)) u ≡ Some finer →
            AreJoined self.now (top_of self.now - (cuts + 1)) u finer }
        ensures value { result ≡ known_wedge self.now.large (height_in self.now) (known_in self.now)
            (2 * in_tile cuts part.square (4 + part.quarter) + side) }
        ensures thin { result.thickness ≤ THICKEST }
    {
        let _ = &self.large;
        terrain_laws();
        let below = part.below(2 * side);
        match self.page_in(cuts + 1, below.square) {
            Some(finer) => finer.half(is_upper(below.quarter)),
            None => {
                let tri = grandchild(part.quarter, side);
                page.own(tri, tri.corners(page.grid().n()))
            }
        }
    }
}

impl Table {
    /// Joins a quarter of a page again, where it is loaded and the finer pages in it stand right.
    fn join_quarter(&mut self, cuts: u32, square: Point, k: u32)
        requires coarse { cuts < top_of self.old }
        requires in_square { IsTile (2 ^ cuts) (2 ^ cuts) square }
        requires quarter { k < 4 }
        requires joined { (u : Point) (finer : Page) → square_above u ≡ square →
            page_at self.old (top_of self.old - (cuts + 1)) u ≡ Some finer →
            AreJoined self.old (top_of self.old - (cuts + 1)) u finer }
        ensures joined { IsQuarterJoined self.old self.new (top_of self.old - cuts) square k }
        ensures valid { IsTable self.new }
    {
        let _ = &self.large;
        terrain_laws();
        let part = Part { square, quarter: k };
        let Some(page) = self.page_in(cuts, square) else {
            return;
        };
        let left = self.child(cuts, part, page, 0);
        let right = self.child(cuts, part, page, 1);
        write_quarter(&mut self.pages, place(cuts, square), k, left, right);
    }
}

impl Table {
    /// Joins all quarters of a page again, where it is loaded and the finer pages in it stand right.
    pub(crate) fn join_page(&mut self, cuts: u32, square: Point)
        requires coarse { cuts < top_of self.old }
        requires in_square { IsTile (2 ^ cuts) (2 ^ cuts) square }
        requires joined { (u : Point) (finer : Page) → square_above u ≡ square →
            page_at self.old (top_of self.old - (cuts + 1)) u ≡ Some finer →
            AreJoined self.old (top_of self.old - (cuts + 1)) u finer }
        ensures joined { IsPageJoined self.old self.new (top_of self.old - cuts) square }
        ensures valid { IsTable self.new }
    {
        self.join_quarter(cuts, square, 0);
        self.join_quarter(cuts, square, 1);
        self.join_quarter(cuts, square, 2);
        self.join_quarter(cuts, square, 3);
    }

    /// Joins the pages in which a square lies, from the next coarser one up.
    pub(crate) fn join_above(&mut self, cuts: u32, square: Point)
        requires coarse { cuts ≤ top_of self.old }
        requires in_square { IsTile (2 ^ cuts) (2 ^ cuts) square }
        requires joined { AreOthersJoined self.old (top_of self.old - cuts) square }
        requires valid { IsTable self.old }
        ensures grids { AreSameGrids self.old self.new }
        ensures joined { (q : ℕ) (t : Point) (page : Page) → page_at self.new q t ≡ Some page →
            AreJoined self.new q t page }
        ensures valid { IsTable self.new }
    {
        let mut cuts = cuts;
        let mut square = square;
        while cuts > 0 {
            cuts -= 1;
            square = Point {
                x: square.x / 2,
                y: square.y / 2,
            };
            self.join_page(cuts, square);
        }
    }
}

impl Table {
    /// Joins the pages that meet an area, but for the finest ones, from the next resolution up.
    pub(crate) fn join_area(&mut self, low: Point, high: Point)
        requires joined { AreJoinedBut self.old
            (λ q t. (1 ≤ q) × IsNear self.old (area_between low.x low.y high.x high.y) q t) }
        requires valid { IsTable self.old }
        ensures grids { AreSameGrids self.old self.new }
        ensures joined { (q : ℕ) (t : Point) (page : Page) → page_at self.new q t ≡ Some page →
            AreJoined self.new q t page }
        ensures valid { IsTable self.new }
    {
        for q in 1..self.large - self.n + 1 {
            self.join_level(q, low, high);
        }
    }

    /// Joins those of one resolution.
    fn join_level(&mut self, q: u32, low: Point, high: Point)
        requires some { 1 ≤ q }
        requires coarse { q ≤ top_of self.old }
        requires joined { AreJoinedBut self.old
            (λ r t. (q ≤ r) × IsNear self.old (area_between low.x low.y high.x high.y) r t) }
        requires valid { IsTable self.old }
        ensures grids { AreSameGrids self.old self.new }
        ensures joined { AreJoinedBut self.new
            (λ r t. (q + 1 ≤ r) × IsNear self.new (area_between low.x low.y high.x high.y) r t) }
        ensures valid { IsTable self.new }
    {
        let (first, end) = span(self.n + q, self.large - self.n - q, low.y, high.y);
        for y in first..end {
            self.join_row(q, y, low, high);
        }
    }

    /// Joins those of one row of squares.
    fn join_row(&mut self, q: u32, y: u32, low: Point, high: Point)
        requires some { 1 ≤ q }
        requires coarse { q ≤ top_of self.old }
        requires in_rows { y < 2 ^ (top_of self.old - q) }
        requires joined { AreJoinedBut self.old (λ r t. (q ≤ r)
            × IsNear self.old (area_between low.x low.y high.x high.y) r t × (r ≡ q → y ≤ t.y)) }
        requires valid { IsTable self.old }
        ensures grids { AreSameGrids self.old self.new }
        ensures joined { AreJoinedBut self.new (λ r t. (q ≤ r)
            × IsNear self.new (area_between low.x low.y high.x high.y) r t × (r ≡ q → y + 1 ≤ t.y)) }
        ensures valid { IsTable self.new }
    {
        let cuts = self.large - self.n - q;
        let (first, end) = span(self.n + q, cuts, low.x, high.x);
        for x in first..end {
            self.join_page(cuts, Point { x, y });
        }
    }
}

/// Joins a quarter of the page at a place, if there is one.
fn write_quarter(
    pages: &mut Vec<Option<PageWedges>>,
    at: usize,
    k: u32,
    left: KnownWedge,
    right: KnownWedge,
)
    requires in_table { at < vec_len pages.old }
    requires in_square { k < 4 }
    requires left_small { left.thickness ≤ THICKEST }
    requires right_small { right.thickness ≤ THICKEST }
    ensures value { pages.new.items ≡ slice_set pages.old.items at (option_map
        (λ page. with_quarter page k (joined_in page.field (corners_of page.field.n (4 + k)) left right))
        (slice_index_or pages.old.items at None)) }
{
    if let Some(page) = pages[at].as_mut() {
        page.join_quarter(k, left, right);
    }
}

/// The triangle of a page's grid that is this child of a quarter.
fn grandchild(quarter: u32, side: u32) -> Tri
    requires in_square { quarter < 4 }
    requires side { side < 2 }
    ensures value { result ≡ 2 * (4 + quarter) + side }
{
    Tri::at(2 * (4 + quarter) + side).unwrap()
}
