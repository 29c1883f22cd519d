//! Heights raised in an area, page by page.

ghost use Rattle.std.specs.Prelude.{◌≡◌, ◌+◌, ◌-◌, ◌*◌, ◌^◌, ◌<◌, ◌≤◌, ◌≤ℤ◌, ◌↔◌, IsTrue, false, IfSome, IsNone, IsSome};
ghost use Rattle.std.specs.Prelude.{slice_set, slice_index_or, vec_len, ℕ, None, is_some};
ghost use Rattle.roam_lanes.specs.Raising.{least_change, greatest_change};
ghost use Rattle.mesh_defs.specs.declared.level.TheConstants.{GREATEST_LEVEL};
ghost use Rattle.mesh_defs.specs.declared.point.Point.{Point};
ghost use Rattle.mesh_defs.specs.State.{is_in_area};
ghost use Rattle.bintree_laws.specs.Corners.{IsInSquare};
ghost use Rattle.mosaic_laws.specs.Tile.{IsTile};
ghost use Rattle.page_laws.specs.Pages.{page_point};
ghost use Rattle.wedgie_tree.specs.Edits.{area_between};
ghost use Rattle.page_store.specs.Store.{IsTable, IsStore};
ghost use Rattle.page_store.specs.Edit.{HasPointIn, IsRaisedPage, IsRaisedAt, span_from, span_end, IsNear};
ghost use Rattle.page_store.specs.Edit.{IsSized, IsRaisedWhere, area_in, store_in, HasLoadedPoint};
ghost use Rattle.page_store.specs.Edit.{AreJoinedBut, IsRaisedTerrain};

use crate::table::{Table, place};
use mesh_defs::Point;
use page_wedges::PageWedges;
use wedgie_tree::Area;

/// By how much the heights of which area are raised, in a terrain of this side with pages of that side.
#[derive(Clone, Copy, Debug)]
pub(crate) struct Raise {
    /// The terrain has 2^large grid steps a side.
    pub(crate) large: u32,
    /// A page has 2^n + 1 heights a side.
    pub(crate) n: u32,
    /// The first column and row of the area, in grid steps.
    pub(crate) low: Point,
    /// The last ones.
    pub(crate) high: Point,
    /// What is added to their heights.
    pub(crate) dz: i32,
}

impl Raise {
    /// Raises the loaded pages, and says whether one of them has a point in the area.
    pub(crate) fn pages(self, pages: &mut Vec<Option<PageWedges>>) -> bool
        requires sized { IsSized (store_in self pages.old.items) }
        requires at_least { least_change ≤ℤ self.dz }
        requires at_most { self.dz ≤ℤ greatest_change }
        ensures raised { IsRaisedWhere (store_in self pages.old.items)
            (store_in self pages.new.items) (area_in self) self.dz
            (λ q t. (q ≤ self.large - self.n)
            × IsNear (store_in self pages.old.items) (area_in self) q t) result }
    {
        let mut found = false;
        for q in 0..self.large - self.n + 1 {
            if self.level(pages, q) {
                found = true;
            }
        }
        found
    }

    /// The same of one resolution.
    fn level(self, pages: &mut Vec<Option<PageWedges>>, q: u32) -> bool
        requires sized { IsSized (store_in self pages.old.items) }
        requires coarse { self.n + q ≤ self.large }
        requires at_least { least_change ≤ℤ self.dz }
        requires at_most { self.dz ≤ℤ greatest_change }
        ensures raised { IsRaisedWhere (store_in self pages.old.items)
            (store_in self pages.new.items) (area_in self) self.dz
            (λ r t. (r ≡ q)
            × IsNear (store_in self pages.old.items) (area_in self) r t) result }
    {
        let cuts = self.large - self.n - q;
        let (first, end) = span(self.n + q, cuts, self.low.y, self.high.y);
        let mut found = false;
        for y in first..end {
            if self.row(pages, q, y) {
                found = true;
            }
        }
        found
    }

    /// The same of one row of squares.
    fn row(self, pages: &mut Vec<Option<PageWedges>>, q: u32, y: u32) -> bool
        requires sized { IsSized (store_in self pages.old.items) }
        requires coarse { self.n + q ≤ self.large }
        requires in_rows { y < 2 ^ (self.large - self.n - q) }
        requires at_least { least_change ≤ℤ self.dz }
        requires at_most { self.dz ≤ℤ greatest_change }
        ensures raised { IsRaisedWhere (store_in self pages.old.items)
            (store_in self pages.new.items) (area_in self) self.dz
            (λ r t. (r ≡ q) × (t.y ≡ y) × (span_from (self.n + q) self.low.x ≤ t.x)
            × (t.x < span_end (self.n + q) (self.large - self.n - q) self.high.x)) result }
    {
        let cuts = self.large - self.n - q;
        let (first, end) = span(self.n + q, cuts, self.low.x, self.high.x);
        let mut found = false;
        for x in first..end {
            if self.square(pages, q, Point { x, y }) {
                found = true;
            }
        }
        found
    }

    /// The same of one square.
    fn square(self, pages: &mut Vec<Option<PageWedges>>, q: u32, square: Point) -> bool
        requires sized { IsSized (store_in self pages.old.items) }
        requires coarse { self.n + q ≤ self.large }
        requires in_square { IsTile (2 ^ (self.large - self.n - q)) (2 ^ (self.large - self.n - q)) square }
        requires at_least { least_change ≤ℤ self.dz }
        requires at_most { self.dz ≤ℤ greatest_change }
        ensures raised { IsRaisedWhere (store_in self pages.old.items)
            (store_in self pages.new.items) (area_in self) self.dz
            (λ r t. (r ≡ q) × (t ≡ square)) result }
    {
        self.slot(pages, place(self.large - self.n - q, square), q, square)
    }

    /// The same of the page at a place of the table, if there is one.
    fn slot(self, pages: &mut Vec<Option<PageWedges>>, at: usize, q: u32, square: Point) -> bool
        requires in_table { at < vec_len pages.old }
        requires side { IfSome (slice_index_or pages.old.items at None) (λ page. page.field.n ≡ self.n) }
        requires some { 1 ≤ self.n }
        requires small { self.n + q ≤ GREATEST_LEVEL }
        requires column { square.x < 2 ^ (GREATEST_LEVEL - self.n - q) }
        requires row { square.y < 2 ^ (GREATEST_LEVEL - self.n - q) }
        requires at_least { least_change ≤ℤ self.dz }
        requires at_most { self.dz ≤ℤ greatest_change }
        ensures value { pages.new.items ≡ slice_set pages.old.items at (slice_index_or pages.new.items at None) }
        ensures loaded { is_some (slice_index_or pages.new.items at None)
            ≡ is_some (slice_index_or pages.old.items at None) }
        ensures raised { IsRaisedAt self.n q square (area_in self) self.dz (slice_index_or pages.old.items at None)
            (slice_index_or pages.new.items at None) }
        ensures found { IsTrue result
            ↔ IsTrue (is_some (slice_index_or pages.old.items at None)) × HasPointIn self.n q square (area_in self) }
        ensures none { result ≡ false → pages.new.items ≡ pages.old.items }
    {
        match pages[at].as_mut() {
            Some(page) => self.page(page, q, square),
            None => false,
        }
    }

    /// The same of a page.
    fn page(self, page: &mut PageWedges, q: u32, square: Point) -> bool
        requires side { page.old.field.n ≡ self.n }
        requires small { self.n + q ≤ GREATEST_LEVEL }
        requires column { square.x < 2 ^ (GREATEST_LEVEL - self.n - q) }
        requires row { square.y < 2 ^ (GREATEST_LEVEL - self.n - q) }
        requires at_least { least_change ≤ℤ self.dz }
        requires at_most { self.dz ≤ℤ greatest_change }
        ensures raised { IsRaisedPage self.n q square (area_in self) self.dz page.old page.new }
        ensures found { IsTrue result ↔ HasPointIn self.n q square (area_in self) }
        ensures none { result ≡ false → page.new ≡ page.old }
    {
        let _before = page.grid();
        let Some(area) = self.part(q, square) else {
            return false;
        };
        page.raise(area, self.dz);
        let _after = page.grid();
        true
    }

    /// The columns and rows of a page's grid that lie in the area, if there are any.
    fn part(self, q: u32, square: Point) -> Option<Area>
        requires small { self.n + q ≤ GREATEST_LEVEL }
        requires column { square.x < 2 ^ (GREATEST_LEVEL - self.n - q) }
        requires row { square.y < 2 ^ (GREATEST_LEVEL - self.n - q) }
        ensures columns { IfSome result (λ a. a.x1 ≤ 2 ^ self.n) }
        ensures rows { IfSome result (λ a. a.y1 ≤ 2 ^ self.n) }
        ensures some { IfSome result (λ a. (r : Point) → IsInSquare (2 ^ self.n) r →
            is_in_area a r.x r.y ≡ is_in_area (area_in self) (page_point self.n q square r).x (page_point self.n q square r).y) }
        ensures found { IsSome result ↔ HasPointIn self.n q square (area_in self) }
    {
        let (x0, x1) = part_of(self.n, q, square.x, self.low.x, self.high.x)?;
        let (y0, y1) = part_of(self.n, q, square.y, self.low.y, self.high.y)?;
        Some(Area::new(x0, y0, x1, y1))
    }
}

/// The columns of a page's grid from one column of the terrain to another, if there are any; rows alike.
fn part_of(n: u32, q: u32, square: u32, low: u32, high: u32) -> Option<(u32, u32)>
    requires small { n + q ≤ GREATEST_LEVEL }
    requires in_square { square < 2 ^ (GREATEST_LEVEL - n - q) }
    ensures order { IfSome result (λ e. e.0 ≤ e.1) }
    ensures within { IfSome result (λ e. e.1 ≤ 2 ^ n) }
    ensures some { IfSome result (λ e. (r : ℕ) → r ≤ 2 ^ n →
        ((low ≤ 2 ^ q * (2 ^ n * square + r)) × (2 ^ q * (2 ^ n * square + r) ≤ high)) ↔ ((e.0 ≤ r) × (r ≤ e.1))) }
    ensures none { IsNone result → (r : ℕ) → r ≤ 2 ^ n → low ≤ 2 ^ q * (2 ^ n * square + r) →
        2 ^ q * (2 ^ n * square + r) ≤ high → ⊥ }
{
    let start = start_of(n, square);
    let first = first_step(q, low);
    let last = last_step(q, high);
    if last < start || last < first || start + (1 << n) < first {
        return None;
    }
    Some((first.saturating_sub(start), (last - start).min(1 << n)))
}

/// The first column of a page's square, in steps of the page.
fn start_of(n: u32, square: u32) -> u32
    requires small { n ≤ GREATEST_LEVEL }
    requires in_square { square < 2 ^ (GREATEST_LEVEL - n) }
    ensures value { result ≡ 2 ^ n * square }
    ensures bounded { result ≤ 2 ^ GREATEST_LEVEL }
{
    square << n
}

/// The first multiple of 2^q that is at least this number.
fn first_step(q: u32, low: u32) -> u32
    requires small { q ≤ GREATEST_LEVEL }
    ensures value { (k : ℕ) → (low ≤ 2 ^ q * k) ↔ (result ≤ k) }
{
    match low {
        0 => 0,
        _ => ((low - 1) >> q) + 1,
    }
}

/// The last one that is at most this number.
fn last_step(q: u32, high: u32) -> u32
    requires small { q ≤ GREATEST_LEVEL }
    ensures value { (k : ℕ) → (2 ^ q * k ≤ high) ↔ (k ≤ result) }
{
    high >> q
}

/// The squares of side 2^m, of 2^cuts, that have a point from one coordinate to another: the first, and that after the
/// last.
pub(crate) fn span(m: u32, cuts: u32, low: u32, high: u32) -> (u32, u32)
    requires small { m + cuts ≤ GREATEST_LEVEL }
    ensures first { result.0 ≡ span_from m low }
    ensures end { result.1 ≡ span_end m cuts high }
{
    (
        low.saturating_sub(1) >> m,
        (high >> m).min((1 << cuts) - 1) + 1,
    )
}

impl Table {
    /// Raises the loaded heights of an area by `dz`, and brings them into 0 to the bound; says whether there are any.
    ///
    /// Then the pages that meet the area have to be joined again.
    pub(crate) fn raise(&mut self, low: Point, high: Point, dz: i32) -> bool
        requires joined { IsStore self.old }
        requires at_least { least_change ≤ℤ dz }
        requires at_most { dz ≤ℤ greatest_change }
        ensures raised { IsRaisedTerrain self.old self.new (area_between low.x low.y high.x high.y) dz }
        ensures found { IsTrue result ↔ HasLoadedPoint self.old (area_between low.x low.y high.x high.y) }
        ensures none { result ≡ false → self.new ≡ self.old }
        ensures joined { AreJoinedBut self.new
            (λ q t. (1 ≤ q) × IsNear self.new (area_between low.x low.y high.x high.y) q t) }
        ensures valid { IsTable self.new }
    {
        let raise = Raise {
            large: self.large,
            n: self.n,
            low,
            high,
            dz,
        };
        raise.pages(&mut self.pages)
    }
}
