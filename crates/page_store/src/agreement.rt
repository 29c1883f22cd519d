//! Whether a page has the heights that the loaded pages have at common points.

ghost use Rattle.std.specs.Prelude.{◌≡◌, ℕ, ◌+◌, ◌-◌, ◌*◌, ◌%◌, ◌^◌, ◌<◌, ◌≤◌, ◌↔◌, IfSome, IsNone, IsSome, IsTrue};
ghost use Rattle.std.specs.Prelude.{None, length, slice_index};
ghost use Rattle.mesh_defs.specs.declared.level.TheConstants.{GREATEST_LEVEL};
ghost use Rattle.mesh_defs.specs.declared.point.Point.{Point};
ghost use Rattle.mesh_defs.specs.HeightField.{height_at};
ghost use Rattle.mesh_defs.specs.Thickness.{height_of};
ghost use Rattle.bintree_laws.specs.Corners.{IsInSquare};
ghost use Rattle.mosaic_laws.specs.Tile.{IsTile};
ghost use Rattle.page_laws.specs.Pages.{page_point, square_above};
ghost use Rattle.page_store.specs.Store.{top_of, cuts_of, page_at};
ghost use Rattle.page_store.specs.Agreement.{IsBesideAt, on_side, twice, moved_by, IsAgreedInside, IsAgreedAt};
ghost use Rattle.page_store.specs.Agreement.{IsAgreed, IsDifferingAt, IsDiffering};

use crate::table::Table;
use mesh_defs::Point;
use pgm_grid::Grid;

/// The heights of a row of grid points: from this point to that in column `end`, which is left out.
fn row_of(grid: &Grid, from: Point, end: u32) -> &[u16]
    requires row { from.y ≤ 2 ^ grid.now.n }
    requires ordered { from.x ≤ end }
    requires columns { end ≤ 2 ^ grid.now.n + 1 }
    ensures count { length result.now ≡ end - from.x }
    ensures heights { (k : ℕ) → k < length result.now →
        slice_index result.now k ≡ height_at grid.now.n grid.now.heights (from.x + k) from.y }
{
    let side = grid.side();
    let start = (side - 1 - from.y as usize) * side;
    &grid.heights()[start + from.x as usize..start + end as usize]
}

/// Whether a row has at its even places what the coarser row has at all.
///
/// It goes on where they differ, so that several heights are compared at a time.
fn is_row_same(row: &[u16], coarser: &[u16]) -> bool
    requires long { 2 * length coarser.now ≤ length row.now + 1 }
    ensures { IsTrue result ↔ ((k : ℕ) → k < length coarser.now →
        slice_index row.now (2 * k) ≡ slice_index coarser.now k) }
{
    let mut is_same = true;
    for k in 0..coarser.len() {
        is_same &= row[2 * k] == coarser[k];
    }
    is_same
}

/// Where in a row of a page's points, of two steps each, the coarser page has another height, in double steps.
///
/// The page's corner lies at `corner` of the coarser page.
fn differing_in_row(page: &Grid, coarser: &Grid, corner: Point, row: u32) -> Option<u32>
    requires side { coarser.now.n ≡ page.now.n }
    requires columns { corner.x + 2 ^ (page.now.n - 1) ≤ 2 ^ page.now.n }
    requires rows { corner.y + 2 ^ (page.now.n - 1) ≤ 2 ^ page.now.n }
    requires row { row ≤ 2 ^ (page.now.n - 1) }
    ensures none { IsNone result → (k : ℕ) → k ≤ 2 ^ (page.now.n - 1) →
        height_of page.now.n page.now.heights (twice (record { x = k; y = row }))
        ≡ height_of page.now.n coarser.now.heights (moved_by corner (record { x = k; y = row })) }
    ensures some { IfSome result (λ k. (k ≤ 2 ^ (page.now.n - 1))
        × (height_of page.now.n page.now.heights (twice (record { x = k; y = row }))
        ≡ height_of page.now.n coarser.now.heights (moved_by corner (record { x = k; y = row })) → ⊥)) }
{
    let half = 1u32 << (page.n() - 1);
    let here = row_of(page, Point { x: 0, y: 2 * row }, 2 * half + 1);
    let Point { x, y } = corner;
    let there = row_of(coarser, Point { x, y: y + row }, x + half + 1);
    if is_row_same(here, there) {
        return None;
    }
    for k in 0..half + 1 {
        if page.height(2 * k, 2 * row) != coarser.height(corner.x + k, corner.y + row) {
            return Some(k);
        }
    }
    None
}

/// A point of a page, of two steps each, at which the coarser page has another height, in double steps.
///
/// The page's corner lies at `corner` of the coarser page.
fn differing_in_rows(page: &Grid, coarser: &Grid, corner: Point) -> Option<Point>
    requires side { coarser.now.n ≡ page.now.n }
    requires columns { corner.x + 2 ^ (page.now.n - 1) ≤ 2 ^ page.now.n }
    requires rows { corner.y + 2 ^ (page.now.n - 1) ≤ 2 ^ page.now.n }
    ensures none { IsNone result → (c : Point) → IsInSquare (2 ^ (page.now.n - 1)) c →
        height_of page.now.n page.now.heights (twice c)
        ≡ height_of page.now.n coarser.now.heights (moved_by corner c) }
    ensures some { IfSome result (λ c. IsInSquare (2 ^ (page.now.n - 1)) c
        × (height_of page.now.n page.now.heights (twice c)
        ≡ height_of page.now.n coarser.now.heights (moved_by corner c) → ⊥)) }
{
    let half = 1u32 << (page.n() - 1);
    for row in 0..half + 1 {
        if let Some(column) = differing_in_row(page, coarser, corner, row) {
            return Some(Point { x: column, y: row });
        }
    }
    None
}

/// A point of a side of a square, by its number there; the sides are numbered as the quarters.
fn on_side(length: u32, side: u32, k: u32) -> Point
    ensures value { result ≡ on_side length side k }
{
    match side {
        0 => Point { x: k, y: 0 },
        1 => Point { x: 0, y: k },
        2 => Point { x: k, y: length },
        _ => Point { x: length, y: k },
    }
}

/// Where on a side of a page the page beside it has another height.
fn differing_on_side(page: &Grid, beside: &Grid, side: u32) -> Option<u32>
    requires same { beside.now.n ≡ page.now.n }
    requires side { side < 4 }
    ensures none { IsNone result → (k : ℕ) → k ≤ 2 ^ page.now.n →
        height_of page.now.n page.now.heights (on_side (2 ^ page.now.n) side k)
        ≡ height_of page.now.n beside.now.heights (on_side (2 ^ page.now.n) ((side + 2) % 4) k) }
    ensures some { IfSome result (λ k. (k ≤ 2 ^ page.now.n)
        × (height_of page.now.n page.now.heights (on_side (2 ^ page.now.n) side k)
        ≡ height_of page.now.n beside.now.heights (on_side (2 ^ page.now.n) ((side + 2) % 4) k) → ⊥)) }
{
    let length = 1u32 << page.n();
    for k in 0..length + 1 {
        let here = on_side(length, side, k);
        let there = on_side(length, (side + 2) % 4, k);
        if page.height(here.x, here.y) != beside.height(there.x, there.y) {
            return Some(k);
        }
    }
    None
}

/// The square beside one of so many columns and rows, at this side, if there is one.
pub(crate) fn beside(square: Point, squares: u32, side: u32) -> Option<Point>
    requires side { side < 4 }
    requires in_square { IsTile squares squares square }
    ensures some { IfSome result (λ u. IsTile squares squares u × IsBesideAt side square u) }
    ensures none { IsNone result → (u : Point) →
        IsTile squares squares u → IsBesideAt side square u → ⊥ }
{
    let Point { x, y } = square;
    match side {
        0 if y > 0 => Some(Point { x, y: y - 1 }),
        1 if x > 0 => Some(Point { x: x - 1, y }),
        2 if y + 1 < squares => Some(Point { x, y: y + 1 }),
        3 if x + 1 < squares => Some(Point { x: x + 1, y }),
        _ => None,
    }
}

/// A point of a page's grid in grid steps of the terrain.
fn on_terrain(n: u32, q: u32, square: Point, point: Point) -> Point
    requires small { n + q ≤ GREATEST_LEVEL }
    requires column { 2 ^ n * square.x + point.x ≤ 2 ^ (GREATEST_LEVEL - q) }
    requires row { 2 ^ n * square.y + point.y ≤ 2 ^ (GREATEST_LEVEL - q) }
    ensures value { result ≡ page_point n q square point }
{
    Point {
        x: ((square.x << n) + point.x) << q,
        y: ((square.y << n) + point.y) << q,
    }
}

impl Table {
    /// A point of a page's grid, of two steps each, at which the coarser page has another height, if there is one.
    fn differing_inside(&self, q: u32, square: Point, grid: &Grid) -> Option<Point>
        requires finer { q < top_of self.now }
        requires in_square { IsTile (2 ^ cuts_of self.now q) (2 ^ cuts_of self.now q) square }
        requires side { grid.now.n ≡ self.now.n }
        requires coarser { IsSome (page_at self.now (q + 1) (square_above square)) }
        ensures none { IsNone result → IsAgreedInside self.now q square grid.now.heights }
        ensures some { IfSome result (IsDifferingAt self.now q square grid.now.heights) }
    {
        let cuts = self.large - self.n - q - 1;
        let above = Point {
            x: square.x / 2,
            y: square.y / 2,
        };
        let coarser = self.page_in(cuts, above).unwrap();
        let half = 1u32 << (self.n - 1);
        let corner = Point {
            x: square.x % 2 * half,
            y: square.y % 2 * half,
        };
        let found = differing_in_rows(grid, coarser.grid(), corner)?;
        Some(Point {
            x: 2 * found.x,
            y: 2 * found.y,
        })
    }

    /// A point of this side of a page's grid at which the page beside it has another height, if there is one.
    fn differing_beside(&self, q: u32, square: Point, grid: &Grid, side: u32) -> Option<Point>
        requires coarse { q ≤ top_of self.now }
        requires in_square { IsTile (2 ^ cuts_of self.now q) (2 ^ cuts_of self.now q) square }
        requires same { grid.now.n ≡ self.now.n }
        requires side { side < 4 }
        ensures none { IsNone result → IsAgreedAt self.now q square grid.now.heights side }
        ensures some { IfSome result (IsDifferingAt self.now q square grid.now.heights) }
    {
        let cuts = self.large - self.n - q;
        let other = beside(square, 1 << cuts, side)?;
        let page = self.page_in(cuts, other)?;
        let k = differing_on_side(grid, page.grid(), side)?;
        Some(on_side(1 << self.n, side, k))
    }

    /// A point of a page's grid at which the loaded pages have another height, if there is one.
    fn differing_on_grid(&self, q: u32, square: Point, grid: &Grid) -> Option<Point>
        requires finer { q < top_of self.now }
        requires in_square { IsTile (2 ^ cuts_of self.now q) (2 ^ cuts_of self.now q) square }
        requires missing { page_at self.now q square ≡ None }
        requires side { grid.now.n ≡ self.now.n }
        requires coarser { IsSome (page_at self.now (q + 1) (square_above square)) }
        ensures none { IsNone result → IsAgreed self.now q square grid.now.heights }
        ensures some { IfSome result (IsDifferingAt self.now q square grid.now.heights) }
    {
        let _ = &self.large;
        if let Some(point) = self.differing_inside(q, square, grid) {
            return Some(point);
        }
        for side in 0..4 {
            if let Some(point) = self.differing_beside(q, square, grid, side) {
                return Some(point);
            }
        }
        None
    }

    /// A point of the terrain, in grid steps, at which a page of this grid would have another height than the loaded
    /// pages have, if there is one.
    ///
    /// Only points that the coarser page or a page beside has can be loaded, so no others are looked at.
    /// Cost (not proved): reads two heights for each of a quarter of the page's points, and of those on its sides.
    pub(crate) fn differing(&self, q: u32, square: Point, grid: &Grid) -> Option<Point>
        requires finer { q < top_of self.now }
        requires in_square { IsTile (2 ^ cuts_of self.now q) (2 ^ cuts_of self.now q) square }
        requires missing { page_at self.now q square ≡ None }
        requires side { grid.now.n ≡ self.now.n }
        requires coarser { IsSome (page_at self.now (q + 1) (square_above square)) }
        ensures none { IsNone result ↔ IsAgreed self.now q square grid.now.heights }
        ensures some { IfSome result (IsDiffering self.now q square grid.now.heights) }
    {
        let point = self.differing_on_grid(q, square, grid)?;
        Some(on_terrain(self.n, q, square, point))
    }
}
