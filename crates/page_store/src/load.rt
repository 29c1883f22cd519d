//! Loading a page.

ghost use Rattle.std.specs.Prelude.{◌≡◌, ◌+◌, ◌^◌, ◌≤◌, IsTrue, IfSome, IsNone, Some, is_some, false, slice_set};
ghost use Rattle.mesh_defs.specs.declared.point.Point.{Point};
ghost use Rattle.mosaic_laws.specs.Tile.{IsTile};
ghost use Rattle.page_laws.specs.Pages.{AreBeside};
ghost use Rattle.page_store.specs.Store.{top_of, cuts_of, place, page_at, IsTable};
ghost use Rattle.page_store.specs.Load.{CanLoad, IsLoadFault};

use crate::agreement::beside;
use crate::table::{Table, is_square, place};
use mesh_defs::Point;
use page_wedges::PageWedges;
use pgm_grid::Grid;

/// Why a page is not loaded.
#[derive(Clone, Copy, Debug, PartialEq, Eq)]
pub enum LoadFault {
    /// The terrain has no such square of a resolution finer than the coarsest.
    NoSuchPage,
    /// A page of this resolution is loaded there.
    AlreadyLoaded,
    /// The page has not as many points a side as the others.
    WrongSide,
    /// The page has not the bound of heights that the others have.
    WrongBound,
    /// The page of the next coarser resolution is not loaded.
    CoarserMissing,
    /// A page beside that one is not loaded.
    BesideMissing,
    /// The terrain has another height at this point.
    HeightsDiffer {
        /// The point, in grid steps of the terrain.
        at: Point,
    },
}

impl Table {
    /// Why a page with these heights cannot be loaded in a square; none if it can.
    pub(crate) fn load_fault(&self, q: u32, square: Point, grid: &Grid) -> Option<LoadFault>
        ensures some { IfSome result (IsLoadFault self.now q square grid.now) }
        ensures none { IsNone result → CanLoad self.now q square grid.now }
    {
        if q >= self.large - self.n || !is_square(self.large - self.n - q, square) {
            return Some(LoadFault::NoSuchPage);
        }
        if self.page(q, square).is_some() {
            return Some(LoadFault::AlreadyLoaded);
        }
        if grid.n() != self.n {
            return Some(LoadFault::WrongSide);
        }
        if grid.maxval() != self.maxval() {
            return Some(LoadFault::WrongBound);
        }
        let above = Point {
            x: square.x / 2,
            y: square.y / 2,
        };
        if self.page(q + 1, above).is_none() {
            return Some(LoadFault::CoarserMissing);
        }
        if self.lacks_beside(q + 1, above) {
            return Some(LoadFault::BesideMissing);
        }
        match self.differing(q, square, grid) {
            Some(at) => Some(LoadFault::HeightsDiffer { at }),
            None => None,
        }
    }

    /// Whether a square beside this one has no page loaded.
    fn lacks_beside(&self, q: u32, square: Point) -> bool
        requires coarse { self.now.n + q ≤ self.now.large }
        requires in_square { IsTile (2 ^ cuts_of self.now q) (2 ^ cuts_of self.now q) square }
        ensures yes { IsTrue result → (u : Point) × IsTile (2 ^ cuts_of self.now q) (2 ^ cuts_of self.now q) u
            × AreBeside square u × (is_some (page_at self.now q u) ≡ false) }
        ensures no { result ≡ false → (u : Point) → IsTile (2 ^ cuts_of self.now q) (2 ^ cuts_of self.now q) u →
            AreBeside square u → IsTrue (is_some (page_at self.now q u)) }
    {
        let cuts = self.large - self.n - q;
        for side in 0..4 {
            if let Some(other) = beside(square, 1 << cuts, side) {
                if self.page(q, other).is_none() {
                    return true;
                }
            }
        }
        false
    }

    /// Puts a page in its square.
    pub(crate) fn put(&mut self, cuts: u32, square: Point, page: PageWedges)
        requires coarse { cuts ≤ top_of self.old }
        requires in_square { IsTile (2 ^ cuts) (2 ^ cuts) square }
        requires valid { IsTable (record self.old {
          pages = slice_set self.old.pages (place cuts square) (Some page);
        }) }
        ensures value { self.new ≡ record self.old {
          pages = slice_set self.old.pages (place cuts square) (Some page);
        } }
    {
        let _ = &self.large;
        self.pages[place(cuts, square)] = Some(page);
    }
}
