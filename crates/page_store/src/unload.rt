//! Unloading a page.

ghost use Rattle.std.specs.Prelude.{◌≡◌, ℕ, ◌+◌, ◌-◌, ◌*◌, ◌^◌, ◌<◌, ◌≤◌, IsTrue, IfSome, IsNone, None, is_some};
ghost use Rattle.std.specs.Prelude.{false, slice_set};
ghost use Rattle.mesh_defs.specs.declared.point.Point.{Point};
ghost use Rattle.mosaic_laws.specs.Tile.{IsTile};
ghost use Rattle.page_laws.specs.Pages.{square_above};
ghost use Rattle.page_store.specs.Store.{top_of, place, page_at, IsTable};
ghost use Rattle.page_store.specs.Unload.{IsFree, IsNeeded, IsUnloadFault};

use crate::agreement::beside;
use crate::table::{Table, place};
use mesh_defs::Point;
use page_wedges::PageWedges;

/// Why a page is not unloaded.
#[derive(Clone, Copy, Debug, PartialEq, Eq)]
pub enum UnloadFault {
    /// No page of this resolution is loaded there.
    NotLoaded,
    /// The coarsest page stays.
    IsCoarsest,
    /// A finer page lies in its square, or in one beside it.
    IsNeededByFiner,
}

impl Table {
    /// Why a page cannot be unloaded; none if it can.
    pub(crate) fn unload_fault(&self, q: u32, square: Point) -> Option<UnloadFault>
        ensures some { IfSome result (IsUnloadFault self.now q square) }
        ensures loaded { IsNone result → IsTrue (is_some (page_at self.now q square)) }
        ensures fine { IsNone result → self.now.n + q < self.now.large }
        ensures free { IsNone result → IsFree self.now q square }
    {
        if self.page(q, square).is_none() {
            return Some(UnloadFault::NotLoaded);
        }
        if q >= self.large - self.n {
            return Some(UnloadFault::IsCoarsest);
        }
        if q > 0 && self.is_needed(q, square) {
            return Some(UnloadFault::IsNeededByFiner);
        }
        None
    }

    /// Whether a page of the resolution before lies in a square, or in one beside it.
    fn is_needed(&self, q: u32, square: Point) -> bool
        requires finer { 1 ≤ q }
        requires loaded { IsTrue (is_some (page_at self.now q square)) }
        ensures yes { IsTrue result → IsNeeded self.now q square }
        ensures no { result ≡ false → IsFree self.now q square }
    {
        let cuts = self.large - self.n - q;
        if self.has_finer(q, square) {
            return true;
        }
        for side in 0..4 {
            if let Some(other) = beside(square, 1 << cuts, side) {
                if self.has_finer(q, other) {
                    return true;
                }
            }
        }
        false
    }

    /// Whether a page of the resolution before lies in a square.
    fn has_finer(&self, q: u32, square: Point) -> bool
        requires finer { 1 ≤ q }
        requires column { square.x < 2 ^ 30 }
        requires row { square.y < 2 ^ 30 }
        ensures yes { IsTrue result → (u : Point) × IsTrue (is_some (page_at self.now (q - 1) u))
            × (square_above u ≡ square) }
        ensures no { result ≡ false → (u : Point) → square_above u ≡ square →
            is_some (page_at self.now (q - 1) u) ≡ false }
    {
        for k in 0..4 {
            let finer = Point {
                x: 2 * square.x + k % 2,
                y: 2 * square.y + k / 2,
            };
            if self.page(q - 1, finer).is_some() {
                return true;
            }
        }
        false
    }

    /// Takes a page out of its square.
    pub(crate) fn take(&mut self, cuts: u32, square: Point) -> Option<PageWedges>
        requires coarse { cuts ≤ top_of self.old }
        requires in_square { IsTile (2 ^ cuts) (2 ^ cuts) square }
        requires valid { IsTable (record self.old { pages = slice_set self.old.pages (place cuts square) None }) }
        ensures value { self.new ≡ record self.old { pages = slice_set self.old.pages (place cuts square) None } }
        ensures taken { result ≡ page_at self.old (top_of self.old - cuts) square }
    {
        let _ = &self.large;
        self.pages[place(cuts, square)].take()
    }
}
