//! The pages of a terrain, with the wedges of their triangles over all that is loaded.

ghost use Rattle.std.specs.Prelude.{◌≡◌, ◌≢◌, ℕ, ◌+◌, ◌-◌, ◌*◌, ◌<◌, ◌≤◌, ◌≤ℤ◌, ◌↔◌, IsTrue, false, IfOk, IfErr, OnOk};
ghost use Rattle.std.specs.Prelude.{OnErr, IfSome, IsSome, Some, None};
ghost use Rattle.std.specs.Option.{option_copied};
ghost use Rattle.mesh_defs.specs.declared.level.TheConstants.{GREATEST_LEVEL};
ghost use Rattle.mesh_defs.specs.declared.point.Point.{Point};
ghost use Rattle.mesh_defs.specs.Triangle.{level_of, corners_of};
ghost use Rattle.roam_lanes.specs.Raising.{least_change, greatest_change};
ghost use Rattle.wedgie_tree.specs.Edits.{area_between};
ghost use Rattle.page_laws.specs.Pages.{IsLoadedPoint};
ghost use Rattle.page_laws.specs.Opened.{with_known_mate};
ghost use Rattle.page_laws.specs.Loaded.{known_wedge};
ghost use Rattle.page_wedges.specs.Page.{IsAlone};
ghost use Rattle.page_wedges.specs.declared.join.TheConstants.{THICKEST};
ghost use Rattle.page_store.specs.Store.{page_at, grid_at, maxval_of, pages_of, height_in, known_in, IsStore};
ghost use Rattle.page_store.specs.Edit.{HasLoadedPoint, IsRaisedTerrain};
ghost use Rattle.page_store.specs.Change.{AreOthersSame, AreHeightsSame};
ghost use Rattle.page_store.specs.Load.{CanLoad, IsLoadFault};
ghost use Rattle.page_store.specs.Unload.{IsFree, IsUnloadFault};

use crate::load::LoadFault;
use crate::table::{Table, is_turned};
use crate::unload::UnloadFault;
use bintree_addr::{Corners, Tri};
use mesh_defs::{NoMemory, Point};
use page_laws::KnownWedge;
use page_wedges::PageWedges;
use std::alloc::Global;
use std::marker::Model;

/// The pages of a terrain that are loaded: the coarsest one always, finer ones where coarser pages lie all round.
///
/// A resolution q has heights 2^q grid steps apart; a square is told by its column and its row of that resolution.
#[derive(Debug, Drop)]
pub struct PageStore {
    pub(crate) table: Table,
}

impl Model for PageStore {
    ghost use Rattle.page_store.specs.Store.{Store};

    ghost Value = { Store };

    ghost view = { λ s. s.table };

    ghost use Rattle.page_store.specs.Store.{IsStore};

    ghost invariant = { λ s. IsStore s.table };
}

impl PageStore {
    /// The store of a terrain of which the coarsest page alone is loaded.
    ///
    /// The page is dropped where memory is wanted.
    /// Cost (not proved): a step for each place of the table, which has one for each square of each resolution.
    pub fn make(alloc: Global, large: u32, root: PageWedges) -> Result<PageStore, NoMemory>
        requires fits { root.field.n ≤ large }
        requires small { large ≤ GREATEST_LEVEL }
        requires turned { root.turned ≡ false }
        requires alone { IsAlone root }
        ensures large { IfOk result (λ s. s.large ≡ large) }
        ensures n { IfOk result (λ s. s.n ≡ root.field.n) }
        ensures root { IfOk result (λ s. page_at s (large - root.field.n) (record { x = 0; y = 0 }) ≡ Some root) }
        ensures others { IfOk result (λ s. (q : ℕ) (t : Point) → q ≢ large - root.field.n → page_at s q t ≡ None) }
    {
        Ok(PageStore {
            table: Table::make(alloc, large, root)?,
        })
    }

    /// The exponent of the terrain's side in grid steps.
    pub fn large(&self) -> u32
        ensures value { result ≡ self.now.large }
        ensures valid { IsStore self.now }
    {
        self.table.large
    }

    /// The exponent of a page's side.
    pub fn n(&self) -> u32
        ensures value { result ≡ self.now.n }
        ensures valid { IsStore self.now }
    {
        self.table.n
    }

    /// The page of a resolution in a square, if it is loaded; None for what is no square of the terrain.
    ///
    /// Cost (not proved): a read.
    pub fn page(&self, q: u32, square: Point) -> Option<&PageWedges>
        ensures value { option_copied result ≡ page_at self.now q square }
    {
        self.table.page(q, square)
    }

    /// The thickness, least and greatest height of a triangle over all that is loaded, where it can be split.
    ///
    /// None where it or its mate is not known: such a triangle has priority 0. The caller has its corners.
    /// Cost (not proved): a step for each resolution down to the finest page of the triangle, then that of its wedge;
    /// at the last level of a page, that of the mate too.
    pub fn wedge(&self, tri: Tri, corners: Corners) -> Option<KnownWedge>
        requires level { level_of tri ≤ 2 * self.now.large }
        requires of_tri { corners ≡ corners_of self.now.large tri }
        ensures opened { IsSome result ↔ IsTrue (with_known_mate (known_in self.now) tri) }
        ensures value { IfSome result (λ w. w
            ≡ known_wedge self.now.large (height_in self.now) (known_in self.now) tri) }
        ensures thin { IfSome result (λ w. w.thickness ≤ THICKEST) }
    {
        let found = self.table.finest(tri);
        if !self.table.is_open(tri, found) {
            return None;
        }
        Some(self.table.wedge_in(tri, corners, found))
    }

    /// Loads a page. It comes back with the fault where it is not loaded.
    ///
    /// Cost (not proved): two heights for each of a quarter of the page's points, and for each on its sides; then twelve
    /// heights for each resolution above.
    pub fn load(
        &mut self,
        q: u32,
        square: Point,
        page: PageWedges,
    ) -> Result<(), (LoadFault, PageWedges)>
        requires alone { IsAlone page }
        ensures ok { OnOk result (CanLoad self.old q square page.field) }
        ensures loaded { OnOk result (grid_at self.new q square ≡ Some page.field) }
        ensures others { OnOk result (AreOthersSame self.old self.new q square) }
        ensures heights { OnOk result (AreHeightsSame self.old self.old self.new) }
        ensures fault { IfErr result (λ e. IsLoadFault self.old q square page.field e.0) }
        ensures refused { IfErr result (λ e. e.1 ≡ page) }
        ensures err { OnErr result (self.new ≡ self.old) }
        ensures size { (self.new.large ≡ self.old.large) × (self.new.n ≡ self.old.n) }
    {
        if let Some(fault) = self.table.load_fault(q, square, page.grid()) {
            return Err((fault, page));
        }
        let cuts = self.table.cuts(q);
        let mut page = page;
        page.cut_by(is_turned(cuts, square));
        self.table.put(cuts, square, page);
        self.table.join_above(cuts, square);
        Ok(())
    }

    /// Unloads a page, which comes back without what finer pages had changed.
    ///
    /// Cost (not proved): a few steps, and twelve heights for each resolution above it.
    pub fn unload(&mut self, q: u32, square: Point) -> Result<PageWedges, UnloadFault>
        ensures page { IfOk result (λ page. page_at self.old q square ≡ Some page) }
        ensures alone { IfOk result IsAlone }
        ensures ok { OnOk result ((self.old.n + q < self.old.large) × IsFree self.old q square) }
        ensures gone { OnOk result (grid_at self.new q square ≡ None) }
        ensures others { OnOk result (AreOthersSame self.old self.new q square) }
        ensures heights { OnOk result (AreHeightsSame self.new self.old self.new) }
        ensures fault { IfErr result (IsUnloadFault self.old q square) }
        ensures err { OnErr result (self.new ≡ self.old) }
        ensures size { (self.new.large ≡ self.old.large) × (self.new.n ≡ self.old.n) }
    {
        if let Some(fault) = self.table.unload_fault(q, square) {
            return Err(fault);
        }
        let cuts = self.table.cuts(q);
        let page = self.table.take(cuts, square).unwrap();
        self.table.join_above(cuts, square);
        Ok(page)
    }

    /// The bound of heights.
    pub fn maxval(&self) -> u16
        ensures value { result ≡ maxval_of self.now }
    {
        self.table.maxval()
    }

    /// Makes `h` the height of a point, in each loaded page that has it.
    ///
    /// Says whether one has.
    /// Cost (not proved): as that of `raise` of one point, twice. Takes no memory.
    pub fn set_height(&mut self, p: Point, h: u16) -> bool
        requires bounded { h ≤ maxval_of self.old }
        ensures loaded { IsTrue result ↔ IsLoadedPoint (pages_of self.old) p }
        ensures height { IsTrue result → height_in self.new p ≡ h }
        ensures others { (r : Point) → (r ≡ p → ⊥) → height_in self.new r ≡ height_in self.old r }
        ensures pages { pages_of self.new ≡ pages_of self.old }
        ensures bound { maxval_of self.new ≡ maxval_of self.old }
        ensures none { result ≡ false → self.new ≡ self.old }
    {
        let _before = self.large();
        // To 0, and from there.
        let loaded = self.raise(p.x, p.y, p.x, p.y, -65_535);
        self.raise(p.x, p.y, p.x, p.y, i32::from(h));
        loaded
    }

    /// Raises the loaded heights of an area by `dz`.
    ///
    /// The area has the columns x0 to x1 and the rows y0 to y1. Heights are lowered where `dz` is negative, and brought into
    /// 0 to the bound, in each loaded page that has the point. Says whether there is such a point.
    /// Cost (not proved): that of `PageWedges::raise` in each page that has a point there, and twelve heights for each page
    /// that meets the area; a step for each square of each resolution that does. Takes no memory.
    pub fn raise(&mut self, x0: u32, y0: u32, x1: u32, y1: u32, dz: i32) -> bool
        requires at_least { least_change ≤ℤ dz }
        requires at_most { dz ≤ℤ greatest_change }
        ensures found { IsTrue result ↔ HasLoadedPoint self.old (area_between x0 y0 x1 y1) }
        ensures raised { IsRaisedTerrain self.old self.new (area_between x0 y0 x1 y1) dz }
        ensures none { result ≡ false → self.new ≡ self.old }
    {
        let low = Point { x: x0, y: y0 };
        let high = Point { x: x1, y: y1 };
        if !self.table.raise(low, high, dz) {
            return false;
        }
        self.table.join_area(low, high);
        true
    }
}
