//! Pages that come and go.

ghost use Rattle.std.specs.Prelude.{◌≡◌, ◌+◌, ◌<◌, ◌≤◌, ◌^◌, OnOk, OnErr, IfOk, IfErr, Some, None};
ghost use Rattle.mesh_defs.specs.Triangle.{corners_of};
ghost use Rattle.bintree_laws.specs.Areas.{overlaps};
ghost use Rattle.mosaic_laws.specs.Tile.{IsTile};
ghost use Rattle.page_laws.specs.Pages.{page_area};
ghost use Rattle.page_wedges.specs.Page.{IsAlone};
ghost use Rattle.page_store.specs.Store.{page_at, grid_at, pages_of, cuts_of};
ghost use Rattle.page_store.specs.Change.{AreOthersSame, AreHeightsSame};
ghost use Rattle.page_store.specs.Load.{CanLoad, IsLoadFault};
ghost use Rattle.page_store.specs.Unload.{IsFree, IsUnloadFault};
ghost use Rattle.view_mesh.specs.Expiry.{IsExpired};

use crate::laws::change_laws;
use crate::world::World;
use mesh_defs::Point;
use page_store::{LoadFault, PageStore, PageWedges, UnloadFault};
use view_mesh::expire_area;
use wedgie_tree::Area;

impl World {
    /// Loads a page into its square, and expires the stamps of the triangles whose bounding rectangle meets the square.
    ///
    /// A page that cannot be loaded comes back, with the first cause. Build it ahead of time, on any thread.
    /// Cost (not proved): that of `PageStore::load`, and a step for each triangle of the mesh that meets the square and
    /// for each child of one.
    pub fn load(
        &mut self,
        q: u32,
        square: Point,
        page: PageWedges,
    ) -> Result<(), (LoadFault, PageWedges)>
        requires alone { IsAlone page }
        ensures ok { OnOk result (CanLoad self.old.store q square page.field) }
        ensures loaded { OnOk result (grid_at self.new.store q square ≡ Some page.field) }
        ensures others { OnOk result (AreOthersSame self.old.store self.new.store q square) }
        ensures heights { OnOk result (AreHeightsSame self.old.store self.old.store self.new.store) }
        ensures rest { self.new ≡ record self.old { store = self.new.store; mesh = self.new.mesh } }
        ensures mesh { OnOk result (IsExpired self.old.mesh self.new.mesh
            (λ a. overlaps (corners_of self.old.store.large a) (page_area (pages_of self.old.store) q square))) }
        ensures fault { IfErr result (λ e. IsLoadFault self.old.store q square page.field e.0) }
        ensures refused { IfErr result (λ e. e.1 ≡ page) }
        ensures err { OnErr result (self.new ≡ self.old) }
    {
        change_laws();
        let _before = self.store.large();
        let _only = self.mesh.pool();
        match self.store.load(q, square, page) {
            Ok(()) => {
                self.still = None;
                expire_area(&mut self.mesh, area_of(&self.store, q, square));
                Ok(())
            }
            Err(refusal) => Err(refusal),
        }
    }

    /// Unloads the page of a square, which comes back, and expires the stamps of the triangles whose bounding rectangle
    /// meets the square.
    ///
    /// The coarsest page stays, and one that a finer page needs. Drop the page on another thread: that takes its time.
    /// Cost (not proved): that of `load`.
    pub fn unload(&mut self, q: u32, square: Point) -> Result<PageWedges, UnloadFault>
        ensures page { IfOk result (λ page. page_at self.old.store q square ≡ Some page) }
        ensures alone { IfOk result IsAlone }
        ensures ok { OnOk result ((self.old.store.n + q < self.old.store.large) × IsFree self.old.store q square) }
        ensures gone { OnOk result (grid_at self.new.store q square ≡ None) }
        ensures others { OnOk result (AreOthersSame self.old.store self.new.store q square) }
        ensures heights { OnOk result (AreHeightsSame self.new.store self.old.store self.new.store) }
        ensures rest { self.new ≡ record self.old { store = self.new.store; mesh = self.new.mesh } }
        ensures mesh { OnOk result (IsExpired self.old.mesh self.new.mesh
            (λ a. overlaps (corners_of self.old.store.large a) (page_area (pages_of self.old.store) q square))) }
        ensures fault { IfErr result (IsUnloadFault self.old.store q square) }
        ensures err { OnErr result (self.new ≡ self.old) }
    {
        change_laws();
        let _only = self.mesh.pool();
        match self.store.unload(q, square) {
            Ok(page) => {
                let _after = self.store.large();
                self.still = None;
                expire_area(&mut self.mesh, area_of(&self.store, q, square));
                Ok(page)
            }
            Err(fault) => Err(fault),
        }
    }
}

/// The square of a page, in grid steps.
fn area_of(store: &PageStore, q: u32, square: Point) -> Area
    requires coarse { store.now.n + q ≤ store.now.large }
    requires in_square { IsTile (2 ^ cuts_of store.now q) (2 ^ cuts_of store.now q) square }
    ensures { result ≡ page_area (pages_of store.now) q square }
{
    let _large = store.large();
    let side = 1 << (store.n() + q);
    Area::new(
        side * square.x,
        side * square.y,
        side * (square.x + 1),
        side * (square.y + 1),
    )
}
