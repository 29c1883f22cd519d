//! Heights that change.

ghost use Rattle.std.specs.Prelude.{◌≡◌, ◌≤◌, ◌≤ℤ◌, ◌↔◌, IsTrue, false};
ghost use Rattle.roam_lanes.specs.Raising.{least_change, greatest_change};
ghost use Rattle.mesh_defs.specs.declared.point.Point.{Point};
ghost use Rattle.mesh_defs.specs.Triangle.{corners_of};
ghost use Rattle.bintree_laws.specs.Areas.{overlaps};
ghost use Rattle.wedgie_tree.specs.Edits.{area_between};
ghost use Rattle.page_laws.specs.Pages.{IsLoadedPoint};
ghost use Rattle.page_store.specs.Store.{pages_of, maxval_of, height_in};
ghost use Rattle.page_store.specs.Edit.{HasLoadedPoint, IsRaisedTerrain};
ghost use Rattle.view_mesh.specs.Expiry.{IsExpired};

use crate::laws::change_laws;
use crate::world::World;
use mesh_defs::Point;
use view_mesh::expire_area;
use wedgie_tree::Area;

impl World {
    /// Makes `h` the height of a point. Says whether a loaded page has it; else nothing changes.
    ///
    /// The stamps of the triangles whose bounding rectangle has the point expire.
    /// A page that is loaded later has to agree: change its heights before.
    /// Cost (not proved): that of `PageStore::set_height`, and a step for each triangle of the mesh whose rectangle has the
    /// point and for each child of one.
    pub fn set_height(&mut self, p: Point, h: u16) -> bool
        requires bounded { h ≤ maxval_of self.old.store }
        ensures loaded { IsTrue result ↔ IsLoadedPoint (pages_of self.old.store) p }
        ensures height { IsTrue result → height_in self.new.store p ≡ h }
        ensures others { (r : Point) → (r ≡ p → ⊥) → height_in self.new.store r ≡ height_in self.old.store r }
        ensures pages { pages_of self.new.store ≡ pages_of self.old.store }
        ensures bound { maxval_of self.new.store ≡ maxval_of self.old.store }
        ensures rest { self.new ≡ record self.old { store = self.new.store; mesh = self.new.mesh } }
        ensures mesh { IsTrue result → IsExpired self.old.mesh self.new.mesh
            (λ a. overlaps (corners_of self.old.store.large a) (area_between p.x p.y p.x p.y)) }
        ensures none { result ≡ false → self.new ≡ self.old }
    {
        change_laws();
        let _before = self.store.large();
        let _only = self.mesh.pool();
        if !self.store.set_height(p, h) {
            return false;
        }
        self.still = None;
        expire_area(&mut self.mesh, Area::new(p.x, p.y, p.x, p.y));
        true
    }

    /// Raises the loaded heights of an area by `dz`. Says whether there is a loaded point there; else nothing changes.
    ///
    /// The area has the columns x0 to x1 and the rows y0 to y1. The stamps of the triangles whose bounding rectangle meets
    /// it expire.
    /// A page that is loaded later has to agree, as after `set_height`.
    /// Cost (not proved): that of `PageStore::raise`, and a step for each triangle of the mesh that meets the area and for
    /// each child of one.
    pub fn raise(&mut self, x0: u32, y0: u32, x1: u32, y1: u32, dz: i32) -> bool
        requires columns { x0 ≤ x1 }
        requires rows { y0 ≤ y1 }
        requires at_least { least_change ≤ℤ dz }
        requires at_most { dz ≤ℤ greatest_change }
        ensures found { IsTrue result ↔ HasLoadedPoint self.old.store (area_between x0 y0 x1 y1) }
        ensures raised { IsRaisedTerrain self.old.store self.new.store (area_between x0 y0 x1 y1) dz }
        ensures rest { self.new ≡ record self.old { store = self.new.store; mesh = self.new.mesh } }
        ensures mesh { IsTrue result → IsExpired self.old.mesh self.new.mesh
            (λ a. overlaps (corners_of self.old.store.large a) (area_between x0 y0 x1 y1)) }
        ensures none { result ≡ false → self.new ≡ self.old }
    {
        change_laws();
        let _before = self.store.large();
        let _only = self.mesh.pool();
        if !self.store.raise(x0, y0, x1, y1, dz) {
            return false;
        }
        self.still = None;
        expire_area(&mut self.mesh, Area::new(x0, y0, x1, y1));
        true
    }
}
