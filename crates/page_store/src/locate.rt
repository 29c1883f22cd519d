//! Where a triangle is drawn: in the finest loaded page that it lies in.

ghost use Rattle.std.specs.Prelude.{◌≡◌, ◌*◌, ◌≤◌, ◌↔◌, IfSome, IsSome};
ghost use Rattle.mesh_defs.specs.Triangle.{level_of};
ghost use Rattle.page_laws.specs.Pages.{IsPagePoint};
ghost use Rattle.page_store.specs.Store.{local_point};
ghost use Rattle.page_store.specs.Locate.{IsInReach, local_corners, page_triangle, IsPageTriangle};

use crate::store::PageStore;
use crate::table::Table;
use bintree_addr::Tri;
use mesh_defs::{Corners, Point};

/// A triangle in the finest loaded page that it lies in.
#[derive(Clone, Copy, Debug, PartialEq, Eq)]
pub struct PageTriangle {
    /// The resolution of the page.
    pub q: u32,
    /// The column and the row of its square.
    pub square: Point,
    /// The corners, in steps of the page from the lower left corner of its square.
    pub corners: Corners,
}

impl PageStore {
    /// The finest loaded page of a triangle, and its corners there.
    ///
    /// None where its parent is not known, so that its corners need not be points of that page.
    /// Cost (not proved): a step for each resolution down to that page, and one for each level.
    pub fn locate(&self, tri: Tri) -> Option<PageTriangle>
        requires level { level_of tri ≤ 2 * self.now.large }
        ensures reach { IsSome result ↔ IsInReach self.now tri }
        ensures value { IfSome result (λ r. r ≡ page_triangle self.now tri) }
        ensures placed { IfSome result (IsPageTriangle self.now tri) }
    {
        self.table.locate(tri)
    }
}

impl Table {
    /// The same, whatever the wedges of quarters are.
    fn locate(&self, tri: Tri) -> Option<PageTriangle>
        requires level { level_of tri ≤ 2 * self.now.large }
        ensures reach { IsSome result ↔ IsInReach self.now tri }
        ensures value { IfSome result (λ r. r ≡ page_triangle self.now tri) }
        ensures placed { IfSome result (IsPageTriangle self.now tri) }
    {
        let _address = tri.number();
        let found = self.finest(tri);
        if tri.level() > 2 * (found.cuts + self.n) {
            return None;
        }
        let q = self.large - self.n - found.cuts;
        let square = found.part.square;
        let corners = local_corners(self.n, q, square, tri.corners(self.large));
        Some(PageTriangle { q, square, corners })
    }
}

/// Corners of the terrain, in the grid of a page that has them.
pub(crate) fn local_corners(n: u32, q: u32, square: Point, corners: Corners) -> Corners
    requires side { n ≤ 14 }
    requires resolution { q ≤ 14 }
    requires apex { IsPagePoint n q square corners.apex }
    requires v0 { IsPagePoint n q square corners.v0 }
    requires v1 { IsPagePoint n q square corners.v1 }
    ensures { result ≡ local_corners n q square corners }
{
    Corners {
        apex: local_point(n, q, square, corners.apex),
        v0: local_point(n, q, square, corners.v0),
        v1: local_point(n, q, square, corners.v1),
    }
}

/// A point of the terrain, in the grid of a page that has it.
fn local_point(n: u32, q: u32, square: Point, point: Point) -> Point
    requires side { n ≤ 14 }
    requires resolution { q ≤ 14 }
    requires inside { IsPagePoint n q square point }
    ensures { result ≡ local_point n q square point }
{
    Point {
        x: (point.x >> q) - (square.x << n),
        y: (point.y >> q) - (square.y << n),
    }
}
