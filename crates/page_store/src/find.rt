//! The finest loaded page that has a triangle.

ghost use Rattle.std.specs.Prelude.{◌≡◌, ◌+◌, ◌-◌, ◌*◌, ◌^◌, ◌<◌, ◌≤◌, IfSome, IsNone, Some, None};
ghost use Rattle.std.specs.Option.{option_copied};
ghost use Rattle.mosaic_laws.specs.Tile.{IsTile};
ghost use Rattle.page_store.specs.Store.{top_of, place, page_at};
ghost use Rattle.page_store.specs.Walk.{IsFound, IsFinest};

use crate::part::Part;
use crate::table::Table;
use bintree_addr::Tri;
use mesh_defs::Point;
use page_wedges::PageWedges;

/// A loaded page that a triangle lies in, and the quarter there; its square is one of 2^cuts columns and rows.
#[derive(Clone, Copy, Debug)]
pub(crate) struct Found<'a> {
    pub(crate) cuts: u32,
    pub(crate) part: Part,
    pub(crate) page: &'a PageWedges,
}

impl Table {
    /// The coarsest page, which each triangle lies in.
    fn coarsest(&self, tri: Tri) -> Found<'_>
        ensures found { IsFound self.now tri result.cuts result.part.quarter result.part.square result.page.now }
    {
        let _ = &self.large;
        let square = Point { x: 0, y: 0 };
        let quarter = (2 * tri.number() >> tri.level()) % 4;
        Found {
            cuts: 0,
            part: Part { square, quarter },
            page: self.page_in(0, square).unwrap(),
        }
    }

    /// The page of the next resolution that a triangle lies in, if it is loaded.
    fn finer(&self, tri: Tri, found: Found<'_>) -> Option<Found<'_>>
        requires found { IsFound self.now tri found.cuts found.part.quarter found.part.square
            found.page.now }
        ensures some { IfSome result (λ f. IsFound self.now tri f.cuts f.part.quarter f.part.square f.page.now) }
        ensures next { IfSome result (λ f. f.cuts ≡ found.entry.cuts + 1) }
        ensures none { IsNone result → IsFinest self.now tri found.entry.cuts }
    {
        let level = tri.level();
        let cuts = found.cuts + 1;
        if cuts > self.large - self.n || 2 * cuts > level {
            return None;
        }
        let bits = (2 * tri.number() >> (level - 2 * cuts)) % 4;
        let part = found.part.below(bits);
        let page = self.page_in(cuts, part.square)?;
        Some(Found { cuts, part, page })
    }

    /// The finest loaded page that a triangle lies in.
    pub(crate) fn finest(&self, tri: Tri) -> Found<'_>
        ensures found { IsFound self.now tri result.cuts result.part.quarter result.part.square result.page.now }
        ensures finest { IsFinest self.now tri result.cuts }
    {
        let mut found = self.coarsest(tri);
        while let Some(finer) = self.finer(tri, found) {
            found = finer;
        }
        found
    }
}
