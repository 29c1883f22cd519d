//! Whether a triangle can be split, and its wedge, by the finest page that it lies in.

ghost use Rattle.std.specs.Prelude.{◌≡◌, ◌+◌, ◌-◌, ◌*◌, ◌^◌, ◌%◌, ◌<◌, ◌≤◌, ◌↔◌, IsTrue, IfSome, IsSome, nat_eq, ◌||◌};
ghost use Rattle.mesh_defs.specs.Triangle.{level_of, corners_of};
ghost use Rattle.page_laws.specs.Opened.{with_known_mate};
ghost use Rattle.page_laws.specs.Loaded.{known_wedge};
ghost use Rattle.page_wedges.specs.declared.join.TheConstants.{THICKEST};
ghost use Rattle.page_store.specs.Store.{top_of, height_in, known_in, AreJoined};
ghost use Rattle.page_store.specs.Walk.{IsFound, IsFinest};

use crate::find::Found;
use crate::locate::local_corners;
use crate::table::Table;
use bintree_addr::{Corners, Tri};
use page_laws::KnownWedge;
use page_wedges::terrain_laws;

impl Table {
    /// The wedge of a known triangle with these corners, by the finest page that it lies in.
    pub(crate) fn wedge_in(&self, tri: Tri, corners: Corners, found: Found<'_>) -> KnownWedge
        requires found { IsFound self.now tri found.cuts found.part.quarter found.part.square found.page.now }
        requires finest { IsFinest self.now tri found.cuts }
        requires known { IsTrue (known_in self.now tri) }
        requires of_tri { corners ≡ corners_of self.now.large tri }
        requires joined { AreJoined self.now (top_of self.now - found.cuts) found.part.square found.page.now }
        ensures value { result ≡ known_wedge self.now.large (height_in self.now) (known_in self.now) tri }
        ensures thin { result.thickness ≤ THICKEST }
    {
        let _ = &self.large;
        terrain_laws();
        let number = tri.number();
        let quarter = found.part.quarter;
        match tri.level() - 2 * found.cuts {
            0 => found.page.half(is_upper(quarter)),
            1 => found.page.quarter(quarter),
            below => {
                let q = self.large - self.n - found.cuts;
                let inside = local_corners(self.n, q, found.part.square, corners);
                found.page.own(local(quarter, number, below - 1), inside)
            }
        }
    }

    /// Whether some loaded page has the triangle's centre.
    fn is_known(&self, tri: Tri) -> bool
        ensures value { result ≡ known_in self.now tri }
    {
        let _ = &self.large;
        let _address = tri.number();
        tri.level() < 2 * (self.finest(tri).cuts + self.n)
    }

    /// Whether the triangle and its mate, if it has one, are known, by the finest page of the triangle.
    ///
    /// Only at the last level of the page can the mate be in no page.
    pub(crate) fn is_open(&self, tri: Tri, found: Found<'_>) -> bool
        requires found { IsFound self.now tri found.cuts found.part.quarter found.part.square found.page.now }
        requires finest { IsFinest self.now tri found.cuts }
        requires level { level_of tri ≤ 2 * self.now.large }
        ensures value { result ≡ with_known_mate (known_in self.now) tri }
    {
        let _address = tri.number();
        let level = tri.level();
        let end = 2 * (found.cuts + self.n);
        if level >= end {
            return false;
        }
        if level + 1 < end {
            return true;
        }
        match tri.mate(self.large) {
            Some(mate) => self.is_known(mate),
            None => true,
        }
    }
}

/// Whether the half that has this quarter as its left child is the one with the upper quarter.
pub(crate) fn is_upper(quarter: u32) -> bool
    ensures value { result ≡ (nat_eq quarter 1 || nat_eq quarter 2) }
{
    quarter == 1 || quarter == 2
}

/// The triangle of a page's grid that lies so many levels below a quarter, by the last bits of its address.
fn local(quarter: u32, number: u32, below: u32) -> Tri
    requires in_square { quarter < 4 }
    requires few { below ≤ 27 }
    ensures value { result ≡ 2 ^ below * (4 + quarter) + number % 2 ^ below }
    ensures level { level_of result ≡ below + 1 }
{
    let last = number % (1 << below);
    Tri::at(((4 + quarter) << below) + last).unwrap()
}
