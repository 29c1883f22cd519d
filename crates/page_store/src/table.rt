//! The table of a terrain's pages.

ghost use Rattle.std.specs.Prelude.{◌≡◌, ℕ, ◌+◌, ◌-◌, ◌*◌, ◌/◌, ◌^◌, ◌<◌, ◌≤◌, ◌↔◌, IsTrue, false, IfOk, Some, None};
ghost use Rattle.std.specs.Prelude.{replicate, slice_set};
ghost use Rattle.std.specs.Option.{option_copied};
ghost use Rattle.mesh_defs.specs.declared.level.TheConstants.{GREATEST_LEVEL};
ghost use Rattle.mosaic_laws.specs.Tile.{IsTile};
ghost use Rattle.page_laws.specs.Pages.{is_turned};
ghost use Rattle.page_store.specs.Store.{top_of, cuts_of, place, page_at, maxval_of, IsTable};

use mesh_defs::{NoMemory, Point};
use page_wedges::PageWedges;
use std::alloc::Global;
use std::marker::Model;

/// The pages of a terrain that are loaded, whatever the wedges of their quarters are.
#[derive(Debug, Drop)]
pub(crate) struct Table {
    /// The terrain has 2^large grid steps a side.
    pub(crate) large: u32,
    /// A page has 2^n + 1 heights a side.
    pub(crate) n: u32,
    /// A place for each square of each resolution.
    pub(crate) pages: Vec<Option<PageWedges>>,
}

impl Model for Table {
    ghost use Rattle.page_store.specs.Store.{Store};

    ghost Value = { Store };

    ghost view = { λ s. record { large = s.large; n = s.n; pages = s.pages.items } };

    ghost use Rattle.page_store.specs.Store.{IsTable};

    ghost invariant = { λ s. IsTable (record { large = s.large; n = s.n; pages = s.pages.items }) };
}

impl Table {
    /// The table with the coarsest page alone.
    pub(crate) fn make(alloc: Global, large: u32, root: PageWedges) -> Result<Table, NoMemory>
        requires fits { root.field.n ≤ large }
        requires small { large ≤ GREATEST_LEVEL }
        requires turned { root.turned ≡ false }
        ensures value { IfOk result (λ s. s ≡ record {
          large = large;
          n = root.field.n;
          pages = slice_set (replicate (2 ^ (2 * (large - root.field.n + 1)) / 3) None) 0 (Some root);
        }) }
        ensures valid { IfOk result IsTable }
        ensures some { IfOk result (λ _. 1 ≤ root.field.n) }
    {
        let n = root.grid().n();
        let mut pages = empty_table(alloc, (1usize << (2 * (large - n + 1))) / 3)?;
        pages[0] = Some(root);
        Ok(Table { large, n, pages })
    }

    /// The page of a resolution in a square, if it is loaded; None for what is no square of the terrain.
    pub(crate) fn page(&self, q: u32, square: Point) -> Option<&PageWedges>
        ensures value { option_copied result ≡ page_at self.now q square }
    {
        if q > self.large - self.n {
            return None;
        }
        let cuts = self.large - self.n - q;
        if !is_square(cuts, square) {
            return None;
        }
        self.page_in(cuts, square)
    }

    /// The bound of heights.
    pub(crate) fn maxval(&self) -> u16
        ensures value { result ≡ maxval_of self.now }
    {
        let _ = &self.large;
        let root = self.page_in(0, Point { x: 0, y: 0 }).unwrap();
        root.grid().maxval()
    }

    /// How often the terrain's side is halved down to a page of this resolution.
    pub(crate) fn cuts(&self, q: u32) -> u32
        requires coarse { self.now.n + q ≤ self.now.large }
        ensures value { result ≡ cuts_of self.now q }
    {
        self.large - self.n - q
    }

    /// The page in a square of 2^cuts columns and rows, if it is loaded.
    pub(crate) fn page_in(&self, cuts: u32, square: Point) -> Option<&PageWedges>
        requires coarse { cuts ≤ top_of self.now }
        requires in_square { IsTile (2 ^ cuts) (2 ^ cuts) square }
        ensures value { option_copied result ≡ page_at self.now (top_of self.now - cuts) square }
    {
        let _small = self.large;
        self.pages[place(cuts, square)].as_ref()
    }
}

/// Whether a square is one of 2^cuts columns and rows.
pub(crate) fn is_square(cuts: u32, square: Point) -> bool
    requires few { cuts ≤ 14 }
    ensures value { IsTrue result ↔ IsTile (2 ^ cuts) (2 ^ cuts) square }
{
    square.x < 1 << cuts && square.y < 1 << cuts
}

/// Whether the rising diagonal cuts a square.
pub(crate) fn is_turned(cuts: u32, square: Point) -> bool
    requires column { square.x < 2 ^ 31 }
    requires row { square.y < 2 ^ 31 }
    ensures value { result ≡ is_turned cuts square }
{
    match cuts {
        0 => false,
        _ => (square.x + square.y) % 2 == 0,
    }
}

/// The place in the table of a square in one of 2^cuts columns and rows.
pub(crate) fn place(cuts: u32, square: Point) -> usize
    requires few { cuts ≤ 14 }
    requires in_square { IsTile (2 ^ cuts) (2 ^ cuts) square }
    ensures value { result ≡ place cuts square }
{
    (1usize << (2 * cuts)) / 3 + ((square.y as usize) << cuts) + square.x as usize
}

/// A table of so many places with no page.
fn empty_table(alloc: Global, places: usize) -> Result<Vec<Option<PageWedges>>, NoMemory>
    ensures value { IfOk result (λ pages. pages.items ≡ replicate places None) }
{
    let mut pages = Vec::with_capacity(alloc, places)?;
    for _ in 0..places {
        pages.push(None)?;
    }
    Ok(pages)
}
