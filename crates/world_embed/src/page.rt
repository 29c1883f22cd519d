//! Pages of a terrain, made ahead of their use.

ghost use Rattle.std.specs.Prelude.{◌≡◌, ◌≢◌, length, IfOk, IfErr};
ghost use Rattle.page_wedges.specs.Page.{IsAlone};
ghost use Rattle.roam_embed.specs.Grid.{IsGridAnswer, IsGridOf, IsPointCount};

use mesh_defs::NoMemory;
use page_wedges::PageWedges;
use pgm_grid::Grid;
use roam_embed::{Answer, level_of_count};
use std::alloc::Global;
use std::marker::Model;

/// The heights of a page with the wedges of its triangles. It is in no terrain; a world takes it in and gives it back.
#[derive(Drop)]
pub struct Page {
    pub(crate) wedges: PageWedges,
}

impl Model for Page {
    ghost use Rattle.mesh_defs.specs.HeightField.{HeightField};
    ghost use Rattle.page_wedges.specs.Page.{IsAlone};

    ghost Value = { HeightField };

    ghost view = { λ p. p.wedges.field };

    ghost invariant = { λ p. IsAlone p.wedges };
}

/// A page of these heights, in file order: rows from the top, each from left to right. They are copied.
///
/// Cost (not proved): that of `PageWedges::build`.
pub fn make_page(alloc: Global, heights: &[u16]) -> Result<Page, Answer>
    ensures made { IfOk result (IsGridOf heights.now) }
    ensures fits { IfOk result (λ page. IsGridAnswer heights.now Answer.Done) }
    ensures refused { IfErr result (λ answer. IsGridAnswer heights.now answer) }
    ensures cause { IfErr result (λ answer. answer ≢ Answer.Done) }
{
    let n = match level_of_count(heights.len()) {
        Some(n) => n,
        None => return Err(Answer::BadGrid),
    };
    match wedges_of(alloc, n, heights) {
        Ok(wedges) => Ok(Page { wedges }),
        Err(_) => Err(Answer::NoMemory),
    }
}

/// The wedges of a page of these heights, in a square that the falling diagonal cuts.
fn wedges_of(alloc: Global, n: u32, heights: &[u16]) -> Result<PageWedges, NoMemory>
    requires count { IsPointCount (length heights.now) n }
    ensures field { IfOk result (λ w. w.field ≡ record { n = n; maxval = 65535; heights = heights.now }) }
    ensures alone { IfOk result IsAlone }
{
    let grid = Grid::from_heights(n, u16::MAX, heights.to_vec(alloc)?);
    PageWedges::build(alloc, grid, false)
}
