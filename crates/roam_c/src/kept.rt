//! What a handle may own.

ghost use Rattle.std.specs.Prelude.{◌≡◌, ◌≢◌, MatchOption};
ghost use Rattle.mesh_defs.specs.HeightField.{HeightField};

use frame_loop::Engine;
use roam_embed::{Fitter, Mosaic};
use std::mem::replace;
use world_embed::{Page, World};

/// What a handle owns.
#[derive(Drop)]
pub enum Kept {
    /// An engine.
    Engine(Engine),
    /// The heights of a grid and a mesh of them.
    Fitter(Fitter),
    /// The bookkeeping of a terrain of tiles.
    Mosaic(Mosaic),
    /// A page of a terrain.
    Page(Page),
    /// A world of pages.
    World(World),
    /// Nothing, while a call makes something else of what was kept.
    Nothing,
}

/// Keeps this from now on.
pub(crate) fn keep(kept: &mut Kept, now: Kept)
    ensures { kept.new ≡ now }
{
    *kept = now;
}

/// Takes the page out, if that is what is kept.
pub(crate) fn take_page(kept: &mut Kept) -> Option<Page>
    ensures { MatchOption result
        (((page : HeightField) → kept.old ≢ Kept.Page page) × (kept.new ≡ kept.old))
        (λ page. kept.old ≡ Kept.Page page) }
{
    match replace(kept, Kept::Nothing) {
        Kept::Page(page) => Some(page),
        other => {
            keep(kept, other);
            None
        }
    }
}
