//! The bookkeeping of a terrain of tiles.

ghost use Rattle.std.specs.Prelude.{◌≡◌, ⊤, None, Some, pos};
ghost use Rattle.mosaic_rounds.specs.Rounds.{RoundsState};
ghost use Rattle.roam_embed.specs.Mosaics.{IsMosaicAnswer, IsMosaicOpened, IsNextTold, AreRequiredTold, IsBorderKept};
ghost use Rattle.roam_c.specs.declared.kept.Kept.{Kept};
ghost use Rattle.roam_c.specs.Handle.{IsNumberOfSome, OnKept, OnOther};

use crate::handle::{Handle, close, fill, on};
use roam_embed::{Required, Tile, next_tile, open_mosaic, put_tile, tell_required};
use std::alloc::Global;

/// Makes a mosaic of so many columns and rows of tiles of so many points a side, and lets go of what the handle had.
/// After a refusal the handle is as before.
#[unsafe(no_mangle)]
pub extern "C" fn roam_mosaic_open(
    alloc: Global,
    h: &mut Handle,
    columns: u32,
    rows: u32,
    side: u32,
) -> i32
    ensures cause { IsNumberOfSome result (IsMosaicAnswer columns rows side) }
    ensures opened { result ≡ pos 0 → (now : RoundsState) × (h.new.value ≡ Some (Kept.Mosaic now))
        × IsMosaicOpened columns rows side now }
    ensures kept { (result ≡ pos 0 → ⊥) → h.new.value ≡ h.old.value }
{
    fill!(Mosaic, h, alloc, open_mosaic(alloc, columns, rows, side))
}

/// Lets go of the mosaic. The handle is empty then.
#[unsafe(no_mangle)]
pub extern "C" fn roam_mosaic_close(alloc: Global, h: &mut Handle) -> i32
    ensures full { (was : RoundsState) → h.old.value ≡ Some (Kept.Mosaic was) →
        (h.new.value ≡ None) × (result ≡ pos 0) }
    ensures empty { OnOther Kept.Mosaic h.old.value h.new.value result ⊤ }
{
    close!(Mosaic, h, alloc)
}

/// Tells the next tile that has to be fitted.
#[unsafe(no_mangle)]
pub extern "C" fn roam_mosaic_next(alloc: Global, h: &mut Handle, out: &mut Tile) -> i32
    ensures full { OnKept Kept.Mosaic h.old.value h.new.value result (λ was now answer.
        IsNextTold was now out.new answer) }
    ensures empty { OnOther Kept.Mosaic h.old.value h.new.value result (out.new ≡ out.old) }
{
    on!(Mosaic, h, alloc, |mosaic| next_tile(mosaic, out))
}

/// Writes the places, in the heights of a tile, of what its mesh has to have, and tells of them.
#[unsafe(no_mangle)]
pub extern "C" fn roam_mosaic_required(
    alloc: Global,
    h: &mut Handle,
    column: u32,
    row: u32,
    out: &mut [u32],
    told: &mut Required,
) -> i32
    ensures full { OnKept Kept.Mosaic h.old.value h.new.value result (λ was now answer. (now ≡ was)
        × AreRequiredTold was (record { x = column; y = row }) out.old out.new told.old told.new answer) }
    ensures empty { OnOther Kept.Mosaic h.old.value h.new.value result
        ((out.new ≡ out.old) × (told.new ≡ told.old)) }
{
    on!(
        Mosaic,
        h,
        alloc,
        |mosaic| tell_required(mosaic, column, row, out, told)
    )
}

/// Keeps the border points of a tile's mesh, by their places in the tile's heights.
#[unsafe(no_mangle)]
pub extern "C" fn roam_mosaic_put(
    alloc: Global,
    h: &mut Handle,
    column: u32,
    row: u32,
    border: &[u32],
) -> i32
    ensures full { OnKept Kept.Mosaic h.old.value h.new.value result (λ was now answer.
        IsBorderKept was now (record { x = column; y = row }) border.now answer) }
    ensures empty { OnOther Kept.Mosaic h.old.value h.new.value result ⊤ }
{
    on!(
        Mosaic,
        h,
        alloc,
        |mosaic| put_tile(mosaic, column, row, border)
    )
}
