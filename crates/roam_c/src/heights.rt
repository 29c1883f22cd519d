//! Heights of pages and of worlds, which change.

ghost use Rattle.std.specs.Prelude.{◌≡◌, ◌≢◌, ⊤, Some};
ghost use Rattle.world_embed.specs.Edits.{IsPageHeightPut, IsPageRaised, IsWorldHeightPut, IsWorldRaised};
ghost use Rattle.roam_c.specs.declared.kept.Kept.{Kept};
ghost use Rattle.roam_c.specs.Handle.{OnKept, OnOther};

use crate::handle::{Handle, on};
use std::alloc::Global;
use world_embed::{raise_page, raise_world, set_page_height, set_world_height};

/// Sets the height of the point (x, y) of a page's grid.
#[unsafe(no_mangle)]
pub extern "C" fn roam_page_set_height(
    alloc: Global,
    p: &mut Handle,
    x: u32,
    y: u32,
    height: u16,
) -> i32
    ensures full { OnKept Kept.Page p.old.value p.new.value result (λ was now answer.
        IsPageHeightPut was now x y height answer) }
    ensures empty { OnOther Kept.Page p.old.value p.new.value result ⊤ }
{
    on!(Page, p, alloc, |page| set_page_height(page, x, y, height))
}

/// Raises the heights of the columns x0 to x1 and the rows y0 to y1 of a page's grid by dz.
#[unsafe(no_mangle)]
pub extern "C" fn roam_page_raise(
    alloc: Global,
    p: &mut Handle,
    x0: u32,
    y0: u32,
    x1: u32,
    y1: u32,
    dz: i32,
) -> i32
    ensures full { OnKept Kept.Page p.old.value p.new.value result (λ was now answer.
        IsPageRaised was now x0 y0 x1 y1 dz answer) }
    ensures empty { OnOther Kept.Page p.old.value p.new.value result ⊤ }
{
    on!(Page, p, alloc, |page| raise_page(page, x0, y0, x1, y1, dz))
}

/// Sets the height of the point (x, y) of the terrain, in each loaded page that has it.
#[unsafe(no_mangle)]
pub extern "C" fn roam_world_set_height(
    alloc: Global,
    w: &mut Handle,
    x: u32,
    y: u32,
    height: u16,
) -> i32
    ensures full { OnKept Kept.World w.old.value w.new.value result (λ was now answer.
        IsWorldHeightPut was now x y height answer) }
    ensures empty { OnOther Kept.World w.old.value w.new.value result ⊤ }
{
    on!(
        World,
        w,
        alloc,
        |world| set_world_height(world, x, y, height)
    )
}

/// Raises the loaded heights of the columns x0 to x1 and the rows y0 to y1 of the terrain by dz.
#[unsafe(no_mangle)]
pub extern "C" fn roam_world_raise(
    alloc: Global,
    w: &mut Handle,
    x0: u32,
    y0: u32,
    x1: u32,
    y1: u32,
    dz: i32,
) -> i32
    ensures full { OnKept Kept.World w.old.value w.new.value result (λ was now answer.
        IsWorldRaised was now x0 y0 x1 y1 dz answer) }
    ensures empty { OnOther Kept.World w.old.value w.new.value result ⊤ }
{
    on!(
        World,
        w,
        alloc,
        |world| raise_world(world, x0, y0, x1, y1, dz)
    )
}
