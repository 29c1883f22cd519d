//! Pages of a world, which come and go.

ghost use Rattle.std.specs.Prelude.{◌≡◌, ◌≢◌, Some};
ghost use Rattle.mesh_defs.specs.HeightField.{HeightField};
ghost use Rattle.roam_c.specs.declared.kept.Kept.{Kept};
ghost use Rattle.roam_c.specs.Handle.{OnKept, OnOther};
ghost use Rattle.world_embed.specs.Worlds.{IsUnloadAnswer, IsPageUnloaded};
ghost use Rattle.roam_c.specs.Worlds.{IsKeptLoaded, IsPagePut, IsPageHanded};

use crate::handle::{Handle, on, put, take};
use crate::kept::{Kept, keep, take_page};
use roam_embed::Answer;
use std::alloc::Global;
use world_embed::{World, load_page, unload_page};

/// Puts the page of a handle into the square in this column and row of its resolution. The handle is empty then; after a
/// refusal all is as before.
#[unsafe(no_mangle)]
pub extern "C" fn roam_world_load(
    alloc: Global,
    w: &mut Handle,
    q: u32,
    column: u32,
    row: u32,
    p: &mut Handle,
) -> i32
    ensures full { (page : HeightField) → p.old.value ≡ Some (Kept.Page page) →
        OnKept Kept.World w.old.value w.new.value result (λ was now answer.
        IsPagePut was now q (record { x = column; y = row }) page p.new.value answer) }
    ensures no_page { OnOther Kept.Page p.old.value p.new.value result (w.new.value ≡ w.old.value) }
    ensures empty { OnOther Kept.World w.old.value w.new.value result (p.new.value ≡ p.old.value) }
{
    on!(
        World,
        w,
        alloc,
        |world| load_held(alloc, world, q, column, row, p)
    )
}

/// The same, into a world.
fn load_held(
    alloc: Global,
    world: &mut World,
    q: u32,
    column: u32,
    row: u32,
    p: &mut Handle,
) -> Answer
    ensures full { (page : HeightField) → p.old.value ≡ Some (Kept.Page page) →
        IsPagePut world.old world.new q (record { x = column; y = row }) page p.new.value result }
    ensures other { ((page : HeightField) → p.old.value ≢ Some (Kept.Page page)) →
        (world.new ≡ world.old) × (p.new.value ≡ p.old.value) × (result ≡ Answer.IsEmpty) }
{
    match take(p, alloc) {
        Some(mut kept) => match load_kept(world, q, column, row, kept.as_mut()) {
            Answer::Done => Answer::Done,
            answer => {
                put(p, kept, alloc);
                answer
            }
        },
        None => Answer::IsEmpty,
    }
}

/// The same of a page that is kept.
fn load_kept(world: &mut World, q: u32, column: u32, row: u32, kept: &mut Kept) -> Answer
    ensures page { (page : HeightField) → kept.old ≡ Kept.Page page →
        IsKeptLoaded world.old world.new q (record { x = column; y = row }) page kept.new result }
    ensures other { ((page : HeightField) → kept.old ≢ Kept.Page page) →
        (world.new ≡ world.old) × (kept.new ≡ kept.old) × (result ≡ Answer.IsEmpty) }
{
    let Some(page) = take_page(kept) else {
        return Answer::IsEmpty;
    };
    match load_page(world, q, column, row, page) {
        Ok(()) => Answer::Done,
        Err((answer, page)) => {
            keep(kept, Kept::Page(page));
            answer
        }
    }
}

/// Takes the page out of the square in this column and row of its resolution, puts it into the handle, and lets go of what
/// was there. After a refusal all is as before. Where there is no memory for what the handle has, that is the answer,
/// whatever else is wrong.
#[unsafe(no_mangle)]
pub extern "C" fn roam_world_unload(
    alloc: Global,
    w: &mut Handle,
    q: u32,
    column: u32,
    row: u32,
    p: &mut Handle,
) -> i32
    ensures full { OnKept Kept.World w.old.value w.new.value result (λ was now answer.
        IsPageHanded was now q (record { x = column; y = row }) p.old.value p.new.value answer) }
    ensures empty { OnOther Kept.World w.old.value w.new.value result (p.new.value ≡ p.old.value) }
{
    on!(
        World,
        w,
        alloc,
        |world| unload_held(alloc, world, q, column, row, p)
    )
}

/// The same, out of a world.
fn unload_held(
    alloc: Global,
    world: &mut World,
    q: u32,
    column: u32,
    row: u32,
    p: &mut Handle,
) -> Answer
    ensures { IsPageHanded world.old world.new q (record { x = column; y = row }) p.old.value p.new.value result }
{
    let Ok(mut kept) = Box::new(alloc, Kept::Nothing) else {
        return Answer::NoMemory;
    };
    match unload_kept(world, q, column, row, kept.as_mut()) {
        Answer::Done => {
            put(p, kept, alloc);
            Answer::Done
        }
        answer => answer,
    }
}

/// The same, into what is kept.
fn unload_kept(world: &mut World, q: u32, column: u32, row: u32, kept: &mut Kept) -> Answer
    ensures cause { IsUnloadAnswer world.old.store q (record { x = column; y = row }) result }
    ensures unloaded { result ≡ Answer.Done → (page : HeightField) × (kept.new ≡ Kept.Page page)
        × IsPageUnloaded world.old world.new q (record { x = column; y = row }) page }
    ensures same { result ≢ Answer.Done → (world.new ≡ world.old) × (kept.new ≡ kept.old) }
{
    match unload_page(world, q, column, row) {
        Ok(gone) => {
            keep(kept, Kept::Page(gone));
            Answer::Done
        }
        Err(answer) => answer,
    }
}
