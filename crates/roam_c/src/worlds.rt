//! Pages, and worlds of them.

ghost use Rattle.std.specs.Prelude.{◌≡◌, ◌≢◌, ⊤, None, Some, MatchOption, pos};
ghost use Rattle.mesh_defs.specs.HeightField.{HeightField};
ghost use Rattle.world_loop.specs.World.{WorldState, mesh_seen};
ghost use Rattle.roam_embed.specs.Listed.{AreNumbersTold};
ghost use Rattle.roam_embed.specs.Grid.{IsGridAnswer, IsGridOf};
ghost use Rattle.world_embed.specs.Worlds.{IsWorldCameraMoved, AreWorldPlanesPut, IsWorldThresholdPut};
ghost use Rattle.world_embed.specs.Worlds.{IsWorldBudgetPut, IsWorldFrameMade};
ghost use Rattle.roam_c.specs.declared.kept.Kept.{Kept};
ghost use Rattle.roam_c.specs.Handle.{IsNumberOfSome, OnKept, OnOther};
ghost use Rattle.roam_c.specs.Worlds.{IsKeptOpened, IsWorldMade};

use crate::handle::{Handle, close, fill, on, put, take};
use crate::kept::{Kept, keep, take_page};
use roam_embed::{Answer, PlaneNumbers};
use std::alloc::Global;
use world_embed::{
    Page, WorldFrame, make_page, make_world_frame, move_world_camera, open_world, put_world_budget,
    put_world_planes, put_world_threshold, tell_world_leaves,
};

/// Makes a page of these heights, and lets go of what the handle had. After a refusal the handle is as before.
#[unsafe(no_mangle)]
pub extern "C" fn roam_page_make(alloc: Global, p: &mut Handle, heights: &[u16]) -> i32
    ensures cause { IsNumberOfSome result (IsGridAnswer heights.now) }
    ensures made { result ≡ pos 0 → (now : HeightField) × (p.new.value ≡ Some (Kept.Page now))
        × IsGridOf heights.now now }
    ensures kept { (result ≡ pos 0 → ⊥) → p.new.value ≡ p.old.value }
{
    fill!(Page, p, alloc, make_page(alloc, heights))
}

/// Lets go of the page. The handle is empty then.
#[unsafe(no_mangle)]
pub extern "C" fn roam_page_drop(alloc: Global, p: &mut Handle) -> i32
    ensures full { (was : HeightField) → p.old.value ≡ Some (Kept.Page was) →
        (p.new.value ≡ None) × (result ≡ pos 0) }
    ensures empty { OnOther Kept.Page p.old.value p.new.value result ⊤ }
{
    close!(Page, p, alloc)
}

/// Makes a world of a terrain of side 2^large grid steps, of which the page covers the whole, and lets go of what the
/// handle had. The page goes out of its handle; after a refusal both are as before, but where memory ran out the page is
/// gone.
#[unsafe(no_mangle)]
pub extern "C" fn roam_world_open(
    alloc: Global,
    w: &mut Handle,
    root: &mut Handle,
    large: u32,
    budget: u32,
    spacing: u32,
) -> i32
    ensures full { (page : HeightField) → root.old.value ≡ Some (Kept.Page page) →
        IsNumberOfSome result (IsWorldMade page large budget spacing root.new.value w.old.value w.new.value) }
    ensures empty { OnOther Kept.Page root.old.value root.new.value result (w.new.value ≡ w.old.value) }
{
    match take(root, alloc) {
        Some(mut kept) => match open_kept(alloc, kept.as_mut(), large, budget, spacing) {
            Answer::Done => {
                put(w, kept, alloc);
                Answer::Done.number()
            }
            Answer::NoMemory => Answer::NoMemory.number(),
            answer => {
                put(root, kept, alloc);
                answer.number()
            }
        },
        None => Answer::IsEmpty.number(),
    }
}

/// Makes a world of a page that is kept, in its place. Where memory runs out, nothing is kept.
fn open_kept(alloc: Global, kept: &mut Kept, large: u32, budget: u32, spacing: u32) -> Answer
    ensures page { (page : HeightField) → kept.old ≡ Kept.Page page →
        IsKeptOpened page large budget spacing kept.new result }
    ensures other { ((page : HeightField) → kept.old ≢ Kept.Page page) →
        (kept.new ≡ kept.old) × (result ≡ Answer.IsEmpty) }
{
    let Some(page) = take_page(kept) else {
        return Answer::IsEmpty;
    };
    match open_world(alloc, page, large, budget, spacing) {
        Ok(world) => {
            keep(kept, Kept::World(world));
            Answer::Done
        }
        Err((answer, rest)) => {
            keep_page(kept, rest);
            answer
        }
    }
}

/// Keeps the page, if there is one.
fn keep_page(kept: &mut Kept, page: Option<Page>)
    ensures { MatchOption page (kept.new ≡ kept.old) (λ page. kept.new ≡ Kept.Page page) }
{
    if let Some(page) = page {
        keep(kept, Kept::Page(page));
    }
}

/// Lets go of the world and its pages. The handle is empty then.
#[unsafe(no_mangle)]
pub extern "C" fn roam_world_close(alloc: Global, w: &mut Handle) -> i32
    ensures full { (was : WorldState) → w.old.value ≡ Some (Kept.World was) →
        (w.new.value ≡ None) × (result ≡ pos 0) }
    ensures empty { OnOther Kept.World w.old.value w.new.value result ⊤ }
{
    close!(World, w, alloc)
}

/// Puts the camera to a place, in world units.
#[unsafe(no_mangle)]
pub extern "C" fn roam_world_camera(alloc: Global, w: &mut Handle, x: i64, y: i64, z: i64) -> i32
    ensures full { OnKept Kept.World w.old.value w.new.value result (λ was now answer.
        IsWorldCameraMoved was now (record { x = x; y = y; z = z }) answer) }
    ensures empty { OnOther Kept.World w.old.value w.new.value result ⊤ }
{
    on!(World, w, alloc, |world| move_world_camera(world, x, y, z))
}

/// Puts these planes in force in the place of those before.
#[unsafe(no_mangle)]
pub extern "C" fn roam_world_look(alloc: Global, w: &mut Handle, planes: &[PlaneNumbers]) -> i32
    ensures full { OnKept Kept.World w.old.value w.new.value result (λ was now answer.
        AreWorldPlanesPut was now planes.now answer) }
    ensures empty { OnOther Kept.World w.old.value w.new.value result ⊤ }
{
    on!(World, w, alloc, |world| put_world_planes(world, planes))
}

/// Puts another threshold in force.
#[unsafe(no_mangle)]
pub extern "C" fn roam_world_threshold(alloc: Global, w: &mut Handle, ratio: u64) -> i32
    ensures full { OnKept Kept.World w.old.value w.new.value result (λ was now answer.
        IsWorldThresholdPut was now ratio answer) }
    ensures empty { OnOther Kept.World w.old.value w.new.value result ⊤ }
{
    on!(World, w, alloc, |world| put_world_threshold(world, ratio))
}

/// Puts another budget in force.
#[unsafe(no_mangle)]
pub extern "C" fn roam_world_budget(alloc: Global, w: &mut Handle, triangles: u32) -> i32
    ensures full { OnKept Kept.World w.old.value w.new.value result (λ was now answer.
        IsWorldBudgetPut was now triangles answer) }
    ensures empty { OnOther Kept.World w.old.value w.new.value result ⊤ }
{
    on!(World, w, alloc, |world| put_world_budget(world, triangles))
}

/// Makes the mesh of what is loaded and seen, and tells of it.
#[unsafe(no_mangle)]
pub extern "C" fn roam_world_frame(alloc: Global, w: &mut Handle, out: &mut WorldFrame) -> i32
    ensures full { OnKept Kept.World w.old.value w.new.value result (λ was now answer.
        IsWorldFrameMade was now out.old out.new answer) }
    ensures empty { OnOther Kept.World w.old.value w.new.value result (out.new ≡ out.old) }
{
    on!(World, w, alloc, |world| make_world_frame(world, out))
}

/// Writes the addresses of the triangles of the mesh, depth first, and how many there are.
#[unsafe(no_mangle)]
pub extern "C" fn roam_world_leaves(
    alloc: Global,
    w: &mut Handle,
    out: &mut [u32],
    triangles: &mut usize,
) -> i32
    ensures full { OnKept Kept.World w.old.value w.new.value result (λ was now answer. (now ≡ was)
        × AreNumbersTold (mesh_seen was) out.old out.new triangles.old triangles.new answer) }
    ensures empty { OnOther Kept.World w.old.value w.new.value result
        ((out.new ≡ out.old) × (triangles.new ≡ triangles.old)) }
{
    on!(
        World,
        w,
        alloc,
        |world| tell_world_leaves(world, out, triangles)
    )
}
