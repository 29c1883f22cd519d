//! A world of pages: its beginning, its view, its budget, its frames, and pages that come and go.

ghost use Rattle.std.specs.Prelude.{◌≡◌, ◌≢◌, ◌≤◌, ◌↔◌, OnOk, OnErr, IfOk, IfErr, IsTrue};
ghost use Rattle.world_loop.specs.World.{mesh_seen};
ghost use Rattle.roam_embed.specs.Listed.{AreNumbersTold};
ghost use Rattle.world_embed.specs.Worlds.{IsTerrainOf, IsWorldAnswer, IsWorldOpened, IsKeptPage};
ghost use Rattle.world_embed.specs.Worlds.{world_note_of, IsWorldFrameMade};
ghost use Rattle.world_embed.specs.Worlds.{IsLoadAnswer, IsPageLoaded, IsUnloadAnswer, IsPageUnloaded};
ghost use Rattle.world_embed.specs.Worlds.{IsWorldCameraMoved, AreWorldPlanesPut, IsWorldThresholdPut, IsWorldBudgetPut};

use crate::notes::WorldFrame;
use crate::page::Page;
use mesh_defs::{GREATEST_LEVEL, NoMemory};
use roam_embed::{Answer, MOST_PLANES, PlaneNumbers, are_planes, made_planes, put_addresses};
use std::alloc::Global;
use triangle_pool::MOST_LEAVES;
use wedgie_tree::GREATEST_SPACING;
use world_loop::{Camera, PageStore, Point, UnloadFault, World, WorldNote, draw_laws};

/// A world of a terrain of side 2^large grid steps, of which this page covers the whole.
///
/// Seen from (0, 0, 0), no plane, the two halves of the square. All memory but that of finer pages is taken here. The page
/// comes back with a refusal, but where memory ran out.
pub fn open_world(
    alloc: Global,
    root: Page,
    large: u32,
    budget: u32,
    spacing: u32,
) -> Result<World, (Answer, Option<Page>)>
    ensures opened { IfOk result (IsWorldOpened root large budget spacing) }
    ensures fits { IfOk result (λ world. IsWorldAnswer root.n large budget spacing Answer.Done) }
    ensures refused { IfErr result (λ refusal. IsWorldAnswer root.n large budget spacing refusal.0) }
    ensures cause { IfErr result (λ refusal. refusal.0 ≢ Answer.Done) }
    ensures kept { IfErr result (λ refusal. IsKeptPage root refusal.1 refusal.0) }
{
    let n = root.wedges.grid().n();
    if large < n || large > GREATEST_LEVEL {
        return Err((Answer::BadGrid, Some(root)));
    }
    if budget < 2 || budget > MOST_LEAVES {
        return Err((Answer::BadBudget, Some(root)));
    }
    if spacing < 1 || spacing > GREATEST_SPACING {
        return Err((Answer::BadSpacing, Some(root)));
    }
    match make_world(alloc, root, large, budget, spacing) {
        Ok(world) => Ok(world),
        Err(_) => Err((Answer::NoMemory, None)),
    }
}

/// The world of this page, with all memory that it needs.
fn make_world(
    alloc: Global,
    root: Page,
    large: u32,
    budget: u32,
    spacing: u32,
) -> Result<World, NoMemory>
    requires terrain { IsTerrainOf root.n large }
    requires some { 2 ≤ budget }
    requires few { budget ≤ MOST_LEAVES }
    requires spacing_low { 1 ≤ spacing }
    requires spacing_high { spacing ≤ GREATEST_SPACING }
    ensures { IfOk result (IsWorldOpened root large budget spacing) }
{
    let mut wedges = root.wedges;
    wedges.cut_by(false);
    let store = PageStore::make(alloc, large, wedges)?;
    World::make(alloc, store, budget, spacing)
}

/// Puts the camera to a place, in world units.
pub fn move_world_camera(world: &mut World, x: i64, y: i64, z: i64) -> Answer
    ensures { IsWorldCameraMoved world.old world.new (record { x = x; y = y; z = z }) result }
{
    match Camera::new(x, y, z) {
        Some(place) => {
            world.camera(place);
            Answer::Done
        }
        None => Answer::BadCamera,
    }
}

/// Puts these planes in force in the place of those before.
///
/// Cost (not proved): that of `World::look`; takes no memory.
pub fn put_world_planes(world: &mut World, planes: &[PlaneNumbers]) -> Answer
    ensures { AreWorldPlanesPut world.old world.new planes.now result }
{
    if !are_planes(planes) {
        return Answer::BadPlane;
    }
    if planes.len() > MOST_PLANES as usize {
        return Answer::TooManyPlanes;
    }
    world.look(&made_planes(planes));
    Answer::Done
}

/// Puts another threshold in force: a triangle whose thickness over distance is no more has priority 0.
pub fn put_world_threshold(world: &mut World, ratio: u64) -> Answer
    ensures { IsWorldThresholdPut world.old world.new ratio result }
{
    world.threshold(ratio);
    Answer::Done
}

/// Puts another budget in force.
pub fn put_world_budget(world: &mut World, triangles: u32) -> Answer
    ensures { IsWorldBudgetPut world.old world.new triangles result }
{
    if triangles < 2 || triangles > world.most() {
        return Answer::BadBudget;
    }
    world.budget(triangles);
    Answer::Done
}

/// Makes the mesh of what is loaded and seen, and tells of it.
///
/// Cost (not proved): that of `World::frame`; takes no memory.
pub fn make_world_frame(world: &mut World, out: &mut WorldFrame) -> Answer
    ensures { IsWorldFrameMade world.old world.new out.old out.new result }
{
    draw_laws();
    match world.frame() {
        Ok(note) => {
            *out = frame_of_world(&note);
            Answer::Done
        }
        Err(_) => Answer::Worn,
    }
}

/// A note, by numbers alone.
fn frame_of_world(note: &WorldNote) -> WorldFrame
    ensures note { world_note_of result ≡ note.now }
    ensures unneeded { result.blocking ≡ 0 → result.need ≡ 0 }
    ensures spare { result.spare ≡ 0 }
{
    let (blocking, need) = match note.steps.blocked {
        Some(b) => (b.tri.number(), b.need),
        None => (0, 0),
    };
    WorldFrame {
        worst: note.steps.worst,
        evaluations: note.evaluations,
        triangles: note.triangles,
        splits: note.steps.splits,
        merges: note.steps.merges,
        blocking,
        need,
        spare: 0,
    }
}

/// Writes the addresses of the triangles of the mesh, depth first, and how many there are.
pub fn tell_world_leaves(world: &World, out: &mut [u32], triangles: &mut usize) -> Answer
    ensures { AreNumbersTold (mesh_seen world.now) out.old out.new triangles.old triangles.new result }
{
    put_addresses(world.leaves(), out, triangles)
}

/// Puts a page into the square in this column and row of its resolution. A page that is refused comes back.
///
/// Cost (not proved): that of `World::load`; takes no memory.
pub fn load_page(
    world: &mut World,
    q: u32,
    column: u32,
    row: u32,
    page: Page,
) -> Result<(), (Answer, Page)>
    ensures loaded { OnOk result (IsPageLoaded world.old world.new q (record { x = column; y = row }) page) }
    ensures fits { OnOk result (IsLoadAnswer world.old.store q (record { x = column; y = row }) page Answer.Done) }
    ensures refused { IfErr result (λ refusal.
        IsLoadAnswer world.old.store q (record { x = column; y = row }) page refusal.0) }
    ensures cause { IfErr result (λ refusal. refusal.0 ≢ Answer.Done) }
    ensures kept { IfErr result (λ refusal. refusal.1 ≡ page) }
    ensures same { OnErr result (world.new ≡ world.old) }
{
    match world.load(q, Point { x: column, y: row }, page.wedges) {
        Ok(()) => Ok(()),
        Err((_, wedges)) => Err((Answer::BadPage, Page { wedges })),
    }
}

/// Takes the page out of the square in this column and row of its resolution.
///
/// Cost (not proved): that of `World::unload`; takes no memory.
pub fn unload_page(world: &mut World, q: u32, column: u32, row: u32) -> Result<Page, Answer>
    ensures unloaded { IfOk result (IsPageUnloaded world.old world.new q (record { x = column; y = row })) }
    ensures free { OnOk result (IsUnloadAnswer world.old.store q (record { x = column; y = row }) Answer.Done) }
    ensures refused { IfErr result (IsUnloadAnswer world.old.store q (record { x = column; y = row })) }
    ensures cause { IfErr result (λ answer. answer ≢ Answer.Done) }
    ensures same { OnErr result (world.new ≡ world.old) }
{
    match world.unload(q, Point { x: column, y: row }) {
        Ok(wedges) => Ok(Page { wedges }),
        Err(UnloadFault::NotLoaded) => Err(Answer::NotThere),
        Err(_) => Err(Answer::BadPage),
    }
}
