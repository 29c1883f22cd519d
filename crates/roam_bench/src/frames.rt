//! Frames of a mesh over made heights: the first one, and one more.

ghost use Rattle.std.specs.Prelude.{◌≡◌, ℕ, ◌≤◌, None, IfSome, IfOk};
ghost use Rattle.mesh_defs.specs.declared.counters.TheConstants.{LONGEST_WAY};
ghost use Rattle.mesh_defs.specs.State.{move_length};
ghost use Rattle.mesh_defs.specs.declared.level.TheConstants.{GREATEST_FILE_LEVEL};
ghost use Rattle.roam_mesh.specs.Mesh.{stamp_of};

use crate::gauge::{SPACING, ViewGauge, gauge_laws};
use frame_loop::NoMemory;
use roam_gen::gen_grid;
use roam_mesh::Mesh;
use std::alloc::Global;
use std::io;
use std::time::Instant;
use view_priority::Camera;
use wedgie_tree::Wedges;

/// The seed of the heights.
const SEED: u32 = 1;

/// How high the cameras are, in world units.
const HEIGHT: i64 = 40000;

/// The most triangles of a mesh.
const BUDGET: u32 = 20000;

/// How far the camera moves, in world units.
const STEP: u32 = 30;

/// A case: one frame over the grid of a level.
#[derive(Clone, Copy)]
pub struct Case {
    n: u32,
    /// How far the camera moves between the two frames.
    step: u32,
    /// Whether it is the second frame.
    second: bool,
}

/// What a frame took.
#[derive(Clone, Copy)]
pub struct Timed {
    /// How often the gauge was asked.
    pub evaluations: u64,
    /// How many triangles were split or merged.
    pub changes: u32,
    /// The seconds.
    pub seconds: f64,
}

/// The case of a word, if it has one.
pub fn case_of(word: &str) -> Option<Case>
    ensures low { IfSome result (λ it. 1 ≤ it.n) }
    ensures high { IfSome result (λ it. it.n ≤ GREATEST_FILE_LEVEL) }
{
    let (n, step, second) = match word {
        "frame_first_9" => (9, 0, false),
        "frame_still_9" => (9, 0, true),
        "frame_moved_9" => (9, STEP, true),
        "frame_first_11" => (11, 0, false),
        "frame_still_11" => (11, 0, true),
        "frame_moved_11" => (11, STEP, true),
        _ => return None,
    };
    Some(Case { n, step, second })
}

/// Makes heights, wedges and a mesh, and times a frame; None where memory runs out.
pub fn frame(rt: &HostRuntime, case: Case) -> io::Result<Option<Timed>>
    requires low { 1 ≤ case.n }
    requires high { case.n ≤ GREATEST_FILE_LEVEL }
{
    let Ok(grid) = gen_grid(rt.alloc(), case.n, SEED) else {
        return Ok(None);
    };
    match Wedges::build(rt.alloc(), grid) {
        Ok(wedges) => frame_over(rt, case, &wedges),
        Err(_) => Ok(None),
    }
}

/// Makes a mesh over these wedges, and times a frame.
fn frame_over(rt: &HostRuntime, case: Case, wedges: &Wedges) -> io::Result<Option<Timed>>
    requires low { 1 ≤ case.n }
    requires high { case.n ≤ GREATEST_FILE_LEVEL }
    requires grid { wedges.now.n ≡ case.n }
{
    let Some((from, to)) = cameras(case.n, case.step) else {
        return Ok(None);
    };
    match mesh_on_heap(rt.alloc(), case.n) {
        Ok(mut mesh) => one_of_two(rt, &mut mesh, wedges, from, to, case),
        Err(_) => Ok(None),
    }
}

/// A mesh on the heap, which is cheaper to prove than one that a function with several exits owns.
fn mesh_on_heap(alloc: Global, n: u32) -> Result<Box<Mesh>, NoMemory>
    requires low { 1 ≤ n }
    requires high { n ≤ GREATEST_FILE_LEVEL }
    ensures n { IfOk result (λ mesh. mesh.value.pool.n ≡ n) }
    ensures most { IfOk result (λ mesh. mesh.value.pool.most ≡ BUDGET) }
    ensures splits { IfOk result (λ mesh. mesh.value.pool.splits ≡ 0) }
    ensures merges { IfOk result (λ mesh. mesh.value.pool.merges ≡ 0) }
    ensures stamps { IfOk result (λ mesh. (a : ℕ) → stamp_of mesh.value a ≡ None) }
{
    let mesh = Mesh::make(alloc, n, BUDGET)?;
    Ok(Box::new(alloc, mesh)?)
}

/// Two cameras, a third along the grid and half across it, the second one so much farther along x.
fn cameras(n: u32, step: u32) -> Option<(Camera, Camera)>
    requires high { n ≤ GREATEST_FILE_LEVEL }
    ensures way { IfSome result (λ pair. move_length pair.0 pair.1 ≤ step) }
{
    let width = SPACING << n;
    let x = i64::from(width / 3);
    let y = i64::from(width / 2);
    let from = Camera::new(x, y, HEIGHT)?;
    let to = Camera::new(x + i64::from(step), y, HEIGHT)?;
    Some((from, to))
}

/// Times a first frame and one more, and tells of that which is asked for.
fn one_of_two(
    rt: &HostRuntime,
    mesh: &mut Mesh,
    wedges: &Wedges,
    from: Camera,
    to: Camera,
    case: Case,
) -> io::Result<Option<Timed>>
    requires grid { wedges.now.n ≡ mesh.old.pool.n }
    requires most { mesh.old.pool.most ≡ BUDGET }
    requires splits { mesh.old.pool.splits ≡ 0 }
    requires merges { mesh.old.pool.merges ≡ 0 }
    requires stamps { (a : ℕ) → stamp_of mesh.old a ≡ None }
    requires way { move_length from to ≤ case.step }
{
    let (first, second) = two_frames(rt, mesh, wedges, from, to, u64::from(case.step))?;
    Ok(Some(if case.second { second } else { first }))
}

/// A first frame, and one from another camera, which is no farther than the odometer says.
fn two_frames(
    rt: &HostRuntime,
    mesh: &mut Mesh,
    wedges: &Wedges,
    from: Camera,
    to: Camera,
    odometer: u64,
) -> io::Result<(Timed, Timed)>
    requires grid { wedges.now.n ≡ mesh.old.pool.n }
    requires most { mesh.old.pool.most ≡ BUDGET }
    requires splits { mesh.old.pool.splits ≡ 0 }
    requires merges { mesh.old.pool.merges ≡ 0 }
    requires stamps { (a : ℕ) → stamp_of mesh.old a ≡ None }
    requires way { move_length from to ≤ odometer }
    requires far { odometer ≤ LONGEST_WAY }
{
    gauge_laws();
    let mut gauge = ViewGauge {
        wedges,
        camera: from,
        count: 0,
    };
    let start = Instant::now(rt)?;
    let steps = mesh.advance(&mut gauge, BUDGET, 0);
    let first = Timed {
        evaluations: gauge.count,
        changes: steps.splits.saturating_add(steps.merges),
        seconds: start.elapsed(rt)?.as_secs_f64(),
    };
    let mut gauge = ViewGauge {
        wedges,
        camera: to,
        count: 0,
    };
    let start = Instant::now(rt)?;
    let steps = mesh.advance(&mut gauge, BUDGET, odometer);
    let second = Timed {
        evaluations: gauge.count,
        changes: steps.splits.saturating_add(steps.merges),
        seconds: start.elapsed(rt)?.as_secs_f64(),
    };
    Ok((first, second))
}
