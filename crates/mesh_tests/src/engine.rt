//! A run of an engine with thresholds, whose numbers were found by hand; at its end the mesh is that from scratch.
//! Runs of scripts are in `checks/test_scripts.py`.

use crate::grids::grid_with;
use frame_loop::{Camera, Engine, FrameNote, Grid};
use plain_mesh::plain_frame;
use roam_script::Line;
use std::alloc::Global;
use wedgie_tree::Wedges;

/// What a frame tells: triangles, vertices, worst, splits, merges, and what blocks with its need.
pub type Told = (u32, u32, u64, u32, u32, Option<(u32, u32)>);

/// A step of a worked run.
#[derive(Clone, Copy)]
enum Step {
    /// The state changes as by this line of a script.
    Change(Line),
    /// Another threshold is in force.
    Threshold(u64),
    /// A frame tells this.
    Frame(Told),
    /// A frame before which nothing changed evaluates nothing.
    Cheap,
}

/// Changes the state as a line of a script says. Tells whether the engine may be asked for that.
pub fn change(engine: &mut Engine, line: Line) -> bool {
    match line {
        Line::Camera { x, y, z } => move_to(engine, x, y, z),
        Line::Set { x, y, h } => set_height(engine, x, y, h),
        Line::Raise { x0, y0, x1, y1, dz } => raise(engine, (x0, y0), (x1, y1), dz),
        Line::NoPlanes => {
            engine.clear_planes();
            true
        }
        Line::Budget { n } => set_budget(engine, n),
        Line::Plane { .. } | Line::Blank | Line::Frame => false,
    }
}

fn move_to(engine: &mut Engine, x: i64, y: i64, z: i64) -> bool {
    let Some(place) = Camera::new(x, y, z) else {
        return false;
    };
    let odometer = engine.odometer().saturating_add(engine.way_to(place));
    if odometer > 1 << 62 {
        return false;
    }
    engine.camera(place);
    engine.odometer() == odometer
}

fn set_height(engine: &mut Engine, x: u32, y: u32, h: u16) -> bool {
    let side = engine.grid().side();
    if x as usize >= side || y as usize >= side || h > engine.grid().maxval() {
        return false;
    }
    engine.set_height(x, y, h);
    true
}

fn raise(engine: &mut Engine, low: (u32, u32), high: (u32, u32), dz: i32) -> bool {
    let side = engine.grid().side();
    let within = (high.0 as usize) < side && (high.1 as usize) < side;
    if !within || low.0 > high.0 || low.1 > high.1 || dz < -65535 || dz > 65535 {
        return false;
    }
    engine.raise(low.0, low.1, high.0, high.1, dz);
    true
}

fn set_budget(engine: &mut Engine, budget: u32) -> bool {
    if budget < 2 || budget > engine.most() {
        return false;
    }
    engine.budget(budget);
    engine.budget_in_force() == budget
}

/// What the next frame tells, if there may be one more and it adds up.
pub fn frame(engine: &mut Engine) -> Option<Told> {
    let frames = engine.frames();
    if frames >= 1000000 {
        return None;
    }
    let before = u64::from(engine.pool().leaf_count());
    let note = engine.frame();
    let after = u64::from(engine.pool().leaf_count());
    let adds_up = before + u64::from(note.splits) == after + u64::from(note.merges);
    if adds_up && engine.frames() == frames + 1 {
        Some(plain(&note))
    } else {
        None
    }
}

/// The numbers of a frame.
fn plain(note: &FrameNote) -> Told {
    let blocked = note.blocked.map(|b| (b.tri.number(), b.need));
    (
        note.triangles,
        note.vertices,
        note.worst,
        note.splits,
        note.merges,
        blocked,
    )
}

/// Whether the step goes as it says.
fn goes(engine: &mut Engine, step: Step) -> bool {
    let before = engine.evaluations();
    match step {
        Step::Change(line) => change(engine, line),
        Step::Threshold(ratio) => {
            engine.threshold(ratio);
            engine.threshold_in_force() == ratio
        }
        Step::Frame(wanted) => frame(engine).is_some_and(|told| told == wanted),
        Step::Cheap => frame(engine).is_some() && engine.evaluations() == before,
    }
}

/// Whether the mesh of the engine is that from scratch, seen from this place.
pub fn is_from_scratch(alloc: Global, engine: &Engine, place: (i64, i64, i64)) -> Option<bool> {
    let view = engine.view();
    let camera = Camera::new(place.0, place.1, place.2)?;
    let wedges = Wedges::build(alloc, copy_of(alloc, view.wedges.grid())?).ok()?;
    let budget = engine.budget_in_force();
    let plain = plain_frame(alloc, &wedges, &camera, view.spacing, view.planes, budget).ok()?;
    let leaves = plain.split.leaves(alloc).ok()?;
    Some(view.leaves == leaves.as_slice())
}

fn copy_of(alloc: Global, grid: &Grid) -> Option<Grid> {
    let heights = Vec::from_slice(alloc, grid.heights()).ok()?;
    Some(Grid::from_heights(grid.n(), grid.maxval(), heights))
}

/// How many of the steps go as they say, before the first that does not.
fn count(engine: &mut Engine, steps: &[Step]) -> usize {
    let mut right = 0usize;
    for step in steps {
        if !goes(engine, *step) {
            break;
        }
        right = right.saturating_add(1);
    }
    right
}

/// How many of the steps over a flat grid of side 2 at spacing 1 go as they say, and whether the mesh is that from
/// scratch then.
fn steps_that_go(alloc: Global, steps: &[Step]) -> Option<(usize, Option<bool>)> {
    let grid = grid_with(alloc, 1, &[])?;
    let mut engine = Engine::make(alloc, grid, 8, 1).ok()?;
    let right = count(&mut engine, steps);
    Some((right, is_from_scratch(alloc, &engine, (0, 0, 0))))
}

// The ratios are 3932160 of 3, 1966080 of 7, and 1310720 of 2 and 4; the split of 3 forces that of 2.
#[test]
fn what_is_at_most_the_threshold_is_split_only_where_a_neighbour_forces_it(rt: HostRuntime) {
    let steps = [
        Step::Change(Line::Set { x: 1, y: 0, h: 10 }),
        Step::Change(Line::Set { x: 2, y: 1, h: 30 }),
        Step::Frame((6, 7, 0, 4, 0, None)),
        Step::Threshold(1310720),
        Step::Frame((5, 6, 0, 0, 1, None)),
        Step::Threshold(1310719),
        Step::Frame((6, 7, 0, 1, 0, None)),
        Step::Threshold(1966080),
        Step::Frame((4, 5, 0, 0, 2, None)),
        Step::Threshold(3932159),
        Step::Frame((4, 5, 0, 0, 0, None)),
        Step::Threshold(3932160),
        Step::Frame((2, 4, 0, 0, 2, None)),
        Step::Threshold(3932160),
        Step::Cheap,
        Step::Change(Line::Budget { n: 3 }),
        Step::Threshold(1966080),
        Step::Frame((2, 4, 3932160, 0, 0, Some((3, 4)))),
        Step::Change(Line::Budget { n: 8 }),
        Step::Threshold(0),
        Step::Frame((6, 7, 0, 4, 0, None)),
    ];
    assert_eq!(rt;
        steps_that_go(rt.alloc(), &steps),
        Some((steps.len(), Some(true)))
    );
}
