//! The callers of the engine on a small grid, with numbers worked by hand.

ghost use Rattle.engine_uses.specs.Step.{IsInStep};

use crate::grids::{Peak, grid_with};
use draw_buffer::DrawBuffer;
use engine_uses::{Sight, buffer_of, fly, frame_and_patch, go_on, set_and_look};
use frame_loop::{Camera, Engine};
use std::alloc::Global;

/// Two points of the grid of side 4.
const TWO_PEAKS: [Peak; 2] = [(1, 0, 10), (3, 4, 10)];

/// Triangles, worst, splits and merges of what is seen.
type Told = (u32, u64, u32, u32);

/// What a flight from the lower left to the upper right corner tells, with a frame more there.
fn flight(alloc: Global) -> Option<[Told; 3]> {
    let corner = Camera::new(0, 0, 0)?;
    let other = Camera::new(4, 4, 0)?;
    let sights = fly(
        alloc,
        grid_with(alloc, 2, &TWO_PEAKS)?,
        9,
        &[corner, other, other],
    )
    .ok()?;
    let mut told = [(0, 0, 0, 0); 3];
    for (place, sight) in told.iter_mut().zip(sights.iter()) {
        *place = (sight.triangles, sight.worst, sight.splits, sight.merges);
    }
    Some(told)
}

/// What is seen from the lower left corner, and where the first peak is cut off then.
fn cut_off(alloc: Global) -> Option<[Told; 2]> {
    let grid = grid_with(alloc, 2, &TWO_PEAKS)?;
    let mut engine = Engine::make(alloc, grid, 9, 1).ok()?;
    go_on_and_look(&mut engine)
}

/// The same of a new engine.
fn go_on_and_look(engine: &mut Engine) -> Option<[Told; 2]> {
    let first = go_on(engine, Camera::new(0, 0, 0)?)?;
    if engine.grid().side() < 2 || engine.frames() >= 1000000 {
        return None;
    }
    let second = set_and_look(engine, 1, 0, 0);
    Some([told_of(first), told_of(second)])
}

fn told_of(sight: Sight) -> Told {
    (sight.triangles, sight.worst, sight.splits, sight.merges)
}

/// Whether a buffer that follows the same flight has the mesh at its beginning and after each frame.
fn followed(alloc: Global) -> Option<[bool; 4]> {
    let grid = grid_with(alloc, 2, &TWO_PEAKS)?;
    let mut engine = Engine::make(alloc, grid, 9, 1).ok()?;
    follow(alloc, &mut engine)
}

/// The same, of a new engine.
fn follow(alloc: Global, engine: &mut Engine) -> Option<[bool; 4]> {
    match buffer_of(alloc, engine) {
        Ok(mut buffer) => follow_all(engine, &mut buffer),
        Err(_) => None,
    }
}

/// The same, of a new buffer.
fn follow_all(engine: &mut Engine, buffer: &mut DrawBuffer) -> Option<[bool; 4]>
    requires { IsInStep engine.old buffer.old }
{
    let corner = Camera::new(0, 0, 0)?;
    let other = Camera::new(4, 4, 0)?;
    let begun = shows(engine, buffer, 2);
    let first = follow_to(engine, buffer, corner);
    let second = follow_to(engine, buffer, other);
    let third = follow_to(engine, buffer, other);
    Some([begun, first, second, third])
}

/// Moves the camera and makes a frame. Tells whether the buffer has its nine triangles then.
fn follow_to(engine: &mut Engine, buffer: &mut DrawBuffer, place: Camera) -> bool
    requires { IsInStep engine.old buffer.old }
    ensures { IsInStep engine.new buffer.new }
{
    if engine.odometer().saturating_add(engine.way_to(place)) > 1 << 62 {
        return false;
    }
    engine.camera(place);
    if engine.frames() >= 1000000 {
        return false;
    }
    let sight = frame_and_patch(engine, buffer);
    sight.triangles == 9 && shows(engine, buffer, 9)
}

/// Whether a buffer has so many triangles, and each of the mesh.
fn shows(engine: &Engine, buffer: &DrawBuffer, count: usize) -> bool {
    let leaves = engine.view().leaves;
    for t in leaves {
        if !buffer.has(*t) {
            return false;
        }
    }
    leaves.len() == count && buffer.triangles().len() == count
}

#[test]
fn each_caller_tells_of_its_frames(rt: HostRuntime) {
    let told = [(9, 436906, 7, 0), (9, 436906, 5, 5), (9, 436906, 0, 0)];
    assert_eq!(rt; flight(rt.alloc()), Some(told));
    let told = [(9, 436906, 7, 0), (9, 0, 5, 5)];
    assert_eq!(rt; cut_off(rt.alloc()), Some(told));
    assert_eq!(rt; followed(rt.alloc()), Some([true; 4]));
}
