//! Random flights with every kind of change, each of whose frames has the mesh that is made from scratch.

ghost use Rattle.std.specs.Prelude.{◌<◌, ◌≤◌};

use crate::engine::{change, frame, is_from_scratch};
use crate::grids::grid_with;
use bintree_addr::Tri;
use cull_marks::{Plane, Planes};
use frame_loop::Engine;
use roam_script::Line;
use std::alloc::Global;

/// A place of the camera.
type Place = (i64, i64, i64);

/// The next number of a linear congruential sequence, modulo 2^64.
fn next(number: u64) -> u64 {
    number
        .wrapping_mul(6364136223846793005)
        .wrapping_add(1442695040888963407)
}

/// The number below a bound that is drawn of the n-th group of seven binary digits.
fn drawn(number: u64, n: u32, bound: u32) -> u32
    requires some { 1 ≤ bound }
    ensures below { result < bound }
{
    let digits = (number >> (8 + 7 * n.min(6))) % 128;
    digits as u32 % bound
}

/// A change of the state that is drawn of a number, over a grid of side 8, at a budget of at most 40.
fn line_of(number: u64) -> Line {
    match drawn(number, 0, 5) {
        0 => Line::Camera {
            x: i64::from(drawn(number, 1, 9)),
            y: i64::from(drawn(number, 2, 9)),
            z: i64::from(drawn(number, 3, 30)),
        },
        1 => Line::Set {
            x: drawn(number, 1, 9),
            y: drawn(number, 2, 9),
            h: drawn(number, 3, 50) as u16,
        },
        2 => Line::Raise {
            x0: drawn(number, 1, 4),
            y0: drawn(number, 2, 4),
            x1: drawn(number, 3, 5) + 4,
            y1: drawn(number, 4, 5) + 4,
            dz: drawn(number, 5, 30) as i32 - 10,
        },
        3 => Line::NoPlanes,
        _ => Line::Budget {
            n: drawn(number, 1, 39) + 2,
        },
    }
}

/// A plane through the grid that is drawn of a number.
fn plane_of(number: u64) -> Option<Plane> {
    let a = i64::from(drawn(number, 1, 9)) - 4;
    let b = i64::from(drawn(number, 2, 9)) - 4;
    let c = i64::from(drawn(number, 3, 3)) - 1;
    let d = i64::from(drawn(number, 4, 60)) - 30;
    Plane::new(a, b, c, d)
}

/// Puts one plane in force, or two, in the place of those before.
fn turn(engine: &mut Engine, number: u64) -> bool {
    let mut planes = Planes::none();
    if let Some(plane) = plane_of(number) {
        planes.add(plane);
    }
    if drawn(number, 5, 2) == 1 {
        if let Some(plane) = plane_of(next(number)) {
            planes.add(plane);
        }
    }
    engine.look(&planes);
    engine.planes() == planes.len()
}

/// Counts frames from 0 on again, and tells whether these are so, and the other counts as they were.
fn renew(engine: &mut Engine) -> bool {
    let before = (engine.odometer(), engine.evaluations());
    engine.renew() && engine.frames() == 0 && (engine.odometer(), engine.evaluations()) == before
}

/// Changes what a number says, and tells whether that went as it should.
fn step(engine: &mut Engine, number: u64) -> bool {
    match number >> 61 {
        0 | 1 => turn(engine, number),
        2 => renew(engine),
        _ => change(engine, line_of(number)),
    }
}

/// Where the camera is after a change.
fn place_after(place: Place, number: u64) -> Place {
    match line_of(number) {
        Line::Camera { x, y, z } if number >> 61 > 2 => (x, y, z),
        _ => place,
    }
}

/// Whether each of these triangles is in just one of the two lists.
fn are_apart(these: &[Tri], one: &[Tri], other: &[Tri]) -> bool {
    for t in these {
        if one.contains(t) == other.contains(t) {
            return false;
        }
    }
    true
}

/// Whether the leaves before, without those that are told out and with those that are told in, are the leaves now.
fn is_told(before: &[Tri], engine: &Engine) -> bool {
    let now = engine.view().leaves;
    let told = engine.changes();
    are_apart(before, now, told.gone)
        && are_apart(now, before, told.come)
        && are_apart(told.gone, before, now)
        && are_apart(told.come, before, now)
        && before.len() + told.come.len() == now.len() + told.gone.len()
}

/// Whether a frame has the mesh from scratch, and tells what it changed.
fn is_scratch_told(alloc: Global, engine: &mut Engine, place: Place) -> Option<bool> {
    let before = Vec::from_slice(alloc, engine.view().leaves).ok()?;
    frame(engine)?;
    Some(is_told(&before, engine) && is_from_scratch(alloc, engine, place)?)
}

/// Whether a frame has the mesh from scratch and tells what it changed, and the frame after it does nothing and asks
/// nothing.
fn is_right(alloc: Global, engine: &mut Engine, place: Place) -> Option<bool> {
    let scratch = is_scratch_told(alloc, engine, place)?;
    let before = engine.evaluations();
    let told = frame(engine)?;
    let changes = engine.changes();
    let still = changes.gone.is_empty() && changes.come.is_empty();
    Some(scratch && still && (told.3, told.4) == (0, 0) && engine.evaluations() == before)
}

/// How many frames of a flight are right: after each change, one.
fn right_frames(alloc: Global, engine: &mut Engine, seed: u64) -> Option<u32> {
    let mut number = seed;
    let mut place = (0, 0, 0);
    let mut right = 0u32;
    for _change in 0..20 {
        number = next(number);
        if !step(engine, number) {
            return None;
        }
        place = place_after(place, number);
        if is_right(alloc, engine, place)? {
            right = right.saturating_add(1);
        }
    }
    Some(right)
}

/// The same of a new engine over flat ground.
fn flight(alloc: Global, seed: u64) -> Option<u32> {
    let grid = grid_with(alloc, 3, &[])?;
    let mut engine = Engine::make(alloc, grid, 40, 1).ok()?;
    right_frames(alloc, &mut engine, seed)
}

#[test]
fn each_frame_of_a_random_flight_is_that_from_scratch(rt: HostRuntime) {
    for seed in 0..100 {
        assert_eq!(rt; flight(rt.alloc(), seed), Some(20), "seed {seed}");
    }
}
