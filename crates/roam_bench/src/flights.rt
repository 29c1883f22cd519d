//! Flights of an engine over made heights: its tables, the first frame, and the frames behind it.

ghost use Rattle.std.specs.Prelude.{◌≡◌, ◌+◌, ◌<◌, ◌≤◌, IfSome, OnOk};
ghost use Rattle.mesh_defs.specs.declared.level.TheConstants.{GREATEST_FILE_LEVEL};
ghost use Rattle.triangle_pool.specs.declared.pool.TheConstants.{MOST_LEAVES};
ghost use Rattle.draw_buffer.specs.Buffer.{BufferState};
ghost use Rattle.engine_uses.specs.Step.{IsInStep, IsBehind};
ghost use Rattle.roam_bench.specs.Flights.{IsFlight};

use crate::drawing::fly_and_draw;
use crate::gauge::SPACING;
use crate::sums::{Flown, Sum};
use engine_uses::best_frame;
use frame_loop::{Camera, Engine, Grid, NoMemory, Plane, Planes};
use roam_gen::gen_grid;
use std::alloc::Global;
use std::io;
use std::time::Instant;

/// The seed of the heights.
const SEED: u32 = 1;

/// How high the cameras are, in world units.
const HEIGHT: i64 = 40_000;

/// The frames behind the first one.
pub const LATER: u32 = 10;

/// The greatest level, budget and step.
const HIGHEST: (u32, u32, u32) = (11, 1 << 20, 10_000);

/// What is done beside each frame, and timed by itself.
#[derive(Clone, Copy, PartialEq, Eq)]
pub enum Beside {
    /// Nothing.
    Nothing,
    /// The planes turn by a degree before it.
    Look,
    /// A drawing buffer is patched behind it.
    Patch,
}

/// A flight over the grid of a level.
#[derive(Clone, Copy)]
pub struct Flight {
    n: u32,
    /// The most triangles of a mesh.
    budget: u32,
    /// How far the camera moves between two frames, in world units.
    step: u32,
    /// What is done beside each frame.
    beside: Beside,
}

/// Each word with its level, budget, step, and what is done beside each frame.
const FLIGHTS: [(&str, u32, u32, u32, Beside); 17] = [
    ("fly_9_20000_0", 9, 20_000, 0, Beside::Nothing),
    ("fly_9_20000_30", 9, 20_000, 30, Beside::Nothing),
    ("fly_9_20000_602", 9, 20_000, 602, Beside::Nothing),
    ("fly_11_20000_0", 11, 20_000, 0, Beside::Nothing),
    ("fly_11_20000_30", 11, 20_000, 30, Beside::Nothing),
    ("fly_11_20000_2409", 11, 20_000, 2409, Beside::Nothing),
    ("fly_11_100000_30", 11, 100_000, 30, Beside::Nothing),
    ("fly_11_100000_2409", 11, 100_000, 2409, Beside::Nothing),
    ("fly_11_1048576_30", 11, 1_048_576, 30, Beside::Nothing),
    ("look_9_20000_30", 9, 20_000, 30, Beside::Look),
    ("look_11_20000_30", 11, 20_000, 30, Beside::Look),
    ("look_11_100000_30", 11, 100_000, 30, Beside::Look),
    ("draw_9_20000_30", 9, 20_000, 30, Beside::Patch),
    ("draw_9_20000_602", 9, 20_000, 602, Beside::Patch),
    ("draw_11_20000_30", 11, 20_000, 30, Beside::Patch),
    ("draw_11_20000_2409", 11, 20_000, 2409, Beside::Patch),
    ("draw_11_100000_30", 11, 100_000, 30, Beside::Patch),
];

/// The flight of a word, if it has one: what is done beside, level, budget and step, as `fly_9_20000_30`.
pub fn flight_of(word: &str) -> Option<Flight>
    ensures { IfSome result IsFlight }
{
    for (name, n, budget, step, beside) in &FLIGHTS {
        if *name == word {
            return Flight::new(*n, *budget, *step, *beside);
        }
    }
    None
}

impl Flight {
    /// A flight, where an engine takes its level, budget and step.
    fn new(n: u32, budget: u32, step: u32, beside: Beside) -> Option<Flight>
        ensures { IfSome result IsFlight }
    {
        if n < 1 || n > HIGHEST.0 || budget < 2 || budget > HIGHEST.1 || step > HIGHEST.2 {
            return None;
        }
        Some(Flight {
            n,
            budget,
            step,
            beside,
        })
    }
}

/// Makes heights and an engine, and times its frames; None where memory runs out.
pub fn fly(rt: &HostRuntime, flight: Flight) -> io::Result<Option<Flown>>
    requires { IsFlight flight }
{
    let Ok(grid) = gen_grid(rt.alloc(), flight.n, SEED) else {
        return Ok(None);
    };
    let start = Instant::now(rt)?;
    match on_heap(rt.alloc(), grid, flight.budget) {
        Ok(mut engine) => fly_on(rt, &mut engine, flight, start),
        Err(_) => Ok(None),
    }
}

/// An engine on the heap, which is cheaper to prove than one that a function with several exits owns.
fn on_heap(alloc: Global, grid: Grid, budget: u32) -> Result<Box<Engine>, NoMemory>
    requires some { 2 ≤ budget }
    requires few { budget ≤ MOST_LEAVES }
{
    let engine = Engine::make(alloc, grid, budget, SPACING)?;
    Ok(Box::new(alloc, engine)?)
}

/// Times the frames of an engine that began to be made at the start.
fn fly_on(
    rt: &HostRuntime,
    engine: &mut Engine,
    flight: Flight,
    start: Instant,
) -> io::Result<Option<Flown>>
    requires { IsFlight flight }
{
    let flown = Flown::none(start.elapsed(rt)?.as_secs_f64());
    match flight.beside {
        Beside::Patch => fly_and_draw(rt, engine, flight, flown),
        Beside::Nothing | Beside::Look => Ok(Some(fly_alone(rt, engine, flight, flown)?)),
    }
}

/// Times all frames.
fn fly_alone(
    rt: &HostRuntime,
    engine: &mut Engine,
    flight: Flight,
    flown: Flown,
) -> io::Result<Flown>
    requires { IsFlight flight }
{
    let mut flown = flown;
    for k in 0..=LATER {
        let beside = move_on(rt, engine, flight, k)?;
        if engine.frames() < 1_000_000 {
            let frame = timed_frame(rt, engine)?;
            flown = flown.and(k, frame, beside);
        }
    }
    Ok(flown)
}

/// Moves the camera to its place of the k-th frame, and turns the planes where they turn. Times the turn.
fn move_on(rt: &HostRuntime, engine: &mut Engine, flight: Flight, k: u32) -> io::Result<Sum>
    requires flight { IsFlight flight }
    requires steps { k ≤ LATER }
{
    go_on(engine, flight, k);
    if flight.beside != Beside::Look {
        return Ok(Sum::none());
    }
    let planes = planes_at(flight, k);
    let start = Instant::now(rt)?;
    engine.look(&planes);
    Ok(Sum {
        count: 1,
        seconds: start.elapsed(rt)?.as_secs_f64(),
        ..Sum::none()
    })
}

/// Moves the camera to its place of the k-th frame.
pub fn go_on(engine: &mut Engine, flight: Flight, k: u32)
    requires flight { IsFlight flight }
    requires steps { k ≤ LATER }
    ensures frames { engine.new.frames ≡ engine.old.frames }
    ensures step { (b : BufferState) → IsInStep engine.old b → IsInStep engine.new b }
{
    if let Some(camera) = camera_at(flight, k) {
        go_to(engine, camera);
    }
}

/// Moves the camera to a place, if it may go so far. The mesh stays.
fn go_to(engine: &mut Engine, camera: Camera)
    ensures frames { engine.new.frames ≡ engine.old.frames }
    ensures step { (b : BufferState) → IsInStep engine.old b → IsInStep engine.new b }
{
    if engine.odometer().saturating_add(engine.way_to(camera)) <= 1 << 62 {
        engine.camera(camera);
    }
}

/// Times a frame, behind which a buffer that was in step is behind.
pub fn timed_frame(rt: &HostRuntime, engine: &mut Engine) -> io::Result<Sum>
    requires some { engine.old.frames < 1000000 }
    ensures behind { OnOk result ((b : BufferState) →
        IsInStep engine.old b → IsBehind engine.new b) }
{
    let asked = engine.evaluations();
    let start = Instant::now(rt)?;
    let sight = best_frame(engine);
    Ok(Sum {
        count: 1,
        seconds: start.elapsed(rt)?.as_secs_f64(),
        calls: engine.evaluations().saturating_sub(asked),
        found: u64::from(sight.splits) + u64::from(sight.merges),
    })
}

/// The camera a third along the grid, half across it, and so many steps on along x.
fn camera_at(flight: Flight, steps: u32) -> Option<Camera>
    requires flight { IsFlight flight }
    requires steps { steps ≤ LATER }
{
    let place = place_at(flight, steps);
    Camera::new(place.0, place.1, HEIGHT)
}

/// Where it is over the grid.
fn place_at(flight: Flight, steps: u32) -> (i64, i64)
    requires flight { IsFlight flight }
    requires steps { steps ≤ LATER }
{
    let width = SPACING << flight.n;
    let x = i64::from(width / 3) + i64::from(steps * flight.step);
    (x, i64::from(width / 2))
}

/// A million times the cosine of a degree, and its sine.
const DEGREE: (i64, i64) = (999_848, 17_452);

/// The two sides of a view that has turned by so many degrees, each 30 degrees from its middle, through the camera's
/// place.
fn planes_at(flight: Flight, steps: u32) -> Planes
    requires flight { IsFlight flight }
    requires steps { steps ≤ LATER }
{
    let place = place_at(flight, steps);
    let mut planes = Planes::none();
    if let Some(right) = side_at(place, (500_000, 866_025), steps) {
        planes.add(right);
    }
    if let Some(left) = side_at(place, (500_000, -866_025), steps) {
        if planes.len() < 6 {
            planes.add(left);
        }
    }
    planes
}

/// The plane through a place whose inside lies to this way, turned by so many degrees.
fn side_at(place: (i64, i64), way: (i64, i64), degrees: u32) -> Option<Plane> {
    let mut way = way;
    for _ in 0..degrees {
        way = (
            scaled(way.0, DEGREE.0).saturating_sub(scaled(way.1, DEGREE.1)),
            scaled(way.0, DEGREE.1).saturating_add(scaled(way.1, DEGREE.0)),
        );
    }
    let along = way.0.saturating_mul(place.0);
    let across = way.1.saturating_mul(place.1);
    Plane::new(
        way.0,
        way.1,
        0,
        0i64.saturating_sub(along.saturating_add(across)),
    )
}

/// A millionth of a product.
fn scaled(number: i64, by: i64) -> i64 {
    number.saturating_mul(by) / 1_000_000
}
