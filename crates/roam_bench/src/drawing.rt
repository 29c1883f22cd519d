//! Flights with a drawing buffer, which is patched behind each frame.

ghost use Rattle.std.specs.Prelude.{◌≤◌, OnOk};
ghost use Rattle.engine_uses.specs.Step.{IsInStep, IsBehind};
ghost use Rattle.roam_bench.specs.Flights.{IsFlight};

use crate::flights::{Flight, LATER, go_on, timed_frame};
use crate::sums::{Flown, Sum};
use draw_buffer::DrawBuffer;
use engine_uses::{buffer_of, patch_buffer};
use frame_loop::Engine;
use std::io;
use std::time::Instant;

/// Times all frames, and beside them the patches; None where memory runs out.
pub fn fly_and_draw(
    rt: &HostRuntime,
    engine: &mut Engine,
    flight: Flight,
    flown: Flown,
) -> io::Result<Option<Flown>>
    requires { IsFlight flight }
{
    match buffer_of(rt.alloc(), engine) {
        Ok(mut buffer) => Ok(Some(draw(rt, engine, &mut buffer, flight, flown)?)),
        Err(_) => Ok(None),
    }
}

/// Times all frames, and beside them the patches.
fn draw(
    rt: &HostRuntime,
    engine: &mut Engine,
    buffer: &mut DrawBuffer,
    flight: Flight,
    flown: Flown,
) -> io::Result<Flown>
    requires flight { IsFlight flight }
    requires step { IsInStep engine.old buffer.old }
{
    let mut flown = flown;
    for k in 0..=LATER {
        flown = draw_one(rt, engine, buffer, flight, k, flown)?;
    }
    Ok(flown)
}

/// Times a frame and a patch more, if there may be one.
fn draw_one(
    rt: &HostRuntime,
    engine: &mut Engine,
    buffer: &mut DrawBuffer,
    flight: Flight,
    k: u32,
    flown: Flown,
) -> io::Result<Flown>
    requires flight { IsFlight flight }
    requires steps { k ≤ LATER }
    requires step { IsInStep engine.old buffer.old }
    ensures { OnOk result (IsInStep engine.new buffer.new) }
{
    go_on(engine, flight, k);
    if engine.frames() >= 1_000_000 {
        return Ok(flown);
    }
    let frame = timed_frame(rt, engine)?;
    let patch = timed_patch(rt, engine, buffer)?;
    Ok(flown.and(k, frame, patch))
}

/// Times a patch. Counts the places that were written and the triangles that went or came.
fn timed_patch(rt: &HostRuntime, engine: &Engine, buffer: &mut DrawBuffer) -> io::Result<Sum>
    requires { IsBehind engine.now buffer.old }
    ensures { OnOk result (IsInStep engine.now buffer.new) }
{
    let start = Instant::now(rt)?;
    patch_buffer(engine, buffer);
    let seconds = start.elapsed(rt)?.as_secs_f64();
    let changes = engine.changes();
    Ok(Sum {
        count: 1,
        seconds,
        calls: buffer.written().len() as u64,
        found: (changes.gone.len() as u64).saturating_add(changes.come.len() as u64),
    })
}
