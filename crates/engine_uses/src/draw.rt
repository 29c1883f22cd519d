//! A drawing buffer that stays in step with an engine.

ghost use Rattle.std.specs.Prelude.{◌≡◌, ◌+◌, ◌*◌, ◌^◌, ◌<◌, ◌≤◌, min, max, length, IfOk};
ghost use Rattle.mesh_defs.specs.declared.level.TheConstants.{GREATEST_LEVEL};
ghost use Rattle.draw_buffer.specs.declared.exchange.TheConstants.{MOST_TRIANGLES};
ghost use Rattle.draw_buffer.specs.Buffer.{IsKept};
ghost use Rattle.frame_loop.specs.declared.limits.TheConstants.{MOST_FRAMES};
ghost use Rattle.frame_loop.specs.Engine.{mesh_seen};
ghost use Rattle.engine_uses.specs.Best.{IsBestSeen};
ghost use Rattle.engine_uses.specs.Step.{IsInStep, IsBehind};

use crate::step::{Sight, best_frame};
use draw_buffer::{DrawBuffer, times_laws};
use frame_loop::{Engine, NoMemory};
use mesh_laws::set_leaf_laws;
use std::alloc::Global;

/// A drawing buffer of the engine's mesh, with room for each mesh that the engine may come to.
///
/// Whatever its caller does with the engine between two frames, the buffer stays in step: only a frame changes the
/// mesh.
pub fn buffer_of(alloc: Global, engine: &Engine) -> Result<DrawBuffer, NoMemory>
    ensures step { IfOk result (IsInStep engine.now) }
{
    set_leaf_laws();
    times_laws();
    let n = engine.grid().n();
    let mut buffer = DrawBuffer::make(alloc, n, room(n, engine.most()))?;
    buffer.patch(&[], engine.view().leaves);
    Ok(buffer)
}

/// For how many triangles a buffer has room: for those of the greatest budget, or for all that there can be.
fn room(n: u32, most: u32) -> u32
    requires in_grid { n ≤ GREATEST_LEVEL }
    ensures value { result ≡ min most (2 * 4 ^ n) }
    ensures few { result ≤ MOST_TRIANGLES }
{
    most.min(2 * 4u32.pow(n))
}

/// Makes a frame, and patches the buffer, which is in step with the engine, so that it is so again.
///
/// Hand the graphics card the places that `DrawBuffer::written` tells, and the points of the vertices that
/// `DrawBuffer::given` tells: all else is as it was (`kept`).
pub fn frame_and_patch(engine: &mut Engine, buffer: &mut DrawBuffer) -> Sight
    requires some { engine.old.frames < MOST_FRAMES }
    requires step { IsInStep engine.old buffer.old }
    ensures step { IsInStep engine.new buffer.new }
    ensures best { IsBestSeen engine.old.state (mesh_seen engine.new) result }
    ensures state { engine.new.state ≡ engine.old.state }
    ensures odometer { engine.new.odometer ≡ engine.old.odometer }
    ensures frames { engine.new.frames ≡ engine.old.frames + 1 }
    ensures kept { IsKept buffer.old buffer.new }
    ensures few { length buffer.new.written
        ≤ max (length engine.new.changes.gone) (length engine.new.changes.come) }
{
    let sight = best_frame(engine);
    patch_buffer(engine, buffer);
    sight
}

/// Patches a buffer that shows the mesh before the last frame.
pub fn patch_buffer(engine: &Engine, buffer: &mut DrawBuffer)
    requires behind { IsBehind engine.now buffer.old }
    ensures step { IsInStep engine.now buffer.new }
    ensures kept { IsKept buffer.old buffer.new }
    ensures few { length buffer.new.written
        ≤ max (length engine.now.changes.gone) (length engine.now.changes.come) }
{
    set_leaf_laws();
    times_laws();
    let _few = engine.view();
    let _once = buffer.triangles();
    let changes = engine.changes();
    buffer.patch(changes.gone, changes.come);
}
