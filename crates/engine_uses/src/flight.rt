//! A flight over terrain.

ghost use Rattle.std.specs.Prelude.{◌≡◌, ◌+◌, ◌<◌, ◌≤◌, ◌^◌, length, IfOk};
ghost use Rattle.mesh_defs.specs.declared.counters.TheConstants.{LONGEST_WAY};
ghost use Rattle.mesh_defs.specs.State.{with_camera};
ghost use Rattle.triangle_pool.specs.declared.pool.TheConstants.{MOST_LEAVES};
ghost use Rattle.frame_loop.specs.declared.limits.TheConstants.{MOST_FRAMES};
ghost use Rattle.frame_loop.specs.Engine.{mesh_seen};
ghost use Rattle.engine_uses.specs.Best.{AreBestFrom, IsBestSeen};

use crate::step::{Sight, best_frame};
use frame_loop::{Camera, Engine, Grid, NoMemory};
use std::alloc::Global;

/// Flies over a grid along a path, and answers what is seen from each place. A grid step is one unit long.
///
/// Each frame goes on from the mesh of the frame before. Draw each by `Engine::view`.
pub fn fly(alloc: Global, grid: Grid, budget: u32, path: &[Camera]) -> Result<Vec<Sight>, NoMemory>
    requires some { 2 ≤ budget }
    requires few { budget ≤ MOST_LEAVES }
    requires short { length path.now ≤ MOST_FRAMES }
    ensures best { IfOk result (λ sights. AreBestFrom grid budget path.now sights.items) }
{
    let mut engine = Engine::make(alloc, grid, budget, 1)?;
    let mut sights = Vec::with_capacity(alloc, path.len())?;
    for place in path {
        sights.push(frame_from(&mut engine, *place))?;
    }
    Ok(sights)
}

/// Moves the camera to a place, by at most 2^33, as `way_to` says, and makes a frame.
pub(crate) fn frame_from(engine: &mut Engine, place: Camera) -> Sight
    requires near { engine.old.odometer + 2 ^ 33 ≤ LONGEST_WAY }
    requires some { engine.old.frames < MOST_FRAMES }
    ensures best { IsBestSeen (with_camera place engine.old.state) (mesh_seen engine.new) result }
    ensures state { engine.new.state ≡ with_camera place engine.old.state }
    ensures odometer { engine.new.odometer ≤ engine.old.odometer + 2 ^ 33 }
    ensures frames { engine.new.frames ≡ engine.old.frames + 1 }
{
    let _way = engine.way_to(place);
    engine.camera(place);
    best_frame(engine)
}
