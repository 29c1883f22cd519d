//! An edit under a camera that stands still.

ghost use Rattle.std.specs.Prelude.{◌≡◌, ◌<◌, ◌≤◌, ◌^◌};
ghost use Rattle.mesh_defs.specs.State.{with_height};
ghost use Rattle.frame_loop.specs.declared.limits.TheConstants.{MOST_FRAMES};
ghost use Rattle.frame_loop.specs.Engine.{mesh_seen};
ghost use Rattle.engine_uses.specs.Best.{IsBestSeen};

use crate::step::{Sight, best_frame};
use frame_loop::Engine;

/// Sets a height, and makes a frame: its mesh is a best one of the changed heights.
///
/// Only the triangles that hold the point, and those that are split or merged, are looked at anew.
pub fn set_and_look(engine: &mut Engine, x: u32, y: u32, h: u16) -> Sight
    requires in_columns { x ≤ 2 ^ engine.old.state.grid.n }
    requires in_rows { y ≤ 2 ^ engine.old.state.grid.n }
    requires bounded { h ≤ engine.old.state.grid.maxval }
    requires some { engine.old.frames < MOST_FRAMES }
    ensures state { engine.new.state ≡ with_height x y h engine.old.state }
    ensures best { IsBestSeen engine.new.state (mesh_seen engine.new) result }
{
    engine.set_height(x, y, h);
    best_frame(engine)
}
