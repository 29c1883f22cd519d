//! One frame, and what its caller knows of it.

ghost use Rattle.std.specs.Prelude.{◌≡◌, ◌+◌, ◌<◌};
ghost use Rattle.frame_loop.specs.declared.limits.TheConstants.{MOST_FRAMES};
ghost use Rattle.draw_buffer.specs.Buffer.{BufferState};
ghost use Rattle.frame_loop.specs.Engine.{mesh_seen};
ghost use Rattle.engine_uses.specs.Best.{IsBestSeen};
ghost use Rattle.engine_uses.specs.Step.{IsInStep, IsBehind};

use frame_loop::Engine;

/// What these callers keep of what a frame tells.
#[derive(Clone, Copy, Debug)]
pub struct Sight {
    /// How many triangles the mesh has.
    pub triangles: u32,
    /// The greatest priority of a triangle of the mesh.
    pub worst: u64,
    /// How many triangles were split in the frame.
    pub splits: u32,
    /// How many were merged.
    pub merges: u32,
}

/// Makes a frame. Its mesh is a best one of the state, and a buffer that was in step is to be patched.
pub fn best_frame(engine: &mut Engine) -> Sight
    requires some { engine.old.frames < MOST_FRAMES }
    ensures best { IsBestSeen engine.old.state (mesh_seen engine.new) result }
    ensures state { engine.new.state ≡ engine.old.state }
    ensures odometer { engine.new.odometer ≡ engine.old.odometer }
    ensures frames { engine.new.frames ≡ engine.old.frames + 1 }
    ensures behind { (b : BufferState) → IsInStep engine.old b → IsBehind engine.new b }
{
    let note = engine.frame();
    Sight {
        triangles: note.triangles,
        worst: note.worst,
        splits: note.splits,
        merges: note.merges,
    }
}
