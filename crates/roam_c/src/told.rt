//! Frames, and how an engine stands.

ghost use Rattle.std.specs.Prelude.{◌≡◌, Some, pos, length};
ghost use Rattle.mesh_defs.specs.State.{priority_in};
ghost use Rattle.mesh_defs.specs.BestMesh.{IsBestMesh};
ghost use Rattle.frame_loop.specs.Changes.{AreChangesOf};
ghost use Rattle.frame_loop.specs.Engine.{EngineState, mesh_seen};
ghost use Rattle.roam_embed.specs.Told.{standing_of};
ghost use Rattle.roam_embed.specs.declared.answer.Answer.{Answer};
ghost use Rattle.roam_embed.specs.Calls.{IsFrameMade};
ghost use Rattle.roam_c.specs.declared.kept.Kept.{Kept};
ghost use Rattle.roam_c.specs.Handle.{OnFull, OnEmpty};

use crate::handle::{Handle, on};
use roam_embed::{Frame, Standing, make_frame, tell_standing};
use std::alloc::Global;

/// Makes the mesh of what stands now, and tells of it.
#[unsafe(no_mangle)]
pub extern "C" fn roam_frame(alloc: Global, h: &mut Handle, out: &mut Frame) -> i32
    ensures full { OnFull h.old.value h.new.value result (λ was now answer.
        IsFrameMade was now out.old out.new answer) }
    ensures empty { OnEmpty h.old.value h.new.value result (out.new ≡ out.old) }
    ensures best { (now : EngineState) → h.new.value ≡ Some (Kept.Engine now) → result ≡ pos 0 →
        IsBestMesh now.state.grid.n now.state.budget (priority_in now.state) (mesh_seen now) }
    ensures triangles { (now : EngineState) → h.new.value ≡ Some (Kept.Engine now) → result ≡ pos 0 →
        out.new.triangles ≡ length (mesh_seen now) }
    ensures changes { (was now : EngineState) → h.old.value ≡ Some (Kept.Engine was) → h.new.value ≡ Some (Kept.Engine now) → result ≡ pos 0 →
        AreChangesOf (mesh_seen was) (mesh_seen now) now.changes }
{
    on!(Engine, h, alloc, |engine| make_frame(engine, out))
}

/// Tells how an engine stands.
#[unsafe(no_mangle)]
pub extern "C" fn roam_state(alloc: Global, h: &mut Handle, out: &mut Standing) -> i32
    ensures full { OnFull h.old.value h.new.value result (λ was now answer.
        (now ≡ was) × (answer ≡ Answer.Done) × (out.new ≡ standing_of was)) }
    ensures empty { OnEmpty h.old.value h.new.value result (out.new ≡ out.old) }
{
    on!(Engine, h, alloc, |engine| tell_standing(engine, out))
}
