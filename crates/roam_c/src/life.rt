//! An engine's beginning and end.

ghost use Rattle.std.specs.Prelude.{◌≡◌, ⊤, None, Some, pos};
ghost use Rattle.frame_loop.specs.Engine.{EngineState};
ghost use Rattle.roam_embed.specs.Calls.{IsOpenAnswer, IsOpened};
ghost use Rattle.roam_c.specs.declared.kept.Kept.{Kept};
ghost use Rattle.roam_c.specs.Handle.{IsNumberOfSome, OnEmpty};

use crate::handle::{Handle, close, hold};
use crate::kept::Kept;
use roam_embed::open_engine;
use std::alloc::Global;

/// Makes an engine over these heights, and lets go of what the handle had. After a refusal the handle is as before.
#[unsafe(no_mangle)]
pub extern "C" fn roam_open(
    alloc: Global,
    h: &mut Handle,
    heights: &[u16],
    budget: u32,
    spacing: u32,
) -> i32
    ensures cause { IsNumberOfSome result (IsOpenAnswer heights.now budget spacing) }
    ensures opened { result ≡ pos 0 → (now : EngineState) × (h.new.value ≡ Some (Kept.Engine now))
        × IsOpened heights.now budget spacing now }
    ensures kept { (result ≡ pos 0 → ⊥) → h.new.value ≡ h.old.value }
{
    match open_engine(alloc, heights, budget, spacing) {
        Ok(engine) => hold(h, Kept::Engine(Box::into_inner(engine)), alloc).number(),
        Err(refusal) => refusal.number(),
    }
}

/// Lets go of the engine. The handle is empty then.
#[unsafe(no_mangle)]
pub extern "C" fn roam_close(alloc: Global, h: &mut Handle) -> i32
    ensures full { (was : EngineState) → h.old.value ≡ Some (Kept.Engine was) →
        (h.new.value ≡ None) × (result ≡ pos 0) }
    ensures empty { OnEmpty h.old.value h.new.value result ⊤ }
{
    close!(Engine, h, alloc)
}
