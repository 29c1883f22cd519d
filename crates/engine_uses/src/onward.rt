//! A flight that goes on for as long as an engine lasts.

ghost use Rattle.std.specs.Prelude.{◌≡◌, ◌↔◌, ◌+◌, ◌<◌, ◌≤◌, ◌^◌, IsTrue, false, IsNone, IfSome};
ghost use Rattle.mesh_defs.specs.declared.counters.TheConstants.{LONGEST_WAY};
ghost use Rattle.mesh_defs.specs.State.{with_camera};
ghost use Rattle.frame_loop.specs.declared.limits.TheConstants.{MOST_FRAMES};
ghost use Rattle.frame_loop.specs.Engine.{mesh_seen};
ghost use Rattle.engine_uses.specs.Best.{IsBestSeen};
ghost use Rattle.engine_uses.specs.Worn.{IsWorn};

use crate::flight::frame_from;
use crate::step::Sight;
use frame_loop::{Camera, Engine, LONGEST_WAY, MOST_FRAMES};

/// From here one more move, of at most 2^33, is no longer than the longest way.
const LAST_WAY: u64 = LONGEST_WAY - (1 << 33);

/// Goes to a place and makes a frame; None where the engine is worn, which is then as before.
///
/// An engine that has made all its frames is renewed first, and its mesh stays. It is worn only where its camera has
/// gone nearly 2^62 units, or where it has made all its frames and counted more than 2^60 splits, merges or evaluations:
/// in many thousands of years, as a viewer calls it.
pub fn go_on(engine: &mut Engine, place: Camera) -> Option<Sight>
    ensures best { IfSome result (λ sight.
        IsBestSeen (with_camera place engine.old.state) (mesh_seen engine.new) sight) }
    ensures state { IfSome result (λ sight. engine.new.state ≡ with_camera place engine.old.state) }
    ensures worn { IsNone result ↔ IsWorn engine.old }
    ensures kept { IsNone result → engine.new ≡ engine.old }
{
    if renew_in_time(engine) {
        Some(frame_from(engine, place))
    } else {
        None
    }
}

/// Renews the engine where it has made all its frames, and tells whether there may be a further move and a frame.
fn renew_in_time(engine: &mut Engine) -> bool
    ensures near { IsTrue result → engine.new.odometer + 2 ^ 33 ≤ LONGEST_WAY }
    ensures some { IsTrue result → engine.new.frames < MOST_FRAMES }
    ensures state { engine.new.state ≡ engine.old.state }
    ensures worn { result ≡ false ↔ IsWorn engine.old }
    ensures kept { result ≡ false → engine.new ≡ engine.old }
{
    if engine.odometer() > LAST_WAY {
        return false;
    }
    engine.frames() < MOST_FRAMES || engine.renew()
}
