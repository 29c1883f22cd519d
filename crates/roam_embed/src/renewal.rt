//! Frames that are counted from 0 on again.

ghost use Rattle.roam_embed.specs.Renewal.{IsEngineRenewed};

use crate::answer::Answer;
use frame_loop::Engine;

/// Counts frames from 0 on again, for an engine that has made 1,000,000. All else stays.
pub fn renew_engine(engine: &mut Engine) -> Answer
    ensures { IsEngineRenewed engine.old engine.new result }
{
    if engine.renew() {
        Answer::Done
    } else {
        Answer::Worn
    }
}
