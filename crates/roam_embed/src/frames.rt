//! Frames, and how an engine stands.

ghost use Rattle.std.specs.Prelude.{◌≡◌};
ghost use Rattle.roam_embed.specs.Told.{note_of, standing_of};
ghost use Rattle.roam_embed.specs.Calls.{IsFrameMade};

use crate::answer::Answer;
use crate::notes::{Frame, Standing};
use frame_loop::{Engine, FrameNote, MOST_FRAMES};

/// Makes the mesh of the state, and tells of it.
///
/// Cost (not proved): that of `Engine::frame`.
pub fn make_frame(engine: &mut Engine, out: &mut Frame) -> Answer
    ensures { IsFrameMade engine.old engine.new out.old out.new result }
{
    if engine.frames() >= MOST_FRAMES {
        return Answer::Worn;
    }
    let note = engine.frame();
    *out = frame_of(&note);
    Answer::Done
}

/// A note, by numbers alone.
fn frame_of(note: &FrameNote) -> Frame
    ensures note { note_of result ≡ note.now }
    ensures unneeded { result.blocking ≡ 0 → result.need ≡ 0 }
    ensures spare { result.spare ≡ 0 }
{
    let (blocking, need) = match note.blocked {
        Some(b) => (b.tri.number(), b.need),
        None => (0, 0),
    };
    Frame {
        worst: note.worst,
        triangles: note.triangles,
        vertices: note.vertices,
        splits: note.splits,
        merges: note.merges,
        blocking,
        need,
        inside: note.inside,
        cut: note.cut,
        outside: note.outside,
        spare: 0,
    }
}

/// Tells how an engine stands.
pub fn tell_standing(engine: &Engine, out: &mut Standing) -> Answer
    ensures done { result ≡ Answer.Done }
    ensures told { out.new ≡ standing_of engine.now }
{
    *out = Standing {
        side: engine.grid().side(),
        way: engine.odometer(),
        evaluations: engine.evaluations(),
        frames: engine.frames(),
        most: engine.most(),
        budget: engine.budget_in_force(),
        planes: engine.planes(),
    };
    Answer::Done
}
