//! The lines of the report that tell of an engine's frames.

ghost use Rattle.std.specs.Prelude.{◌≡◌, ◌+◌, ◌≤◌, ◌++◌};
ghost use Rattle.arrayvec.specs.ArrayVec.{array_vec_len};
ghost use Rattle.run_laws.specs.ReportText.{sums_line, blocked_text};
ghost use Rattle.run_files.specs.declared.text.TheConstants.{TEXT_ROOM};
ghost use Rattle.run_engine.specs.NoteSeen.{note_marks, note_line};

use crate::generated::Sums;
use arrayvec::ArrayVec;
use bintree_addr::Blocked;
use frame_loop::{Engine, FrameNote};
use roam_num::{push_bytes, push_number};
use run_files::{Text, push_placed};

/// The line of the last frame of an engine, of which this is the note.
pub(crate) fn frame_report(engine: &Engine, note: &FrameNote) -> Text
    ensures { result.items ≡ note_line engine.now.frames engine.now.state.view.planes note.now }
{
    let mut text = ArrayVec::new();
    push_placed(&mut text, b"frame ", u64::from(engine.frames()));
    push_placed(&mut text, b" triangles ", u64::from(note.triangles));
    push_placed(&mut text, b" vertices ", u64::from(note.vertices));
    push_placed(&mut text, b" worst ", note.worst);
    push_placed(&mut text, b" splits ", u64::from(note.splits));
    push_placed(&mut text, b" merges ", u64::from(note.merges));
    push_bytes(&mut text, b" blocked ");
    push_blocked(&mut text, &note.blocked);
    push_marks(&mut text, engine, note);
    push_bytes(&mut text, b"\n");
    text
}

/// Appends how many triangles have each mark, where a plane is in force.
fn push_marks(text: &mut Text, engine: &Engine, note: &FrameNote)
    requires room { array_vec_len text.old + 180 ≤ TEXT_ROOM }
    ensures items { text.new.items ≡ text.old.items ++ note_marks engine.now.state.view.planes note.now }
    ensures len { array_vec_len text.new ≤ array_vec_len text.old + 180 }
{
    if engine.planes() == 0 {
        return;
    }
    push_placed(text, b" inside ", u64::from(note.inside));
    push_placed(text, b" cut ", u64::from(note.cut));
    push_placed(text, b" outside ", u64::from(note.outside));
}

/// Appends which triangle blocks, and how many triangles the mesh would have with it.
fn push_blocked(text: &mut Text, blocked: &Option<Blocked>)
    requires room { array_vec_len text.old + 80 ≤ TEXT_ROOM }
    ensures items { text.new.items ≡ text.old.items ++ blocked_text blocked.now }
    ensures len { array_vec_len text.new ≤ array_vec_len text.old + 80 }
{
    match blocked {
        None => push_bytes(text, b"none"),
        Some(blocked) => {
            push_number(text, u64::from(blocked.tri.number()));
            push_placed(text, b" needs ", u64::from(blocked.need));
        }
    }
}

/// The line of a generated run.
pub fn try_report(n: u32, seed: u32, sums: &Sums) -> Text
    ensures { result.items ≡ sums_line n seed sums.now.frames sums.now.triangles sums.now.worst sums.now.blocked }
{
    let mut text = ArrayVec::new();
    push_placed(&mut text, b"try ", u64::from(n));
    push_placed(&mut text, b" ", u64::from(seed));
    push_placed(&mut text, b" frames ", u64::from(sums.frames));
    push_placed(&mut text, b" triangles ", sums.triangles);
    push_placed(&mut text, b" worst ", sums.worst);
    push_placed(&mut text, b" blocked ", u64::from(sums.blocked));
    push_bytes(&mut text, b"\n");
    text
}
