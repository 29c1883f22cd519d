//! A frame: its mesh, and then its line of the report.

ghost use Rattle.std.specs.Prelude.{◌≡◌, true, ◌≤◌, false, length};
ghost use Rattle.run_words.specs.Words.{as_meshes};
ghost use Rattle.run_laws.specs.Moment.{Does};
ghost use Rattle.run_laws.specs.Outcome.{picture_acts};
ghost use Rattle.mesh_defs.specs.ClosedSet.{IsClosed};
ghost use Rattle.frame_loop.specs.Engine.{is_split, mesh_seen};
ghost use Rattle.run_engine.specs.NoteSeen.{picture_seen, IsNoted};
ghost use Rattle.run_words.specs.ShowView.{IsPrefixLength, show_seen, IsShowing};
ghost use Rattle.run_engine.specs.ShowView.{is_strip, IsMeshNumber};

use crate::report::frame_report;
use crate::shows::{write_measure, write_strip};
use bintree_addr::Tri;
use frame_loop::{Engine, FrameNote};
use obj_write::SparseView;
use roam_edge::Failed;
use run_files::{Outside, show_mesh};
use run_words::Showing;

/// Shows the frame that an engine made last, of which this is the note. A strip is put to the front of the room.
pub(crate) fn show_frame<O: Outside>(
    showing: Showing<'_>,
    engine: &Engine,
    note: &FrameNote,
    room: &mut [Tri],
    outside: &mut O,
) -> Result<(), Failed>
    requires idle { (O.moment outside.old).under_way ≡ false }
    requires showing { IsShowing showing }
    requires number { IsMeshNumber engine.now.frames }
    requires noted { IsNoted engine.now note.now }
    requires closed { IsClosed engine.now.state.grid.n (is_split engine.now) }
    requires room { is_strip showing ≡ true → length (mesh_seen engine.now) ≤ length room.old }
    ensures same { O.is_same outside.old outside.new }
    ensures does { Does (O.moment outside.old) (O.moment outside.new)
        (picture_acts (show_seen showing.entry) engine.now.frames (picture_seen engine.now note.now)) result }
{
    match showing {
        Showing::Meshes(prefix) => write_frame(prefix, engine, note, outside),
        Showing::Strips(prefix) => write_strip(prefix, engine, room, outside),
        Showing::Measures => write_measure(engine, outside),
    }
}

/// Writes the mesh of an engine, and then the line of its last frame. The line comes only after the mesh was finished.
fn write_frame<O: Outside>(
    prefix: &str,
    engine: &Engine,
    note: &FrameNote,
    outside: &mut O,
) -> Result<(), Failed>
    requires idle { (O.moment outside.old).under_way ≡ false }
    requires prefix { IsPrefixLength prefix.now }
    requires number { IsMeshNumber engine.now.frames }
    requires noted { IsNoted engine.now note.now }
    ensures same { O.is_same outside.old outside.new }
    ensures does { Does (O.moment outside.old) (O.moment outside.new)
        (picture_acts (as_meshes prefix.now) engine.now.frames (picture_seen engine.now note.now)) result }
{
    let line = frame_report(engine, note);
    show_mesh(
        &SparseView::by_table(engine.view(), engine.table()),
        prefix,
        engine.frames(),
        line.as_slice(),
        outside,
    )
}
