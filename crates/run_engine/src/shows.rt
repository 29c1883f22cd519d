//! A frame as a strip, or as a line on how far its mesh is from the surface.

ghost use Rattle.std.specs.Prelude.{◌≡◌, ◌*◌, ◌^◌, ◌≤◌, false, length, All};
ghost use Rattle.mesh_defs.specs.Triangle.{level_of};
ghost use Rattle.mesh_defs.specs.ClosedSet.{IsClosed};
ghost use Rattle.wedgie_tree.specs.declared.wedges.TheConstants.{GREATEST_SPACING};
ghost use Rattle.obj_write.specs.Numbers.{numbers_of};
ghost use Rattle.mesh_laws.specs.Strip.{strip_of};
ghost use Rattle.fit_laws.specs.PlaneHeight.{deviation_of, thickest_of};
ghost use Rattle.frame_loop.specs.Engine.{is_split, mesh_seen};
ghost use Rattle.frame_loop.specs.declared.note.FrameNote.{FrameNote as NoteSeen};
ghost use Rattle.run_laws.specs.Moment.{Does};
ghost use Rattle.run_laws.specs.Turns.{left_turns, right_turns};
ghost use Rattle.run_words.specs.Words.{as_strips, as_measures};
ghost use Rattle.run_laws.specs.Outcome.{picture_acts};
ghost use Rattle.run_engine.specs.NoteSeen.{picture_seen};
ghost use Rattle.run_words.specs.ShowView.{IsPrefixLength};
ghost use Rattle.run_engine.specs.ShowView.{IsMeshNumber, strip_numbers, measure_numbers};

use arrayvec::ArrayVec;
use bintree_addr::Tri;
use frame_loop::Engine;
use mesh_measure::{deviation, thickest};
use obj_write::{MeshView, SparseView};
use roam_edge::Failed;
use roam_num::push_bytes;
use run_files::{Outside, Text, push_placed, show_mesh};
use run_laws::turn_count_laws;
use strip_order::{strip, turns};

/// Writes the mesh of an engine as a strip, and then the line of the strip. The line comes only after the mesh was
/// finished.
///
/// The strip is put to the front of the room, which has a place for each triangle.
/// Cost (not proved): that of `strip`, `turns` and `write_mesh`; takes no memory.
pub(crate) fn write_strip<O: Outside>(
    prefix: &str,
    engine: &Engine,
    room: &mut [Tri],
    outside: &mut O,
) -> Result<(), Failed>
    requires idle { (O.moment outside.old).under_way ≡ false }
    requires prefix { IsPrefixLength prefix.now }
    requires number { IsMeshNumber engine.now.frames }
    requires closed { IsClosed engine.now.state.grid.n (is_split engine.now) }
    requires room { length (mesh_seen engine.now) ≤ length room.old }
    ensures same { O.is_same outside.old outside.new }
    ensures does { (note : NoteSeen) → Does (O.moment outside.old) (O.moment outside.new)
        (picture_acts (as_strips prefix.now) engine.now.frames (picture_seen engine.now note)) result }
{
    let count = engine.view().leaves.len();
    let order = &mut room[..count];
    put_strip(engine, order);
    let line = strip_report(engine, order);
    let view = in_order(engine, order);
    show_mesh(&view, prefix, engine.frames(), line.as_slice(), outside)
}

/// Puts the strip of an engine's mesh into room for just as many triangles.
fn put_strip(engine: &Engine, order: &mut [Tri])
    requires closed { IsClosed engine.now.state.grid.n (is_split engine.now) }
    requires room { length order.old ≡ length (mesh_seen engine.now) }
    ensures { order.new ≡ strip_of engine.now.state.grid.n (is_split engine.now) }
{
    let _level = engine.grid().n();
    strip(engine.view().leaves, order);
}

/// The mesh of an engine, with its triangles in the order of their strip.
fn in_order<'a>(engine: &'a Engine, order: &'a [Tri]) -> SparseView<'a>
    requires order { order.now ≡ strip_of engine.now.state.grid.n (is_split engine.now) }
    ensures leaves { result.leaves.now ≡ order.now }
    ensures wedges { result.wedges.now ≡ engine.now.state.grid }
    ensures planes { result.planes.now ≡ engine.now.state.view.planes }
    ensures spacing { result.spacing ≡ engine.now.state.view.spacing }
    ensures numbers { result.numbers.now ≡ numbers_of engine.now.state.grid.n order.now }
    ensures levels { All (λ a. level_of a ≤ 2 * engine.now.state.grid.n) order.now }
    ensures spacing_low { 1 ≤ result.spacing }
    ensures spacing_high { result.spacing ≤ GREATEST_SPACING }
{
    let view = engine.view();
    let mesh = MeshView {
        wedges: view.wedges,
        leaves: order,
        numbers: view.numbers,
        spacing: view.spacing,
        planes: view.planes,
    };
    SparseView::by_table(mesh, engine.table())
}

/// The line of the strip of an engine's last frame.
fn strip_report(engine: &Engine, order: &[Tri]) -> Text
    requires closed { IsClosed engine.now.state.grid.n (is_split engine.now) }
    requires order { order.now ≡ strip_of engine.now.state.grid.n (is_split engine.now) }
    ensures { let n = engine.now.state.grid.n in
        result.items
        ≡ strip_numbers engine.now.frames (length order.now) (left_turns n order.now) (right_turns n order.now) }
{
    turn_count_laws();
    let turned = turns(order, engine.grid().n());
    strip_text(
        engine.frames(),
        order.len() as u64,
        turned.left,
        turned.right,
    )
}

/// The line of a strip.
fn strip_text(number: u32, triangles: u64, left: u32, right: u32) -> Text
    ensures { result.items ≡ strip_numbers number triangles left right }
{
    let mut text = ArrayVec::new();
    push_placed(&mut text, b"strip ", u64::from(number));
    push_placed(&mut text, b" triangles ", triangles);
    push_placed(&mut text, b" left ", u64::from(left));
    push_placed(&mut text, b" right ", u64::from(right));
    push_bytes(&mut text, b"\n");
    text
}

/// Writes the line on how far the mesh of an engine is from the surface.
///
/// Cost (not proved): that of `deviation`; takes no memory.
pub(crate) fn write_measure<O: Outside>(engine: &Engine, outside: &mut O) -> Result<(), Failed>
    requires closed { IsClosed engine.now.state.grid.n (is_split engine.now) }
    ensures same { O.is_same outside.old outside.new }
    ensures does { (note : NoteSeen) → Does (O.moment outside.old) (O.moment outside.new)
        (picture_acts as_measures engine.now.frames (picture_seen engine.now note)) result }
{
    outside.tell(measure_report(engine).as_slice())
}

/// The line on how far the mesh of an engine is from the surface.
fn measure_report(engine: &Engine) -> Text
    requires closed { IsClosed engine.now.state.grid.n (is_split engine.now) }
    ensures { let grid = engine.now.state.grid in
        result.items
        ≡ measure_numbers engine.now.frames (deviation_of grid.n grid.heights (mesh_seen engine.now)) (2 ^ grid.n)
        (thickest_of grid.n grid.heights (mesh_seen engine.now)) }
{
    let view = engine.view();
    let off = deviation(view.wedges, view.leaves);
    let thick = thickest(view.wedges, view.leaves);
    measure_text(engine.frames(), off, 1 << engine.grid().n(), thick)
}

/// The line of a measure.
fn measure_text(number: u32, off: u64, over: u64, thick: u32) -> Text
    ensures { result.items ≡ measure_numbers number off over thick }
{
    let mut text = ArrayVec::new();
    push_placed(&mut text, b"measure ", u64::from(number));
    push_placed(&mut text, b" deviation ", off);
    push_placed(&mut text, b" over ", over);
    push_placed(&mut text, b" thickness ", u64::from(thick));
    push_bytes(&mut text, b"\n");
    text
}
