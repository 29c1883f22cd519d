//! The vertices of a row: their lines have one text of y.

ghost use Rattle.std.specs.Prelude.{◌≡◌, ℕ, ◌+◌, ◌*◌, ◌^◌, ◌<◌, ◌≤◌, ◌++◌, length};
ghost use Rattle.mesh_defs.specs.HeightField.{side_of};
ghost use Rattle.mesh_defs.specs.MeshText.{vertex_line};
ghost use Rattle.mesh_defs.specs.declared.level.TheConstants.{GREATEST_LEVEL};
ghost use Rattle.wedgie_tree.specs.declared.wedges.TheConstants.{GREATEST_SPACING};
ghost use Rattle.pgm_grid.specs.declared.grid.TheConstants.{MOST_SIDE};
ghost use Rattle.obj_write.specs.LineView.{mesh_seen};
ghost use Rattle.obj_write.specs.MeshView.{IsView};
ghost use Rattle.obj_write.specs.Row.{IsRow};
ghost use Rattle.obj_write.specs.VertexMarks.{place_point};
ghost use Rattle.obj_write.specs.declared.lines.TheConstants.{LONGEST_LINE};

use crate::field::{Field, field_of};
use crate::line_view::LineView;
use crate::page::Page;
use pgm_grid::side_for;

/// A row of the grid, and the field of its y in world units.
#[derive(Clone, Copy, Debug)]
pub(crate) struct Row {
    y: u32,
    /// The place of its first point.
    pub(crate) start: usize,
    field: Field,
}

/// The lowest row.
pub(crate) fn first_row() -> Row
    ensures row { (n spacing : ℕ) → IsRow n spacing result }
    ensures start { result.start ≡ 0 }
{
    Row {
        y: 0,
        start: 0,
        field: field_of(0),
    }
}

/// Makes the row of an earlier place that of this one.
#[inline(always)]
fn go_to_row(view: &LineView<'_>, row: &mut Row, at: usize)
    requires view { IsView (mesh_seen view.now) }
    requires below { at < side_of view.now.grid.now.n * side_of view.now.grid.now.n }
    requires row { IsRow view.now.grid.now.n view.now.spacing row.old }
    requires before { row.old.start ≤ at }
    ensures row { IsRow view.now.grid.now.n view.now.spacing row.new }
    ensures before { row.new.start ≤ at }
    ensures behind { at < row.new.start + side_of view.now.grid.now.n }
    ensures narrow { side_of view.now.grid.now.n ≤ MOST_SIDE }
{
    let n = view.grid.n();
    if at - row.start >= side_for(n) {
        *row = row_of(n, view.spacing, at);
    }
}

/// The row of a place.
fn row_of(n: u32, spacing: u32, at: usize) -> Row
    requires in_grid { n ≤ GREATEST_LEVEL }
    requires spacing { spacing ≤ GREATEST_SPACING }
    requires below { at < side_of n * side_of n }
    ensures row { IsRow n spacing result }
    ensures before { result.start ≤ at }
    ensures behind { at < result.start + side_of n }
{
    let side = side_for(n);
    let y = at / side;
    Row {
        y: y as u32,
        start: y * side,
        field: field_of(spacing * y as u32),
    }
}

/// Puts the line of the vertex at a place on a page. The row is that of a place before, and then that of this one.
#[inline(always)]
pub(crate) fn put_vertex<const ROOM: usize>(
    view: &LineView<'_>,
    row: &mut Row,
    at: usize,
    page: &mut Page<ROOM>,
)
    requires view { IsView (mesh_seen view.now) }
    requires below { at < side_of view.now.grid.now.n * side_of view.now.grid.now.n }
    requires row { IsRow view.now.grid.now.n view.now.spacing row.old }
    requires before { row.old.start ≤ at }
    requires room { length page.old + LONGEST_LINE ≤ ROOM }
    ensures text { let grid = view.now.grid.now in page.new ≡ page.old
        ++ vertex_line grid.n grid.heights view.now.spacing (place_point grid.n at) }
    ensures short { length page.new ≤ length page.old + LONGEST_LINE }
    ensures row { IsRow view.now.grid.now.n view.now.spacing row.new }
    ensures before { row.new.start ≤ at }
{
    go_to_row(view, row, at);
    let x = (at - row.start) as u32;
    let height = view.grid.height(x, row.y);
    page.push_line(
        b'v',
        &field_of(view.spacing * x),
        &row.field,
        &field_of(u32::from(height)),
    );
}
