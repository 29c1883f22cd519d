//! A mesh as plain numbers in a caller's arrays.

ghost use Rattle.std.specs.Prelude.{◌≡◌, ◌+◌, ◌*◌, ◌^◌, ◌<◌, ◌≤◌, ◌++◌, true, All, IfSome, length, take, drop};
ghost use Rattle.mesh_defs.specs.HeightField.{side_of};
ghost use Rattle.mesh_defs.specs.Triangle.{level_of, corners_of};
ghost use Rattle.mesh_defs.specs.MeshText.{vertices_of};
ghost use Rattle.mesh_defs.specs.declared.level.TheConstants.{GREATEST_LEVEL};
ghost use Rattle.bintree_laws.specs.Corners.{IsInSquare};
ghost use Rattle.wedgie_tree.specs.declared.wedges.TheConstants.{GREATEST_SPACING};
ghost use Rattle.obj_write.specs.Numbers.{numbers_of};
ghost use Rattle.obj_write.specs.LineView.{mesh_seen};
ghost use Rattle.obj_write.specs.MeshView.{IsView, IsShown};
ghost use Rattle.obj_write.specs.Table.{AreFlagged};
ghost use Rattle.obj_write.specs.VertexMarks.{place_point, is_vertex};
ghost use Rattle.obj_write.specs.Arrays.{position_of, positions_of, vertex_place, places_at, places_of};

use crate::line_view::LineView;
use crate::mesh::MeshView;
use crate::scan::first_from;
use crate::sparse::SparseView;
use crate::vertices::place;
use bintree_addr::{Point, Tri};
use pgm_grid::side_for;

/// Writes x, y and z of each vertex into the first places, in the order of their numbers.
///
/// They are the numbers of its `v` line: x and y in world units, z in units of height.
/// Cost (not proved): a look at one flag in 64 places, a step for each sixteen places where a flag is set, and a few
/// for each vertex. Takes no memory.
pub fn write_positions(view: &SparseView<'_>, out: &mut [u32])
    requires levels { All (λ a. level_of a ≤ 2 * view.now.wedges.now.n) view.now.leaves.now }
    requires numbers { view.now.numbers.now ≡ numbers_of view.now.wedges.now.n view.now.leaves.now }
    requires spacing_low { 1 ≤ view.now.spacing }
    requires spacing_high { view.now.spacing ≤ GREATEST_SPACING }
    requires room { 3 * length (vertices_of view.now.wedges.now.n view.now.leaves.now) ≤ length out.old }
    ensures { let grid = view.now.wedges.now in
        out.new ≡ positions_of grid.n grid.heights view.now.spacing view.now.leaves.now
        ++ drop (3 * length (vertices_of grid.n view.now.leaves.now)) out.old }
{
    write_all_positions(&view.mesh, view.used, out);
}

/// The same of the parts of a view.
fn write_all_positions(view: &LineView<'_>, used: Option<&[bool]>, out: &mut [u32])
    requires view { IsView (mesh_seen view.now) }
    requires flagged { IfSome used (λ used. AreFlagged view.now.numbers.now used.now) }
    requires room { 3 * length (vertices_of view.now.grid.now.n view.now.leaves.now) ≤ length out.old }
    ensures { let grid = view.now.grid.now in
        out.new ≡ positions_of grid.n grid.heights view.now.spacing view.now.leaves.now
        ++ drop (3 * length (vertices_of grid.n view.now.leaves.now)) out.old }
{
    let numbers = view.numbers;
    let mut at = 0;
    let mut k = first_from(numbers, used, 0);
    while k < numbers.len() {
        write_position(view, k, out, at);
        at += 3;
        k = first_from(numbers, used, k + 1);
    }
}

/// Writes x, y and z of the point at a place of the grid.
#[tactic(auto, using(bintree_laws::proofs::CornerLemmas::side_small))]
fn write_position(view: &LineView<'_>, k: usize, out: &mut [u32], at: usize)
    requires view { IsView (mesh_seen view.now) }
    requires below { k < side_of view.now.grid.now.n * side_of view.now.grid.now.n }
    requires room { at + 3 ≤ length out.old }
    ensures { let grid = view.now.grid.now in out.new ≡ take at out.old
        ++ position_of grid.n grid.heights view.now.spacing (place_point grid.n k) ++ drop (at + 3) out.old }
{
    let grid = view.grid;
    let vertex = point_at(grid.n(), k);
    let position = [
        scaled(view.spacing, vertex.x),
        scaled(view.spacing, vertex.y),
        u32::from(grid.height(vertex.x, vertex.y)),
    ];
    out[at..at + 3].copy_from_slice(&position);
}

/// The point at a place.
fn point_at(n: u32, at: usize) -> Point
    requires in_grid { n ≤ GREATEST_LEVEL }
    requires below { at < side_of n * side_of n }
    ensures value { result ≡ place_point n at }
    ensures within { IsInSquare (2 ^ n) result }
{
    let side = side_for(n);
    Point {
        x: (at % side) as u32,
        y: (at / side) as u32,
    }
}

/// So many grid steps, in world units.
fn scaled(spacing: u32, steps: u32) -> u32
    requires spacing { spacing ≤ GREATEST_SPACING }
    requires steps { steps ≤ 16384 }
    ensures { result ≡ spacing * steps }
{
    spacing * steps
}

/// Writes the vertices of each triangle into the first places, by their numbers counted from 0: apex, v0 and v1.
///
/// Vertex k of `write_positions` is the one with the number k here.
/// Cost (not proved): a step a level for each triangle. Takes no memory.
pub fn write_places(view: &MeshView<'_>, out: &mut [u32])
    requires levels { All (λ a. level_of a ≤ 2 * view.now.wedges.now.n) view.now.leaves.now }
    requires numbers { view.now.numbers.now ≡ numbers_of view.now.wedges.now.n view.now.leaves.now }
    requires spacing_low { 1 ≤ view.now.spacing }
    requires spacing_high { view.now.spacing ≤ GREATEST_SPACING }
    requires room { 3 * length view.now.leaves.now ≤ length out.old }
    ensures { out.new ≡ places_of view.now.wedges.now.n view.now.leaves.now
        ++ drop (3 * length view.now.leaves.now) out.old }
{
    let mut at = 0;
    for leaf in view.leaves {
        write_corners(view, *leaf, out, at);
        at += 3;
    }
}

/// Writes the vertices of a triangle.
fn write_corners(view: &MeshView<'_>, leaf: Tri, out: &mut [u32], at: usize)
    requires view { IsView view.now }
    requires level { level_of leaf ≤ 2 * view.now.wedges.now.n }
    requires shown { IsShown view.now.wedges.now.n view.now.leaves.now leaf }
    requires room { at + 3 ≤ length out.old }
    ensures { let n = view.now.wedges.now.n in out.new ≡ take at out.old
        ++ places_at (vertices_of n view.now.leaves.now) (corners_of n leaf) ++ drop (at + 3) out.old }
{
    let corners = leaf.corners(view.wedges.grid().n());
    let places = [
        vertex_at(view, corners.apex),
        vertex_at(view, corners.v0),
        vertex_at(view, corners.v1),
    ];
    out[at..at + 3].copy_from_slice(&places);
}

/// The number of a vertex, counted from 0.
fn vertex_at(view: &MeshView<'_>, vertex: Point) -> u32
    requires view { IsView view.now }
    requires within { IsInSquare (2 ^ view.now.wedges.now.n) vertex }
    requires shown { is_vertex view.now.wedges.now.n view.now.leaves.now vertex ≡ true }
    ensures { result ≡ vertex_place (vertices_of view.now.wedges.now.n view.now.leaves.now) vertex }
{
    let place = place(view.wedges.grid().n(), vertex);
    view.numbers[place] - 1
}
