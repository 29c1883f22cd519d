//! A mesh as it is to be written, and writing it.

ghost use Rattle.std.specs.Prelude.{◌≡◌, ◌+◌, ◌*◌, ◌<◌, ◌≤◌, ◌++◌, ◌∷◌, [], List, Some, true, false, All, length, OnOk};
ghost use Rattle.std.specs.Prelude.{OnErr};
ghost use Rattle.mesh_defs.specs.Triangle.{level_of};
ghost use Rattle.roam_edge.specs.Fault.{HasCause, IsInTime};
ghost use Rattle.roam_edge.specs.MeshSink.{WrittenMesh};
ghost use Rattle.roam_edge.specs.declared.mesh_sink.TheConstants.{LONGEST_PREFIX, GREATEST_NUMBER};
ghost use Rattle.wedgie_tree.specs.declared.wedges.TheConstants.{GREATEST_SPACING};
ghost use Rattle.obj_write.specs.Numbers.{numbers_of};
ghost use Rattle.obj_write.specs.Page.{Passed, Broken};
ghost use Rattle.obj_write.specs.Written.{mesh_with, Grows, GrowsByPart, IsPartOfMesh};
ghost use Rattle.obj_write.specs.MeshView.{view_text, IsView};

use crate::lines::MeshLines;
use crate::page::{PAGE_ROOM, Page, make_room, write_rest};
use crate::sparse::SparseView;
use bintree_addr::Tri;
use cull_marks::Planes;
use roam_edge::{Failed, MeshSink};
use wedgie_tree::Wedges;

/// A mesh as it is to be written.
#[derive(Clone, Copy)]
pub struct MeshView<'a> {
    /// The grid of heights, with the boxes that marks are decided by.
    pub wedges: &'a Wedges,
    /// The triangles, in the order of their faces.
    pub leaves: &'a [Tri],
    /// The numbers of their vertices, as `number_vertices` gives them.
    pub numbers: &'a [u32],
    /// How many world units a grid step has.
    pub spacing: u32,
    /// The view planes in force.
    pub planes: &'a Planes,
}

/// Writes a whole mesh, named by the prefix and the number.
///
/// The sink gets the text in pieces of at least 8 KiB, but for the last. After a failed call the mesh holds
/// a prefix of its text, and stays unfinished and under way; where it could not be begun, nothing has changed.
/// It is `write_sparse` of a mesh of which no table is there.
/// Cost (not proved): a step for each sixteen places, and a few steps a level and a plane for each leaf.
/// Source: the Wavefront object file format, the lines v, f and g.
pub fn write_mesh<M: MeshSink>(
    view: &MeshView<'_>,
    prefix: &str,
    number: u32,
    out: &mut M,
) -> Result<(), Failed>
    requires levels { All (λ a. level_of a ≤ 2 * view.now.wedges.now.n) view.now.leaves.now }
    requires numbers { view.now.numbers.now ≡ numbers_of view.now.wedges.now.n view.now.leaves.now }
    requires spacing_low { 1 ≤ view.now.spacing }
    requires spacing_high { view.now.spacing ≤ GREATEST_SPACING }
    requires idle { M.under_way out.old ≡ false }
    requires prefix_some { 0 < length prefix.now }
    requires prefix_short { length prefix.now ≤ LONGEST_PREFIX }
    requires number_low { 1 ≤ number }
    requires number_high { number ≤ GREATEST_NUMBER }
    ensures ok { OnOk result (Grows (M.meshes out.old) (M.meshes out.new)
        (mesh_with prefix.now number (view_text view.now) true ∷ [])) }
    ensures idle { OnOk result (M.under_way out.new ≡ false) }
    ensures err { OnErr result ((all : List WrittenMesh) → M.meshes out.old ≡ Some all → (part : List WrittenMesh)
        × IsPartOfMesh prefix.now number (view_text view.now) part × (M.meshes out.new ≡ Some (all ++ part))) }
    // After a failed call a mesh is under way exactly where it was begun: no mesh came, or an unfinished one.
    ensures not_begun { OnErr result (M.under_way out.new ≡ false → M.meshes out.new ≡ M.meshes out.old) }
    ensures begun { OnErr result (M.under_way out.new ≡ true → GrowsByPart (M.meshes out.old) (M.meshes out.new)
        prefix.now number (view_text view.now)) }
    ensures faults { HasCause (M.faults out.old) (M.faults out.new) result }
    ensures in_time { IsInTime (M.late out.old) (M.faults out.old) (M.late out.new) }
{
    write_sparse(&SparseView::new(*view), prefix, number, out)
}

/// The same of a mesh with a table.
///
/// Cost (not proved): a look at one flag in 64 places, a step for each sixteen places where a flag is set, and a few
/// steps a level and a plane for each leaf.
pub fn write_sparse<M: MeshSink>(
    view: &SparseView<'_>,
    prefix: &str,
    number: u32,
    out: &mut M,
) -> Result<(), Failed>
    requires levels { All (λ a. level_of a ≤ 2 * view.now.wedges.now.n) view.now.leaves.now }
    requires numbers { view.now.numbers.now ≡ numbers_of view.now.wedges.now.n view.now.leaves.now }
    requires spacing_low { 1 ≤ view.now.spacing }
    requires spacing_high { view.now.spacing ≤ GREATEST_SPACING }
    requires idle { M.under_way out.old ≡ false }
    requires prefix_some { 0 < length prefix.now }
    requires prefix_short { length prefix.now ≤ LONGEST_PREFIX }
    requires number_low { 1 ≤ number }
    requires number_high { number ≤ GREATEST_NUMBER }
    ensures ok { OnOk result (Grows (M.meshes out.old) (M.meshes out.new)
        (mesh_with prefix.now number (view_text view.now) true ∷ [])) }
    ensures idle { OnOk result (M.under_way out.new ≡ false) }
    ensures err { OnErr result ((all : List WrittenMesh) → M.meshes out.old ≡ Some all → (part : List WrittenMesh)
        × IsPartOfMesh prefix.now number (view_text view.now) part × (M.meshes out.new ≡ Some (all ++ part))) }
    // After a failed call a mesh is under way exactly where it was begun: no mesh came, or an unfinished one.
    ensures not_begun { OnErr result (M.under_way out.new ≡ false → M.meshes out.new ≡ M.meshes out.old) }
    ensures begun { OnErr result (M.under_way out.new ≡ true → GrowsByPart (M.meshes out.old) (M.meshes out.new)
        prefix.now number (view_text view.now)) }
    ensures faults { HasCause (M.faults out.old) (M.faults out.new) result }
    ensures in_time { IsInTime (M.late out.old) (M.faults out.old) (M.late out.new) }
{
    out.begin(prefix, number)?;
    let mut page = Page::new();
    write_lines(view, &mut page, out)?;
    write_rest(&page, out)?;
    out.finish()
}

/// Writes the lines of the mesh.
fn write_lines<M: MeshSink>(
    view: &SparseView<'_>,
    page: &mut Page<PAGE_ROOM>,
    out: &mut M,
) -> Result<(), Failed>
    requires view { IsView view.now }
    requires under_way { M.under_way out.old ≡ true }
    ensures ok { OnOk result (Passed (M.meshes out.old) (M.meshes out.new) page.old page.new
        (view_text view.now)) }
    ensures err { OnErr result (Broken (M.meshes out.old) (M.meshes out.new)
        (page.old ++ view_text view.now)) }
    ensures under_way { M.under_way out.new ≡ true }
    ensures faults { HasCause (M.faults out.old) (M.faults out.new) result }
    ensures in_time { IsInTime (M.late out.old) (M.faults out.old) (M.late out.new) }
{
    let mut lines = MeshLines::new(view.copy());
    make_room(page, out)?;
    'lines: while lines.put_next(page) {
        make_room(page, out)?;
    }
    Ok(())
}
