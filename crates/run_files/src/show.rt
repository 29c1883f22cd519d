//! A mesh, and then its line of the report.

ghost use Rattle.std.specs.Prelude.{◌≡◌, ◌<◌, ◌≤◌, ◌∷◌, [], false, length};
ghost use Rattle.roam_edge.specs.declared.mesh_sink.TheConstants.{LONGEST_PREFIX, GREATEST_NUMBER};
ghost use Rattle.obj_write.specs.MeshView.{view_text, IsView};
ghost use Rattle.run_laws.specs.Act.{WholeMesh, ReportText};
ghost use Rattle.run_laws.specs.Moment.{Does};

use crate::outside::Outside;
use obj_write::SparseView;
use roam_edge::Failed;

/// Writes a whole mesh, and then its line. The line comes only after the mesh was finished.
pub fn show_mesh<O: Outside>(
    view: &SparseView<'_>,
    prefix: &str,
    number: u32,
    line: &[u8],
    outside: &mut O,
) -> Result<(), Failed>
    requires view { IsView view.now }
    requires idle { (O.moment outside.old).under_way ≡ false }
    requires prefix_some { 0 < length prefix.now }
    requires prefix_short { length prefix.now ≤ LONGEST_PREFIX }
    requires number_low { 1 ≤ number }
    requires number_high { number ≤ GREATEST_NUMBER }
    ensures same { O.is_same outside.old outside.new }
    ensures does { Does (O.moment outside.old) (O.moment outside.new)
        (WholeMesh prefix.now number (view_text view.now) ∷ ReportText line.now ∷ []) result }
{
    match outside.write_mesh(view, prefix, number) {
        Ok(()) => outside.tell(line),
        Err(failed) => Err(failed),
    }
}
