//! The file of a mesh, read from the outside of a run beside the text of the mesh.

ghost use Rattle.std.specs.Prelude.{◌≡◌, ◌≢◌, ◌^◌, ◌<◌, ◌≤◌, ◌+◌, ◌*◌, List, All, IfOk, None, Some, Err, length};
ghost use Rattle.mesh_defs.specs.Triangle.{level_of};
ghost use Rattle.roam_edge.specs.Shelf.{NamedFile, bytes_of};
ghost use Rattle.mesh_compare.specs.Differs.{first_difference};
ghost use Rattle.wedgie_tree.specs.declared.wedges.TheConstants.{GREATEST_SPACING};
ghost use Rattle.run_laws.specs.Fit.{fit_text};
ghost use Rattle.run_laws.specs.Promise.{HasEnded};
ghost use Rattle.run_laws.specs.Leaving.{HasOpened, HasFailed, MeshHasRead};

use bintree_addr::Tri;
use mesh_compare::CompareFault;
use pgm_grid::Grid;
use run_files::Outside;
use std::alloc::Global;

/// Why there is no judgement.
#[derive(Clone, Copy, Debug, PartialEq, Eq)]
pub(crate) enum CheckStop {
    /// Out of memory.
    NoMemory,
    /// A file could not be opened or read.
    Failed,
}

/// Where the mesh's file differs from the text of the mesh of these triangles, if it does.
pub(crate) fn difference<O: Outside>(
    alloc: Global,
    grid: &Grid,
    mesh: &[Tri],
    name: &str,
    spacing: u32,
    outside: &mut O,
) -> Result<Option<u64>, CheckStop>
    requires opens { (O.moment outside.old).shelf.opens ≤ 2 ^ 63 + 3 }
    requires spacing_low { 1 ≤ spacing }
    requires spacing_high { spacing ≤ GREATEST_SPACING }
    requires levels { All (λ a. level_of a ≤ 2 * grid.now.n) mesh.now }
    requires few { length mesh.now < 2 ^ 31 }
    ensures same { O.is_same outside.old outside.new }
    ensures ok { IfOk result (λ found. (files : List NamedFile) → (O.moment outside.old).shelf.files ≡ Some files →
        found ≡ first_difference (fit_text spacing grid.now mesh.now) (bytes_of files name.now)) }
    ensures ended { IfOk result (λ found. found ≡ None → HasEnded (O.moment outside.new).shelf) }
    ensures opened { result ≢ Err CheckStop.Failed → HasOpened (O.moment outside.old) (O.moment outside.new) 1 }
    ensures failed { result ≡ Err CheckStop.Failed → HasFailed (O.moment outside.old) (O.moment outside.new) 1
        name.now (MeshHasRead (fit_text spacing grid.now mesh.now)) }
{
    let Ok(()) = outside.open_named(name) else {
        return Err(CheckStop::Failed);
    };
    match outside.compare_rest(alloc, grid, mesh, spacing) {
        Ok(place) => Ok(place),
        Err(CompareFault::NoMemory) => Err(CheckStop::NoMemory),
        Err(CompareFault::Failed) => Err(CheckStop::Failed),
    }
}
