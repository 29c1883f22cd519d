//! The search, and what it finds if that is judged to be right.

ghost use Rattle.std.specs.Prelude.{◌≤◌, ◌*◌, All, IfOk, IfSome, length};
ghost use Rattle.mesh_defs.specs.Triangle.{level_of};
ghost use Rattle.tin_mesh.specs.Tin.{IsTin};

use crate::judging::judged;
use crate::start::network_of;
use crate::tin::Tin;
use bintree_addr::Tri;
use mesh_defs::NoMemory;
use pgm_grid::Grid;
use std::alloc::Global;
use tin_search::{Ground, search, taken_from};

/// A mesh of triangles of any shape within an error, in thousandths of a unit of height, of no more triangles than there
/// are leaves, if the search finds one from these, which are a mesh within the error.
///
/// `numbers` has the number of each vertex of the leaves, as `VertexTable` has. The effort is 1 to 9: rounds up to 3,
/// above that kicks beyond the error and back.
/// Cost (not proved): that of `tin_search::search`, and a reading of each grid point. Takes 30 bytes for each triangle
/// of the leaves, 13 MB, and at efforts above 3 as much again for the triangles.
pub fn make_tin(
    alloc: Global,
    grid: &Grid,
    leaves: &[Tri],
    numbers: &[u32],
    thousandths: u32,
    effort: u32,
) -> Result<Option<Tin>, NoMemory>
    requires levels { All (λ a. level_of a ≤ 2 * grid.now.n) leaves.now }
    ensures { IfOk result (λ found. IfSome found (IsTin grid.now thousandths (length leaves.now))) }
{
    let mut network = network_of(alloc, grid, leaves, numbers)?;
    let side = grid.side() as u32;
    let ground = Ground {
        heights: grid.heights(),
        columns: side,
        rows: side,
        thousandths,
    };
    search(alloc, &mut network, &ground, effort)?;
    judged(
        alloc,
        grid,
        taken_from(alloc, &network)?,
        thousandths,
        leaves.len(),
    )
}
