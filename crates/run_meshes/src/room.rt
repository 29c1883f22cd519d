//! Room to fit a mesh that keeps points.

ghost use Rattle.std.specs.Prelude.{IfOk};
ghost use Rattle.run_meshes.specs.FittedSeen.{IsRoomFor};

use bintree_addr::Tri;
use fit_mesh::Fit;
use mesh_defs::Point;
use pgm_grid::Grid;
use roam_edge::NoMemory;
use roam_script::most_points;
use std::alloc::Global;

/// A grid, and room to fit a mesh to it that keeps as many points as the grid has.
#[derive(Drop)]
pub(crate) struct KeepRoom {
    pub(crate) grid: Grid,
    pub(crate) fit: Fit,
    /// The points that are kept; there are none yet.
    pub(crate) points: Vec<Point>,
    /// The triangles whose centres they are.
    pub(crate) required: Vec<Tri>,
}

impl KeepRoom {
    /// All memory of a fit that keeps points is taken here.
    pub(crate) fn make(alloc: Global, grid: Grid) -> Result<KeepRoom, NoMemory>
        ensures room { IfOk result (λ room. IsRoomFor room grid) }
    {
        let n = grid.n();
        let most = most_points(n) as usize;
        let fit = Fit::make(alloc, n, u32::MAX)?;
        let points = Vec::with_capacity(alloc, most)?;
        let required = Vec::with_capacity(alloc, most)?;
        Ok(KeepRoom {
            grid,
            fit,
            points,
            required,
        })
    }
}
