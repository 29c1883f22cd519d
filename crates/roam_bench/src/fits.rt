//! Meshes by their error, of generated heights.

ghost use Rattle.std.specs.Prelude.{◌≡◌, ◌≤◌};
ghost use Rattle.mesh_defs.specs.declared.level.TheConstants.{GREATEST_LEVEL};

use address_flags::centred_at;
use bintree_addr::{Point, Tri};
use fit_mesh::{Fit, are_splittable};
use mesh_defs::NoMemory;
use pgm_grid::Grid;
use roam_gen::gen_grid;
use std::alloc::Global;

/// The level of the grid, of side 2,049.
const LEVEL: u32 = 11;

/// 20 units of height, times 2^n.
const TOLERANCE: u32 = 20 * 2048;

/// How many points are to be vertices.
const POINTS: u32 = 1000;

/// Which mesh is made of the grid.
#[derive(Clone, Copy)]
pub enum Mesh {
    /// None: the grid, the room and what is asked for.
    None,
    /// The fewest triangles for the tolerance.
    Frame,
    /// The same by the call that takes required triangles.
    Nothing,
    /// With the points as vertices.
    Points,
    /// With the tolerance as that of each point.
    Own,
}

/// Makes the grid, the room and the mesh. Counts one call and the triangles.
pub fn fitted(alloc: Global, mesh: Mesh) -> (u32, u32) {
    match made(alloc, mesh) {
        Ok(triangles) => (1, triangles),
        Err(NoMemory) => (0, 0),
    }
}

/// The same, where there is memory: the triangles.
fn made(alloc: Global, mesh: Mesh) -> Result<u32, NoMemory> {
    let grid = gen_grid(alloc, LEVEL, 1)?;
    let mut fit = Fit::make(alloc, grid.n(), u32::MAX)?;
    let required = points(alloc, grid.n())?;
    let tolerances = vec![in alloc; TOLERANCE; grid.side() * grid.side()]?;
    Ok(mesh_of(&mut fit, &grid, &required, &tolerances, mesh))
}

/// The triangles whose centres points without order are.
fn points(alloc: Global, n: u32) -> Result<Vec<Tri>, NoMemory>
    requires in_grid { (1 ≤ n) × (n ≤ GREATEST_LEVEL) }
{
    let mut triangles = Vec::new(alloc);
    let mut number = 1u32;
    for _ in 0..POINTS {
        number = number.wrapping_mul(1664525).wrapping_add(1013904223);
        let (x, y) = (number >> 10 & 2047, number >> 21);
        let intervals = 1 << n;
        if x <= intervals
            && y <= intervals
            && let Some(t) = centred_at(n, Point { x, y })
        {
            triangles.push(t)?;
        }
    }
    Ok(triangles)
}

/// How many triangles the mesh has.
fn mesh_of(fit: &mut Fit, grid: &Grid, required: &[Tri], tolerances: &[u32], mesh: Mesh) -> u32
    requires grid { grid.now.n ≡ fit.old.n }
{
    match mesh {
        Mesh::None => 0,
        Mesh::Frame => fit.frame(grid, TOLERANCE).triangles,
        Mesh::Nothing => fit.frame_with(grid, TOLERANCE, &[]).triangles,
        Mesh::Points if are_splittable(grid.n(), required) => {
            fit.frame_with(grid, TOLERANCE, required).triangles
        }
        Mesh::Own if tolerances.len() == grid.side() * grid.side() => {
            fit.frame_within(grid, tolerances, &[]).triangles
        }
        _ => 0,
    }
}
