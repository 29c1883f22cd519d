//! The network that the search begins with: a mesh of right triangles.

ghost use Rattle.std.specs.Prelude.{◌≤◌, ◌*◌, All};
ghost use Rattle.mesh_defs.specs.Triangle.{level_of};
ghost use Rattle.mesh_defs.specs.declared.level.TheConstants.{GREATEST_LEVEL};

use bintree_addr::Tri;
use mesh_defs::{NoMemory, Point};
use pgm_grid::Grid;
use std::alloc::Global;
use tin_search::Network;

/// The triangles as a network, its partners known. `numbers` has the number of each vertex, counted from 1, by rows from the
/// bottom, and 0 elsewhere.
pub(crate) fn network_of(
    alloc: Global,
    grid: &Grid,
    leaves: &[Tri],
    numbers: &[u32],
) -> Result<Network, NoMemory>
    requires levels { All (λ a. level_of a ≤ 2 * grid.now.n) leaves.now }
{
    let mut network = Network::new(alloc);
    push_vertices(&mut network, grid, numbers)?;
    push_triangles(&mut network, grid.n(), leaves, numbers)?;
    network.join(alloc)?;
    Ok(network)
}

/// Puts in each grid point that has a number, in the order of the numbers.
fn push_vertices(network: &mut Network, grid: &Grid, numbers: &[u32]) -> Result<(), NoMemory> {
    let side = grid.side();
    for y in 0..side {
        for x in 0..side {
            let place = y * side + x;
            if numbers.get(place).is_some_and(|number| *number != 0) {
                let point = Point {
                    x: x as u32,
                    y: y as u32,
                };
                network.push_vertex(point, grid.height(point.x, point.y))?;
            }
        }
    }
    Ok(())
}

/// Puts in the triangles, by the numbers of their corners.
fn push_triangles(
    network: &mut Network,
    n: u32,
    leaves: &[Tri],
    numbers: &[u32],
) -> Result<(), NoMemory>
    requires in_grid { (1 ≤ n) × (n ≤ GREATEST_LEVEL) }
    requires levels { All (λ a. level_of a ≤ 2 * n) leaves.now }
{
    for leaf in leaves {
        let corners = leaf.corners(n);
        let a = number_at(numbers, n, corners.apex);
        let b = number_at(numbers, n, corners.v0);
        let c = number_at(numbers, n, corners.v1);
        network.push_triangle(a, b, c)?;
    }
    Ok(())
}

/// The number of the vertex at a point, from 0.
fn number_at(numbers: &[u32], n: u32, point: Point) -> u32 {
    let side = (1usize << (n & 15)) + 1;
    let place = (point.y as usize)
        .wrapping_mul(side)
        .wrapping_add(point.x as usize);
    match numbers.get(place) {
        Some(number) => number.wrapping_sub(1),
        None => 0,
    }
}
