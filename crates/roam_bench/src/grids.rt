//! Cases on triangles of the grid of side 2049, and on a rough grid of that side.

use bintree_addr::Tri;
use cull_marks::Planes;
use diamond_rel::Split;
use pgm_grid::Grid;
use std::alloc::Global;
use view_priority::{Camera, Meter, rank};
use wedgie_tree::Wedges;

/// The level of the grid that the cases are about.
const LEVEL: u32 = 11;

/// Asks each address of the grid for its mate, and counts the calls and the mates.
pub fn mates() -> (u32, u32) {
    let mut calls = 0u32;
    let mut found = 0u32;
    for number in 2..1u32 << (2 * LEVEL + 2) {
        let Some(tri) = Tri::new(number) else {
            continue;
        };
        calls = calls.saturating_add(1);
        if tri.level() <= 2 * LEVEL && tri.mate(LEVEL).is_some() {
            found = found.saturating_add(1);
        }
    }
    (calls, found)
}

/// How often the forced split is made.
const FORCED_CALLS: u32 = 1000;

/// Splits the deepest triangle at the lower left corner by force, on the empty set each time, and counts
/// the calls and the triangles that were split.
pub fn forced(alloc: Global) -> (u32, u32) {
    let mut calls = 0u32;
    let mut found = 0u32;
    for _ in 0..FORCED_CALLS {
        let mut set = Split::base(alloc, LEVEL);
        let Some(tri) = Tri::new(1 << (2 * LEVEL)) else {
            continue;
        };
        if tri.level() < 2 * LEVEL
            && let Ok(gain) = set.split_forced(tri)
        {
            calls = calls.saturating_add(1);
            found = found.saturating_add(gain);
        }
    }
    (calls, found)
}

/// A rough grid of this level, where there is memory. Its heights are the numbers of a linear congruential
/// generator.
fn rough_grid(alloc: Global) -> Option<Grid> {
    let mut grid = Grid::flat(alloc, LEVEL, 65535).ok()?;
    let mut number = 1u32;
    for y in 0..2049 {
        for x in 0..2049 {
            let height = (number >> 16) as u16;
            let intervals = 1 << grid.n();
            if x <= intervals && y <= intervals && height <= grid.maxval() {
                grid.put(x, y, height);
            }
            number = number.wrapping_mul(1664525).wrapping_add(1013904223);
        }
    }
    Some(grid)
}

/// The wedges of a rough grid, where there is memory.
pub fn rough_wedges(alloc: Global) -> Option<Wedges> {
    Wedges::build(alloc, rough_grid(alloc)?).ok()
}

/// Makes a rough grid alone, and counts no call and its points.
pub fn grid_alone(alloc: Global) -> (u32, u32) {
    match rough_grid(alloc) {
        Some(grid) => (0, grid.points() as u32),
        None => (0, 0),
    }
}

/// Builds the wedges of a rough grid, and counts the call and the thickness of a base triangle.
pub fn wedges(alloc: Global) -> (u32, u32) {
    if let (Some(wedges), Some(tri)) = (rough_wedges(alloc), Tri::new(2))
        && tri.level() <= 2 * wedges.grid().n()
    {
        return (1, wedges.thickness(tri));
    }
    (0, 0)
}

/// Ranks each triangle of a rough grid without planes, and counts the calls and the triangles of positive
/// priority. The seconds are those of the building too.
pub fn ranks(alloc: Global) -> (u32, u32) {
    let mut calls = 0u32;
    let mut found = 0u32;
    let mut meter = Meter::new();
    let planes = Planes::none();
    if let (Some(wedges), Some(camera)) = (rough_wedges(alloc), Camera::new(-3, -4, 1000)) {
        for number in 2..1u32 << (2 * LEVEL + 2) {
            let Some(tri) = Tri::new(number) else {
                continue;
            };
            if tri.level() <= 2 * wedges.grid().n() {
                calls = calls.saturating_add(1);
                if rank(&wedges, &camera, 1, &planes, tri, &mut meter).p > 0 {
                    found = found.saturating_add(1);
                }
            }
        }
    }
    (calls, found)
}
