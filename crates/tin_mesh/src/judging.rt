//! Whether what was found is a mesh within the error.

ghost use Rattle.std.specs.Prelude.{◌≡◌, ◌≤◌, ◌<◌, ℕ, ◌*◌, ◌/◌, ◌^◌, IfOk, IfSome, length};
ghost use Rattle.mesh_defs.specs.declared.level.TheConstants.{GREATEST_LEVEL};
ghost use Rattle.mesh_cover.specs.Conforming.{IsCorner};
ghost use Rattle.tin_mesh.specs.Tin.{IsTin, IsMeasured, ArePlaces, heights_at};

use crate::tin::Tin;
use mesh_cover::first_fault;
use mesh_defs::{NoMemory, Point};
use mesh_within::{Deviation, greatest_deviation, is_within};
use pgm_grid::Grid;
use std::alloc::Global;
use tin_search::Taken;

/// The most numbers of corners that are judged, three for each of 2^24 triangles.
const MOST_CORNERS: usize = 50_331_648;

/// What was found, if it is a mesh within the error, of at most so many triangles.
pub(crate) fn judged(
    alloc: Global,
    grid: &Grid,
    found: Taken,
    thousandths: u32,
    most: usize,
) -> Result<Option<Tin>, NoMemory>
    ensures { IfOk result (λ tin. IfSome tin (IsTin grid.now thousandths most)) }
{
    let (corners, across) = (&found.corners, &found.across);
    let count = corners.len() / 3;
    if corners.len() != count * 3 || corners.len() > MOST_CORNERS || count > most {
        return Ok(None);
    }
    if across.len() != corners.len() || found.points.len() > corners.len() {
        return Ok(None);
    }
    let Some(heights) = heights_of(alloc, grid, &found.points)? else {
        return Ok(None);
    };
    let mut rows = vec![in alloc; false; grid.side() - 1]?;
    let Some(deviation) = measured(grid, &found.points, &heights, corners, across, &mut rows) else {
        return Ok(None);
    };
    if !is_within(deviation, thousandths) {
        return Ok(None);
    }
    let places = places_of(alloc, grid.n(), &found.points, corners)?;
    Ok(Some(Tin {
        points: found.points,
        corners: found.corners,
        places,
        deviation,
    }))
}

/// The greatest deviation of triangles from a grid, if they are conforming.
fn measured(
    grid: &Grid,
    points: &[Point],
    heights: &[u16],
    corners: &[u32],
    across: &[u32],
    rows: &mut [bool],
) -> Option<Deviation>
    requires rows { length rows.old ≡ 2 ^ grid.now.n }
    requires threes { length corners.now ≡ length corners.now / 3 * 3 }
    requires few { length corners.now ≤ 50331648 }
    requires across { length across.now ≡ length corners.now }
    requires heights { length heights.now ≡ length points.now }
    ensures { IfSome result (IsMeasured grid.now points.now heights.now corners.now across.now) }
{
    let _level = grid.n();
    let last = rows.len() as u32;
    if first_fault(last, points, heights, corners, across, rows).is_some() {
        return None;
    }
    let surface = grid.heights();
    Some(greatest_deviation(last, last, surface, points, heights, corners))
}

/// The places of the corners in the heights of a grid.
fn places_of(alloc: Global, n: u32, points: &[Point], corners: &[u32]) -> Result<Vec<u32>, NoMemory>
    requires in_grid { n ≤ GREATEST_LEVEL }
    requires corners { (h : ℕ) → h < length corners.now → IsCorner (2 ^ n) (2 ^ n) points.now corners.now h }
    ensures { IfOk result (λ places. ArePlaces n points.now corners.now places.items) }
{
    let last = 1u32 << n;
    let mut places = Vec::new(alloc);
    for h in 0..corners.len() {
        let point = points[corners[h] as usize];
        places.push((last - point.y) * (last + 1) + point.x)?;
    }
    Ok(places)
}

/// The heights of grid points; none where one is beyond the grid.
fn heights_of(alloc: Global, grid: &Grid, points: &[Point]) -> Result<Option<Vec<u16>>, NoMemory>
    ensures { IfOk result (λ found. IfSome found (λ heights. heights.items ≡ heights_at grid.now points.now)) }
{
    let last = (grid.side() - 1) as u32;
    let mut heights = Vec::new(alloc);
    for point in points {
        if point.x > last || point.y > last {
            return Ok(None);
        }
        heights.push(grid.height(point.x, point.y))?;
    }
    Ok(Some(heights))
}
