//! The partners of edges: the same edge of the neighbouring triangle, found by sorting.

ghost use Rattle.std.specs.Prelude.{◌≡◌, ◌≤◌, IfOk, length};

use mesh_defs::{NoMemory, Point};
use std::alloc::Global;

/// An edge by its ends, whichever way it runs; whether it runs from the lower end; and its number.
#[derive(Clone, Copy, Debug, PartialEq, Eq, PartialOrd, Ord)]
struct Edge {
    low: u64,
    high: u64,
    forward: bool,
    number: u32,
}

/// The point and height of a corner as one number, the same for all that are no vertex.
fn place_of(points: &[Point], heights: &[u16], corners: &[u32], h: usize) -> u64 {
    let vertex = match corners.get(h) {
        Some(number) => *number as usize,
        None => return u64::MAX,
    };
    match (points.get(vertex), heights.get(vertex)) {
        (Some(p), Some(height)) => {
            let (x, y) = (p.x.min(65_535), p.y.min(65_535));
            u64::from(x) * 4_294_967_296 + u64::from(y) * 65_536 + u64::from(*height)
        }
        _ => u64::MAX,
    }
}

/// An edge of a mesh.
fn edge_at(points: &[Point], heights: &[u16], corners: &[u32], h: u32) -> Edge
    requires { h ≤ 50331648 }
{
    let from = place_of(points, heights, corners, h as usize);
    let to = place_of(points, heights, corners, (h / 3 * 3 + (h + 1) % 3) as usize);
    Edge {
        low: from.min(to),
        high: from.max(to),
        forward: from < to,
        number: h,
    }
}

/// Makes each edge its own partner.
fn part(across: &mut [u32])
    requires { length across.old ≤ 50331648 }
    ensures { length across.new ≡ length across.old }
{
    for h in 0..across.len() {
        across[h] = h as u32;
    }
}

/// Makes partners of edges that stand side by side, have the same ends and run opposite ways.
fn pair(edges: &[Edge], across: &mut [u32])
    ensures { length across.new ≡ length across.old }
{
    for i in 1..edges.len() {
        let (p, q) = (edges[i - 1], edges[i]);
        let (first, second) = (p.number as usize, q.number as usize);
        let meet = p.low == q.low && p.high == q.high && p.forward != q.forward;
        if meet && first < across.len() && second < across.len() {
            across[first] = q.number;
            across[second] = p.number;
        }
    }
}

/// The partner of each edge of a mesh: one with the same ends and heights that runs the other way, or itself where there is none.
///
/// Whether they fit is for `first_fault` to say: nothing is claimed of them here, except that there is one for each edge. Where
/// more than two edges meet, some are left without a partner that leads back.
/// Cost (not proved): sorts 24 bytes for each edge.
pub fn partners(
    alloc: Global,
    points: &[Point],
    heights: &[u16],
    corners: &[u32],
) -> Result<Vec<u32>, NoMemory>
    requires { length corners.now ≤ 50331648 }
    ensures { IfOk result (λ across. length across.items ≡ length corners.now) }
{
    let mut edges = Vec::with_capacity(alloc, corners.len())?;
    for h in 0..corners.len() {
        edges.push(edge_at(points, heights, corners, h as u32))?;
    }
    edges.sort_unstable();
    let mut across = vec![in alloc; 0; corners.len()]?;
    part(&mut across);
    pair(&edges, &mut across);
    Ok(across)
}
