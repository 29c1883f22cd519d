//! The greatest deviation of a mesh, and where it is.

ghost use Rattle.std.specs.Prelude.{◌≡◌, ℕ, ◌+◌, ◌*◌, ◌/◌, ◌^◌, ◌<◌, ◌≤◌, ◌⊎◌, ◌↔◌, IsTrue, length, slice_index};
ghost use Rattle.mesh_cover.specs.Conforming.{IsCorner, IsTurned};
ghost use Rattle.mesh_within.specs.Gap.{IsFacet, facet_in};
ghost use Rattle.mesh_within.specs.Deviation.{IsDeviation};

use crate::columns::area_of;
use crate::farthest::farthest;
use crate::shape::Facet;
use mesh_defs::Point;

/// How far a mesh is from the surface at most, and where: `gap` over `area` units of height.
#[derive(Clone, Copy, Debug, PartialEq, Eq)]
pub struct Deviation {
    /// The number of the triangle.
    pub triangle: u32,
    /// The column of the grid point.
    pub column: u32,
    /// Its row, counted from 0 at the bottom.
    pub row: u32,
    /// How far the surface is from the triangle's plane there, times `area`.
    pub gap: u64,
    /// Twice the area of the triangle, in squares of the grid.
    pub area: u32,
}

/// A triangle of the mesh.
fn facet_at(
    right: u32,
    top: u32,
    points: &[Point],
    heights: &[u16],
    corners: &[u32],
    t: usize,
) -> Facet
    requires right { right ≤ 16384 }
    requires top { top ≤ 16384 }
    requires few { length corners.now ≤ 50331648 }
    requires below { t < length corners.now / 3 }
    requires corner { (h : ℕ) → h < length corners.now → IsCorner right top points.now corners.now h }
    requires turned { IsTurned points.now corners.now t }
    requires heights { length heights.now ≡ length points.now }
    ensures facet { IsFacet right top result }
    ensures value { result ≡ facet_in points.now heights.now corners.now t }
{
    let _reach = (right, top);
    let i = corners[t * 3] as usize;
    let j = corners[t * 3 + 1] as usize;
    let k = corners[t * 3 + 2] as usize;
    let (a, b, c) = (points[i], points[j], points[k]);
    Facet {
        a,
        b,
        c,
        za: heights[i],
        zb: heights[j],
        zc: heights[k],
        area: area_of(a, b, c),
    }
}

/// Whether one fraction is greater than another.
fn is_greater(gap: u64, area: u32, other_gap: u64, other_area: u32) -> bool
    ensures { IsTrue result ↔ (other_gap * area < gap * other_area) }
{
    let first = u128::from(gap);
    let first_area = u128::from(other_area);
    let second = u128::from(other_gap);
    let second_area = u128::from(area);
    let here = first * first_area;
    let there = second * second_area;
    there < here
}

/// The greater of two deviations, the first where they are equal.
fn greater(first: Deviation, second: Deviation) -> Deviation
    ensures { ((result ≡ first) × (second.gap * first.area ≤ first.gap * second.area))
        ⊎ ((result ≡ second) × (first.gap * second.area < second.gap * first.area)) }
{
    if is_greater(second.gap, second.area, first.gap, first.area) {
        second
    } else {
        first
    }
}

/// The greatest deviation of a mesh from a surface, over all triangles and all grid points that each of them holds.
///
/// Where several are equal, the first triangle's. The surface has a height for each grid point, rows from the top, each from left
/// to right; columns run from 0 to `right`, rows from 0 at the bottom to `top`. The vertices have heights of their own.
/// Cost (not proved): some twenty steps for each grid point of a triangle, and some forty for each of its rows.
pub fn greatest_deviation(
    right: u32,
    top: u32,
    surface: &[u16],
    points: &[Point],
    heights: &[u16],
    corners: &[u32],
) -> Deviation
    requires right { right ≤ 16384 }
    requires top { top ≤ 16384 }
    requires surface { length surface.now ≡ (top + 1) * (right + 1) }
    requires few { length corners.now ≤ 50331648 }
    requires corner { (h : ℕ) → h < length corners.now → IsCorner right top points.now corners.now h }
    requires turned { (t : ℕ) → t < length corners.now / 3 → IsTurned points.now corners.now t }
    requires heights { length heights.now ≡ length points.now }
    ensures { IsDeviation right top surface.now points.now heights.now corners.now result }
{
    let mut worst = Deviation {
        triangle: 0,
        column: 0,
        row: 0,
        gap: 0,
        area: 1,
    };
    for t in 0..corners.len() / 3 {
        let f = facet_at(right, top, points, heights, corners, t);
        let spot = farthest(right, top, surface, f);
        let here = Deviation {
            triangle: t as u32,
            column: spot.column,
            row: spot.row,
            gap: spot.gap,
            area: f.area,
        };
        worst = greater(worst, here);
    }
    worst
}
