//! Where a surface is farthest from a triangle's plane.

ghost use Rattle.std.specs.Prelude.{◌≡◌, ℕ, ◌+◌, ◌-◌, ◌*◌, ◌/◌, ◌^◌, ◌<◌, ◌≤◌, ◌⊎◌, length};
ghost use Rattle.mesh_defs.specs.declared.point.Point.{Point};
ghost use Rattle.mesh_cover.specs.Cover.{IsHeld};
ghost use Rattle.mesh_within.specs.Gap.{gap_of, IsFacet, IsSpot, IsColumn, Holds};

use crate::columns::{area_of, held_columns};
use crate::shape::{Columns, Facet, Spot};
use mesh_defs::Point;

/// How far the surface is from the triangle's plane at a grid point that it holds, times twice its area.
#[tactic(auto, unfolding(crate::specs::Gap::gap_across))]
fn gap(right: u32, top: u32, surface: &[u16], f: Facet, x: u32, y: u32) -> u64
    requires right { right ≤ 16384 }
    requires top { top ≤ 16384 }
    requires surface { length surface.now ≡ (top + 1) * (right + 1) }
    requires facet { IsFacet 16384 16384 f }
    requires x { x ≤ right }
    requires y { y ≤ top }
    ensures value { result ≡ gap_of right top surface.now f (record { x = x; y = y }) }
    ensures small { result < 2 ^ 48 }
{
    let o = Point { x, y };
    let height = surface[(top - y) as usize * (right as usize + 1) + x as usize];
    let plane = u64::from(area_of(o, f.b, f.c)) * u64::from(f.za)
        + u64::from(area_of(o, f.c, f.a)) * u64::from(f.zb)
        + u64::from(area_of(o, f.a, f.b)) * u64::from(f.zc);
    let here = u64::from(f.area) * u64::from(height);
    here.abs_diff(plane)
}

/// The farther of two spots, the first where they are as far.
fn farther(first: Spot, second: Spot) -> Spot
    ensures either { (result ≡ first) ⊎ (result ≡ second) }
    ensures first { first.gap ≤ result.gap }
    ensures second { second.gap ≤ result.gap }
{
    if second.gap > first.gap {
        second
    } else {
        first
    }
}

/// The farther of a spot and those of a row's columns.
fn farthest_in_row(
    right: u32,
    top: u32,
    surface: &[u16],
    f: Facet,
    y: u32,
    columns: Columns,
    spot: Spot,
) -> Spot
    requires right { right ≤ 16384 }
    requires top { top ≤ 16384 }
    requires surface { length surface.now ≡ (top + 1) * (right + 1) }
    requires facet { IsFacet 16384 16384 f }
    requires y { y ≤ top }
    requires end { columns.end ≤ right + 1 }
    requires held { (x : ℕ) → IsColumn columns x → IsHeld f.a f.b f.c (record { x = x; y = y }) }
    requires spot { (spot.gap ≡ 0) ⊎ IsSpot right top surface.now f spot }
    requires small { spot.gap < 2 ^ 48 }
    ensures more { spot.gap ≤ result.gap }
    ensures small { result.gap < 2 ^ 48 }
    ensures bound { (x : ℕ) → IsColumn columns x → gap_of right top surface.now f (record { x = x; y = y }) ≤ result.gap }
    ensures attained { (result.gap ≡ 0) ⊎ IsSpot right top surface.now f result }
{
    let mut far = spot;
    for x in columns.from..columns.end {
        let off = gap(right, top, surface, f, x, y);
        let here = Spot {
            column: x,
            row: y,
            gap: off,
        };
        far = farther(far, here);
    }
    far
}

/// The grid point of a triangle where the surface is farthest from its plane.
pub(crate) fn farthest(right: u32, top: u32, surface: &[u16], f: Facet) -> Spot
    requires right { right ≤ 16384 }
    requires top { top ≤ 16384 }
    requires surface { length surface.now ≡ (top + 1) * (right + 1) }
    requires facet { IsFacet right top f }
    ensures bound { (o : Point) → Holds right f o → gap_of right top surface.now f o ≤ result.gap }
    ensures attained { (result.gap ≡ 0) ⊎ IsSpot right top surface.now f result }
    ensures small { result.gap < 2 ^ 48 }
{
    let low = f.a.y.min(f.b.y).min(f.c.y);
    let high = f.a.y.max(f.b.y).max(f.c.y);
    let mut far = Spot {
        column: f.a.x,
        row: f.a.y,
        gap: 0,
    };
    for y in low..high + 1 {
        let columns = held_columns(right, f, y);
        far = farthest_in_row(right, top, surface, f, y, columns, far);
    }
    far
}
