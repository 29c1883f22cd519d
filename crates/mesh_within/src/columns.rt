//! The columns of a row that a triangle holds.

ghost use Rattle.std.specs.Prelude.{◌≡◌, ℕ, ◌+◌, ◌-◌, ◌*◌, ◌/◌, ◌^◌, ◌<◌, ◌≤◌, ◌↔◌};
ghost use Rattle.mesh_cover.specs.Mesh.{IsWithin};
ghost use Rattle.mesh_cover.specs.Cover.{high_across, low_across, IsHeld};
ghost use Rattle.mesh_within.specs.Gap.{area_across, IsFacet, IsColumn, IsLeftAt};

use crate::shape::{Columns, Facet};
use mesh_defs::Point;

/// A product of two coordinates.
pub(crate) fn product(x: u32, y: u32) -> u32
    requires x { x ≤ 16384 }
    requires y { y ≤ 16384 }
    ensures value { result ≡ x * y }
    ensures small { result ≤ 268435456 }
{
    x * y
}

/// Twice the area of a triangle that turns left, else 0.
#[tactic(auto, unfolding(crate::specs::Gap::area_across))]
pub(crate) fn area_of(r: Point, p: Point, q: Point) -> u32
    requires r { IsWithin 16384 16384 r }
    requires p { IsWithin 16384 16384 p }
    requires q { IsWithin 16384 16384 q }
    ensures value { result ≡ area_across r p q }
    ensures small { result ≤ 805306368 }
{
    let high = product(p.x, q.y) + product(q.x, r.y) + product(r.x, p.y);
    let low = product(p.y, q.x) + product(q.y, r.x) + product(r.y, p.x);
    high.saturating_sub(low)
}

/// Those of the columns whose points in row y do not lie right of an edge.
fn narrowed(p: Point, q: Point, y: u32, columns: Columns) -> Columns
    requires p { IsWithin 16384 16384 p }
    requires q { IsWithin 16384 16384 q }
    requires y { y ≤ 16384 }
    ensures held { (x : ℕ) → IsColumn result x ↔ (IsColumn columns x × IsLeftAt x y p q) }
    ensures end { result.end ≤ columns.end }
{
    let high = product(p.x, q.y) + product(q.x, y);
    let low = product(p.y, q.x) + product(y, p.x);
    if p.y > q.y {
        let drop = p.y - q.y;
        let least = (low.saturating_sub(high) + (drop - 1)) / drop;
        return Columns {
            from: columns.from.max(least),
            end: columns.end,
        };
    }
    if high < low {
        return Columns { from: 0, end: 0 };
    }
    if q.y == p.y {
        return columns;
    }
    let most = (high - low) / (q.y - p.y);
    if columns.end <= most {
        return columns;
    }
    Columns {
        from: columns.from,
        end: most + 1,
    }
}

/// The columns of a row, up to column `right`, whose points a triangle holds.
pub(crate) fn held_columns(right: u32, f: Facet, y: u32) -> Columns
    requires right { right ≤ 16384 }
    requires facet { IsFacet 16384 16384 f }
    requires y { y ≤ 16384 }
    ensures held { (x : ℕ) → IsColumn result x ↔ ((x < right + 1) × IsHeld f.a f.b f.c (record { x = x; y = y })) }
    ensures end { result.end ≤ right + 1 }
{
    let all = Columns {
        from: 0,
        end: right + 1,
    };
    let first = narrowed(f.a, f.b, y, all);
    let second = narrowed(f.b, f.c, y, first);
    narrowed(f.c, f.a, y, second)
}
