//! Border points by their places in the heights of a grid.

ghost use Rattle.std.specs.Prelude.{◌≡◌, ◌≢◌, ℕ, ◌^◌, ◌≤◌, IfSome, IsNone};
ghost use Rattle.mesh_defs.specs.declared.point.Point.{Point};
ghost use Rattle.mesh_defs.specs.HeightField.{place_of};
ghost use Rattle.mesh_defs.specs.Triangle.{IsSplittable};
ghost use Rattle.mesh_defs.specs.declared.level.TheConstants.{GREATEST_LEVEL};
ghost use Rattle.bintree_laws.specs.Corners.{IsInSquare};
ghost use Rattle.mosaic_rounds.specs.Place.{IsBorderTriangle, centre_place};

use address_flags::centred_at;
use bintree_addr::Tri;
use mesh_defs::Point;

/// The place of the triangle's centre in the heights of a grid, in file order: rows from the top, each from left to
/// right.
///
/// Cost (not proved): a step a level.
pub fn place_of_centre(n: u32, t: Tri) -> u32
    requires in_grid { (1 ≤ n) × (n ≤ GREATEST_LEVEL) }
    requires splittable { IsSplittable n t }
    ensures value { result ≡ centre_place n t }
{
    let centre = t.centre(n);
    place_at(n, centre)
}

/// The place of a grid point.
#[tactic(auto, using(bintree_laws::proofs::CornerLemmas::side_small))]
fn place_at(n: u32, point: Point) -> u32
    requires in_grid { n ≤ GREATEST_LEVEL }
    requires point_in_grid { IsInSquare (2 ^ n) point }
    ensures value { result ≡ place_of n point.x point.y }
{
    let last = 1 << n;
    (last - point.y) * (last + 1) + point.x
}

/// The triangle with its base on the border whose centre is at this place; none where no point of the border is there,
/// or a corner of the square.
///
/// Cost (not proved): a step a level.
pub(crate) fn border_triangle(n: u32, place: u32) -> Option<Tri>
    requires in_grid { (1 ≤ n) × (n ≤ GREATEST_LEVEL) }
    ensures some { IfSome result (λ a. IsBorderTriangle n a × (centre_place n a ≡ place)) }
    ensures only { IfSome result (λ a. (c : ℕ) → IsBorderTriangle n c → centre_place n c ≡ place → c ≡ a) }
    ensures none { IsNone result → (c : ℕ) → IsBorderTriangle n c → centre_place n c ≢ place }
{
    let Some(point) = point_at(n, place) else {
        return None;
    };
    let Some(t) = centred_at(n, point) else {
        return None;
    };
    match t.mate(n) {
        Some(_) => None,
        None => Some(t),
    }
}

/// The grid point at a place.
fn point_at(n: u32, place: u32) -> Option<Point>
    requires in_grid { n ≤ GREATEST_LEVEL }
    ensures some { IfSome result (λ p. IsInSquare (2 ^ n) p × (place_of n p.x p.y ≡ place)) }
    ensures only { IfSome result (λ p. (q : Point) → IsInSquare (2 ^ n) q → place_of n q.x q.y ≡ place → q ≡ p) }
    ensures none { IsNone result → (q : Point) → IsInSquare (2 ^ n) q → place_of n q.x q.y ≢ place }
{
    let side = (1 << n) + 1;
    let row = place / side;
    if row >= side {
        return None;
    }
    Some(Point {
        x: place % side,
        y: side - 1 - row,
    })
}
