//! The vertices of a mesh on the border.

ghost use Rattle.std.specs.Prelude.{◌≡◌, ℕ, ◌+◌, ◌-◌, ◌*◌, ◌/◌, ◌%◌, ◌^◌, ◌<◌, ◌≤◌, ◌++◌, ◌∷◌, [], IsTrue, cond, length, vec_capacity};
ghost use Rattle.mesh_defs.specs.HeightField.{side_of};
ghost use Rattle.mesh_defs.specs.declared.level.TheConstants.{GREATEST_LEVEL};
ghost use Rattle.mesh_arrays.specs.Indices.{point_at};
ghost use Rattle.roam_embed.specs.Border.{is_on_side, is_border_vertex, border_of};

use address_flags::centred_at;
use bintree_addr::Point;
use fit_mesh::{SplitSet, point_of};
use pgm_grid::side_for;

/// Lists the places of the vertices on the border that are no corners of the square, rising.
pub(crate) fn list_border(set: &SplitSet, border: &mut Vec<u32>)
    requires room { side_of set.now.n * side_of set.now.n ≤ vec_capacity border.old }
    ensures listed { border.new.items ≡ border_of set.now.n set.now.leaves }
    ensures capacity { vec_capacity border.new ≡ vec_capacity border.old }
{
    let n = set.n();
    let end = (side_for(n) * side_for(n)) as u32;
    border.clear();
    let mut place = 0;
    while place < end {
        put_border(set, place, border);
        place = next_on_border(n, place);
    }
}

/// Puts the place behind the others, where the grid point there is such a vertex.
fn put_border(set: &SplitSet, place: u32, border: &mut Vec<u32>)
    requires place { place < side_of set.now.n * side_of set.now.n }
    requires room { length border.old.items < vec_capacity border.old }
    ensures put { border.new.items ≡ border.old.items
        ++ cond (is_border_vertex set.now.n set.now.leaves place) (place ∷ []) [] }
    ensures capacity { vec_capacity border.new ≡ vec_capacity border.old }
{
    if is_border_vertex(set, place) {
        border.push_reserved(place);
    }
}

/// Whether the grid point at a place lies on the border, is no corner of the square, and is a vertex of the mesh.
#[tactic(auto, using(bintree_laws::proofs::CornerLemmas::side_small))]
fn is_border_vertex(set: &SplitSet, place: u32) -> bool
    requires place { place < side_of set.now.n * side_of set.now.n }
    ensures { result ≡ is_border_vertex set.now.n set.now.leaves place }
{
    let _mesh = set.leaves();
    let n = set.n();
    let point = point_of(n, place);
    if !is_on_side(1 << n, point) {
        return false;
    }
    match centred_at(n, point) {
        None => false,
        Some(t) => set.is_split(t),
    }
}

/// Whether the point lies on a side of the square.
fn is_on_side(side: u32, point: Point) -> bool
    ensures { result ≡ is_on_side side point }
{
    (point.x == 0 || point.x == side) || (point.y == 0 || point.y == side)
}

/// A place behind this one, with no grid point on the border between them: the next one on the border, or the end.
#[tactic(auto, using(bintree_laws::proofs::CornerLemmas::side_small))]
fn next_on_border(n: u32, place: u32) -> u32
    requires in_grid { (1 ≤ n) × (n ≤ GREATEST_LEVEL) }
    requires place { place < side_of n * side_of n }
    ensures behind { place < result }
    ensures within { result ≤ side_of n * side_of n }
    ensures between { (k : ℕ) → place < k → k < result → IsTrue (is_on_side (2 ^ n) (point_at n k)) → ⊥ }
{
    let side = (1 << n) + 1;
    let row = place / side;
    if place % side != 0 {
        return place + 1;
    }
    if row == 0 || row + 1 == side {
        return place + 1;
    }
    place + side - 1
}
