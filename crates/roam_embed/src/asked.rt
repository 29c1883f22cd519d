//! What a caller asks of a mesh, tested and put into the units of errors.

ghost use Rattle.std.specs.Prelude.{◌≡◌, ◌⊎◌, ℕ, ◌+◌, ◌*◌, ◌^◌, ◌<◌, ◌≤◌, ◌↔◌, ◌++◌, List, [], All, IsTrue, length, vec_capacity};
ghost use Rattle.mesh_defs.specs.HeightField.{side_of};
ghost use Rattle.mesh_defs.specs.declared.level.TheConstants.{GREATEST_LEVEL};
ghost use Rattle.fit_mesh.specs.Limit.{tolerance_of, error_within, IsComplete};
ghost use Rattle.roam_embed.specs.Asked.{own_tolerance_of, scaled, IsTolerance, AreTolerances, ArePlaces};
ghost use Rattle.roam_embed.specs.Asked.{tolerance_for, error_for};

use crate::fitting::{GREATEST_TOLERANCE, tolerance};
use fit_mesh::Limit;
use pgm_grid::side_for;

/// Whether each number is the place of a grid point in the heights.
pub(crate) fn are_places(n: u32, places: &[u32]) -> bool
    requires in_grid { n ≤ GREATEST_LEVEL }
    ensures { IsTrue result ↔ ArePlaces n places.now }
{
    let count = side_for(n) * side_for(n);
    places.iter().all(|place| (*place as usize) < count)
}

/// Whether the tolerance, or that of each grid point where there are any, is in its range, in thousandths.
pub(crate) fn are_tolerances(n: u32, thousandths: u32, tolerances: &[u32]) -> bool
    requires in_grid { n ≤ GREATEST_LEVEL }
    ensures { IsTrue result ↔ AreTolerances n thousandths tolerances.now }
{
    if tolerances.is_empty() {
        return thousandths <= GREATEST_TOLERANCE;
    }
    if tolerances.len() != side_for(n) * side_for(n) {
        return false;
    }
    are_each(tolerances)
}

/// Whether each is a tolerance of a point.
fn are_each(tolerances: &[u32]) -> bool
    ensures { IsTrue result ↔ All IsTolerance tolerances.now }
{
    tolerances
        .iter()
        .all(|own| *own <= GREATEST_TOLERANCE || *own == u32::MAX)
}

/// Puts the tolerances of points, in units of height, times 2^n, into room for them.
pub(crate) fn put_scaled(n: u32, tolerances: &[u32], room: &mut Vec<u32>)
    requires in_grid { n ≤ GREATEST_LEVEL }
    requires each { All IsTolerance tolerances.now }
    requires room { length tolerances.now ≤ vec_capacity room.old }
    ensures scaled { room.new.items ≡ scaled n tolerances.now }
    ensures capacity { vec_capacity room.new ≡ vec_capacity room.old }
{
    room.clear();
    for own in tolerances {
        room.push_reserved(own_tolerance(n, *own));
    }
}

/// A point's own tolerance in units of height, times 2^n.
fn own_tolerance(n: u32, thousandths: u32) -> u32
    requires in_grid { n ≤ GREATEST_LEVEL }
    requires low { IsTolerance thousandths }
    ensures { result ≡ own_tolerance_of n thousandths }
{
    if thousandths == u32::MAX {
        return u32::MAX;
    }
    tolerance(n, thousandths)
}

/// The limit: the tolerance, or that of each point where there are any.
pub(crate) fn limit_of<'a>(n: u32, thousandths: u32, own: &'a [u32]) -> Limit<'a>
    requires in_grid { n ≤ GREATEST_LEVEL }
    requires low { own.now ≡ [] → thousandths ≤ GREATEST_TOLERANCE }
    requires whole { (own.now ≡ []) ⊎ (length own.now ≡ side_of n * side_of n) }
    ensures complete { IsComplete n result }
    ensures tolerance { tolerance_of result ≡ tolerance_for n thousandths own.now }
    ensures error { (heights : List ℕ) → error_within n heights result ≡ error_for n heights own.now }
{
    if own.is_empty() {
        Limit::Common(tolerance(n, thousandths))
    } else {
        Limit::Own(own)
    }
}
