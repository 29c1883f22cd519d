//! Splits of what is required.

ghost use Rattle.std.specs.Prelude.{◌≡◌, ℕ, ◌+◌, ◌-◌, ◌*◌, ◌/◌, ◌%◌, ◌^◌, ◌<◌, ◌≤◌, ◌||◌, ◌∷◌, [], All, length, vec_capacity};
ghost use Rattle.mesh_defs.specs.HeightField.{side_of, place_of};
ghost use Rattle.mesh_defs.specs.Triangle.{IsSplittable};
ghost use Rattle.mesh_defs.specs.ClosedSet.{IsClosed, IsLeastClosed, among};
ghost use Rattle.mesh_defs.specs.declared.level.TheConstants.{GREATEST_LEVEL};
ghost use Rattle.bintree_laws.specs.Corners.{IsInSquare};
ghost use Rattle.mesh_laws.specs.Sweep.{is_flagged};
ghost use Rattle.fit_mesh.specs.Log.{IsLogged, KeepsLog};
ghost use Rattle.fit_mesh.specs.Required.{is_centred_at, is_required, or_required, IsAskable};

use crate::force::force;
use crate::required::Required;
use address_flags::centred_at;
use bintree_addr::{Point, Tri};

/// Splits all that is required, and what that forces.
pub fn split_required(flags: &mut [bool], log: &mut Vec<Tri>, n: u32, required: Required)
    requires in_grid { (1 ≤ n) × (n ≤ GREATEST_LEVEL) }
    requires askable { IsAskable n required }
    requires flags { length flags.old ≡ 2 ^ (2 * n + 1) }
    requires room { 2 ^ (2 * n + 1) ≤ vec_capacity log.old }
    requires log { IsLogged flags.old log.old.items }
    requires closed { IsClosed n (is_flagged flags.old) }
    ensures flags { length flags.new ≡ length flags.old }
    ensures capacity { vec_capacity log.new ≡ vec_capacity log.old }
    ensures log { KeepsLog flags.old log.old.items flags.new log.new.items }
    ensures least { IsLeastClosed n (or_required n (is_flagged flags.old) required.entry) (is_flagged flags.new) }
{
    match required {
        Required::Triangles(triangles) => split_all(flags, log, n, triangles),
        Required::Points(places) => split_centred(flags, log, n, places),
    }
}

/// Splits these triangles, and what that forces.
fn split_all(flags: &mut [bool], log: &mut Vec<Tri>, n: u32, triangles: &[Tri])
    requires in_grid { (1 ≤ n) × (n ≤ GREATEST_LEVEL) }
    requires splittable { All (λ a. IsSplittable n a) triangles.now }
    requires flags { length flags.old ≡ 2 ^ (2 * n + 1) }
    requires room { 2 ^ (2 * n + 1) ≤ vec_capacity log.old }
    requires log { IsLogged flags.old log.old.items }
    requires closed { IsClosed n (is_flagged flags.old) }
    ensures flags { length flags.new ≡ length flags.old }
    ensures capacity { vec_capacity log.new ≡ vec_capacity log.old }
    ensures log { KeepsLog flags.old log.old.items flags.new log.new.items }
    ensures least { IsLeastClosed n (λ a. is_flagged flags.old a || among triangles.now a) (is_flagged flags.new) }
{
    for t in triangles {
        force(flags, log, n, *t);
    }
}

/// Splits, for each grid point at one of these places, the triangles whose centre it is, and what that forces.
fn split_centred(flags: &mut [bool], log: &mut Vec<Tri>, n: u32, places: &[u32])
    requires in_grid { (1 ≤ n) × (n ≤ GREATEST_LEVEL) }
    requires places { All (λ k. k < side_of n * side_of n) places.now }
    requires flags { length flags.old ≡ 2 ^ (2 * n + 1) }
    requires room { 2 ^ (2 * n + 1) ≤ vec_capacity log.old }
    requires log { IsLogged flags.old log.old.items }
    requires closed { IsClosed n (is_flagged flags.old) }
    ensures flags { length flags.new ≡ length flags.old }
    ensures capacity { vec_capacity log.new ≡ vec_capacity log.old }
    ensures log { KeepsLog flags.old log.old.items flags.new log.new.items }
    ensures least { IsLeastClosed n (λ a. is_flagged flags.old a || is_centred_at n places.now a)
        (is_flagged flags.new) }
{
    for place in places {
        split_at(flags, log, n, *place);
    }
}

/// Splits the triangles whose centre is the grid point at a place, and what that forces.
fn split_at(flags: &mut [bool], log: &mut Vec<Tri>, n: u32, place: u32)
    requires in_grid { (1 ≤ n) × (n ≤ GREATEST_LEVEL) }
    requires place { place < side_of n * side_of n }
    requires flags { length flags.old ≡ 2 ^ (2 * n + 1) }
    requires room { 2 ^ (2 * n + 1) ≤ vec_capacity log.old }
    requires log { IsLogged flags.old log.old.items }
    requires closed { IsClosed n (is_flagged flags.old) }
    ensures flags { length flags.new ≡ length flags.old }
    ensures capacity { vec_capacity log.new ≡ vec_capacity log.old }
    ensures log { KeepsLog flags.old log.old.items flags.new log.new.items }
    ensures least { IsLeastClosed n (λ a. is_flagged flags.old a || is_centred_at n (place ∷ []) a)
        (is_flagged flags.new) }
{
    if let Some(t) = centred_at(n, point_of(n, place)) {
        force(flags, log, n, t);
    }
}

/// The grid point at a place in the heights.
#[tactic(auto, using(bintree_laws::proofs::CornerLemmas::side_small))]
pub fn point_of(n: u32, place: u32) -> Point
    requires in_grid { (1 ≤ n) × (n ≤ GREATEST_LEVEL) }
    requires place { place < side_of n * side_of n }
    ensures within { IsInSquare (2 ^ n) result }
    ensures place { place_of n result.x result.y ≡ place }
    ensures column { result.x ≡ place % side_of n }
    ensures row { result.y ≡ 2 ^ n - place / side_of n }
{
    let last = 1 << n;
    Point {
        x: place % (last + 1),
        y: last - place / (last + 1),
    }
}
