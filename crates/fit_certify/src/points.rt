//! Points that a mesh keeps: marked on a grid, and the triangles whose centres they are.

ghost use Rattle.std.specs.Prelude.{◌≡◌, ℕ, ◌+◌, ◌*◌, ◌^◌, ◌<◌, ◌≤◌, ◌↔◌, ◌++◌, ◌∷◌, [], false, List, All, Contains, IsTrue};
ghost use Rattle.std.specs.Prelude.{IfOk, OnOk, IfSome, IfNone, length};
ghost use Rattle.mesh_defs.specs.declared.point.Point.{Point as PointSeen};
ghost use Rattle.mesh_defs.specs.HeightField.{side_of};
ghost use Rattle.mesh_defs.specs.ClosedSet.{IsClosed, IsSubset, IsLeastClosed};
ghost use Rattle.mesh_defs.specs.declared.level.TheConstants.{GREATEST_LEVEL};
ghost use Rattle.bintree_laws.specs.Corners.{IsInSquare};
ghost use Rattle.mesh_laws.specs.Sweep.{is_flagged};
ghost use Rattle.certificate_laws.specs.Keeping.{is_centred, IsNeed, IsFirstBadNeed};
ghost use Rattle.certificate_laws.specs.declared.limits.TheConstants.{MOST_REASONS};
ghost use Rattle.fit_certify.specs.Keeping.{AreMarked, AreNeeded};

use crate::force::force;
use address_flags::{centred_at, is_set};
use bintree_addr::Point;
use mesh_defs::NoMemory;
use pgm_grid::Grid;
use std::alloc::Global;

/// A grid whose height is 1 at each of these points, and 0 elsewhere.
///
/// Cost (not proved): a step a point; two bytes for each point of the grid.
pub(crate) fn marks_of(alloc: Global, n: u32, points: &[Point]) -> Result<Grid, NoMemory>
    requires in_grid { (1 ≤ n) × (n ≤ GREATEST_LEVEL) }
    requires inside { All (IsInSquare (2 ^ n)) points.now }
    ensures n { IfOk result (λ marks. marks.n ≡ n) }
    ensures marked { IfOk result (λ marks. AreMarked points.now marks) }
{
    let mut marks = Grid::flat(alloc, n, 1)?;
    mark(points, &mut marks);
    Ok(marks)
}

/// Marks each of these points on a grid that has no mark.
fn mark(points: &[Point], marks: &mut Grid)
    requires inside { All (IsInSquare (2 ^ marks.old.n)) points.now }
    requires none { AreMarked [] marks.old }
    requires maxval { 1 ≤ marks.old.maxval }
    ensures n { marks.new.n ≡ marks.old.n }
    ensures marked { AreMarked points.now marks.new }
{
    for point in points {
        mark_point(*point, marks);
    }
}

/// Marks a point.
fn mark_point(point: Point, marks: &mut Grid)
    requires point_in_grid { IsInSquare (2 ^ marks.old.n) point }
    requires maxval { 1 ≤ marks.old.maxval }
    ensures n { marks.new.n ≡ marks.old.n }
    ensures maxval { marks.new.maxval ≡ marks.old.maxval }
    ensures marked { (points : List PointSeen) → AreMarked points marks.old →
        AreMarked (points ++ point ∷ []) marks.new }
{
    marks.put(point.x, point.y, 1);
}

/// Whether a point is one of those that are marked, and no corner of the square.
fn is_need(marks: &Grid, point: Point) -> bool
    ensures { (points : List PointSeen) → AreMarked points marks.now →
        (IsTrue result ↔ IsNeed marks.now.n points point) }
{
    let side = 1 << marks.n();
    if side < point.x || side < point.y {
        return false;
    }
    centred_at(marks.n(), point).is_some() && marks.height(point.x, point.y) == 1
}

/// The number of the first point that is no such one, counted from 1.
pub(crate) fn bad_need(marks: &Grid, needs: &[Point]) -> Option<u32>
    requires few { length needs.now ≤ MOST_REASONS }
    ensures all { IfNone result ((points : List PointSeen) → AreMarked points marks.now →
        All (IsNeed marks.now.n points) needs.now) }
    ensures bad { IfSome result (λ k. (points : List PointSeen) → AreMarked points marks.now →
        IsFirstBadNeed marks.now.n points needs.now k) }
    ensures place { IfSome result (λ k. k ≤ MOST_REASONS) }
{
    for index in 0..needs.len() {
        let point = needs[index];
        if !is_need(marks, point) {
            return Some(index as u32 + 1);
        }
    }
    None
}

/// Splits each triangle whose centre one of these points is, with what that forces. Points that are none of the grid
/// are left out.
pub(crate) fn split_centred(n: u32, needs: &[Point], flags: &mut [bool])
    requires in_grid { (1 ≤ n) × (n ≤ GREATEST_LEVEL) }
    requires flags { length flags.old ≡ 2 ^ (2 * n + 1) }
    requires empty { (a : ℕ) → is_flagged flags.old a ≡ false }
    ensures flags { length flags.new ≡ length flags.old }
    ensures closed { IsClosed n (is_flagged flags.new) }
    ensures least { All (IsInSquare (2 ^ n)) needs.now →
        IsLeastClosed n (is_centred n needs.now) (is_flagged flags.new) }
{
    for point in needs {
        split_point(n, *point, flags);
    }
}

/// Splits each triangle whose centre this point is, with what that forces. A point that is none of the grid is left out.
fn split_point(n: u32, point: Point, flags: &mut [bool])
    requires in_grid { (1 ≤ n) × (n ≤ GREATEST_LEVEL) }
    requires flags { length flags.old ≡ 2 ^ (2 * n + 1) }
    requires closed { IsClosed n (is_flagged flags.old) }
    ensures flags { length flags.new ≡ length flags.old }
    ensures closed { IsClosed n (is_flagged flags.new) }
    ensures least { IsInSquare (2 ^ n) point → (points : List PointSeen) →
        IsLeastClosed n (is_centred n points) (is_flagged flags.old) →
        IsLeastClosed n (is_centred n (points ++ point ∷ [])) (is_flagged flags.new) }
{
    let side = 1 << n;
    if side < point.x || side < point.y {
        return;
    }
    if let Some(t) = centred_at(n, point) {
        force(flags, n, t);
    }
}

/// Whether each triangle is flagged whose centre one of these points is.
pub(crate) fn keeps(n: u32, points: &[Point], flags: &[bool]) -> bool
    requires in_grid { (1 ≤ n) × (n ≤ GREATEST_LEVEL) }
    requires inside { All (IsInSquare (2 ^ n)) points.now }
    requires closed { IsClosed n (is_flagged flags.now) }
    ensures { IsTrue result ↔ IsSubset (is_centred n points.now) (is_flagged flags.now) }
{
    for point in points {
        if !keeps_point(n, *point, flags) {
            return false;
        }
    }
    true
}

/// Whether each triangle is flagged whose centre this point is.
fn keeps_point(n: u32, point: Point, flags: &[bool]) -> bool
    requires in_grid { (1 ≤ n) × (n ≤ GREATEST_LEVEL) }
    requires point_in_grid { IsInSquare (2 ^ n) point }
    requires closed { IsClosed n (is_flagged flags.now) }
    ensures { IsTrue result ↔ IsSubset (is_centred n (point ∷ [])) (is_flagged flags.now) }
{
    match centred_at(n, point) {
        None => true,
        Some(t) => is_set(flags, t),
    }
}

/// The points of these whose triangles are not split by those before them, which are split. Answers them, in order.
///
/// Cost (not proved): a level for each point, and a few steps for each triangle that is split.
pub(crate) fn list_needs(
    alloc: Global,
    n: u32,
    points: &[Point],
    flags: &mut [bool],
) -> Result<Vec<Point>, NoMemory>
    requires in_grid { (1 ≤ n) × (n ≤ GREATEST_LEVEL) }
    requires inside { All (IsInSquare (2 ^ n)) points.now }
    requires flags { length flags.old ≡ 2 ^ (2 * n + 1) }
    requires empty { (a : ℕ) → is_flagged flags.old a ≡ false }
    ensures flags { length flags.new ≡ length flags.old }
    ensures needed { IfOk result (λ v. AreNeeded n points.now points.now v.items flags.new) }
{
    let mut needs = Vec::new(alloc);
    for point in points {
        list_need(n, *point, flags, &mut needs)?;
    }
    Ok(needs)
}

/// Puts a point behind the others and splits its triangle, unless that is split.
fn list_need(
    n: u32,
    point: Point,
    flags: &mut [bool],
    needs: &mut Vec<Point>,
) -> Result<(), NoMemory>
    requires in_grid { (1 ≤ n) × (n ≤ GREATEST_LEVEL) }
    requires point_in_grid { IsInSquare (2 ^ n) point }
    requires flags { length flags.old ≡ 2 ^ (2 * n + 1) }
    requires closed { IsClosed n (is_flagged flags.old) }
    ensures flags { length flags.new ≡ length flags.old }
    ensures needed { OnOk result ((points some : List PointSeen) → Contains points point →
        AreNeeded n points some needs.old.items flags.old →
        AreNeeded n points (some ++ point ∷ []) needs.new.items flags.new) }
{
    let Some(t) = centred_at(n, point) else {
        return Ok(());
    };
    if is_set(flags, t) {
        return Ok(());
    }
    needs.push(point)?;
    force(flags, n, t);
    Ok(())
}
