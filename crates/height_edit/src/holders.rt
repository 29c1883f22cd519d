//! The triangles that hold a point, level by level.

ghost use Rattle.std.specs.Prelude.{◌≡◌, ℕ, ◌+◌, ◌*◌, ◌^◌, ◌<◌, ◌≤◌, ◌++◌, length, All};
ghost use Rattle.mesh_defs.specs.Triangle.{level_of};
ghost use Rattle.mesh_defs.specs.BoundingBox.{point};
ghost use Rattle.mesh_defs.specs.declared.level.TheConstants.{GREATEST_LEVEL};
ghost use Rattle.height_edit.specs.Holders.{held_from, holders};
ghost use Rattle.height_edit.specs.Weights.{offspring, weights};

use arrayvec::ArrayVec;
use bintree_addr::Tri;
use bintree_laws::{corner_laws, level_laws};
use wedgie_tree::edit_laws;

/// The most triangles of one level that hold a point.
const AROUND: usize = 8;

/// Room for the triangles that hold a point: at most `AROUND` on each of at most 29 levels.
pub const HOLDERS: usize = 232;

/// All triangles that hold the point, by address.
pub fn holders(n: u32, x: u32, y: u32) -> ArrayVec<Tri, HOLDERS>
    requires in_grid { (1 ≤ n) × (n ≤ GREATEST_LEVEL) }
    requires in_columns { x ≤ 2 ^ n }
    requires in_rows { y ≤ 2 ^ n }
    ensures { result.items ≡ holders n (point x y) }
{
    corner_laws();
    level_laws();
    edit_laws();
    let mut level = bases(n, x, y);
    let mut all = ArrayVec::new();
    append(&mut all, level.as_slice());
    for _depth in 0..2 * n {
        level = children(level.as_slice(), n, x, y);
        append(&mut all, level.as_slice());
    }
    all
}

/// The halves of the square that hold the point.
fn bases(n: u32, x: u32, y: u32) -> ArrayVec<Tri, AROUND>
    requires in_grid { (1 ≤ n) × (n ≤ GREATEST_LEVEL) }
    requires in_columns { x ≤ 2 ^ n }
    requires in_rows { y ≤ 2 ^ n }
    ensures { result.items ≡ held_from n (point x y) 2 2 }
{
    level_laws();
    let mut held = ArrayVec::new();
    push_pair(&mut held, 2, n, x, y);
    held
}

/// Adds the triangles of a level.
fn append(all: &mut ArrayVec<Tri, HOLDERS>, level: &[Tri])
    requires room { length all.old.items + length level.now ≤ HOLDERS }
    ensures { all.new.items ≡ all.old.items ++ level.now }
{
    for i in 0..level.len() {
        all.push(level[i]);
    }
}

/// The children of these triangles that hold the point.
fn children(level: &[Tri], n: u32, x: u32, y: u32) -> ArrayVec<Tri, AROUND>
    requires in_grid { (1 ≤ n) × (n ≤ GREATEST_LEVEL) }
    requires in_columns { x ≤ 2 ^ n }
    requires in_rows { y ≤ 2 ^ n }
    requires splittable { All (λ a. level_of a < 2 * n) level.now }
    requires room { length (offspring n (point x y) level.now) ≤ AROUND }
    ensures { result.items ≡ offspring n (point x y) level.now }
{
    level_laws();
    let mut held = ArrayVec::new();
    for i in 0..level.len() {
        push_pair(&mut held, 2 * level[i].number(), n, x, y);
    }
    held
}

/// Adds those of the triangles `left` and `left` + 1 that hold the point.
fn push_pair(held: &mut ArrayVec<Tri, AROUND>, left: u32, n: u32, x: u32, y: u32)
    requires in_grid { (1 ≤ n) × (n ≤ GREATEST_LEVEL) }
    requires in_columns { x ≤ 2 ^ n }
    requires in_rows { y ≤ 2 ^ n }
    requires low { 2 ≤ left }
    requires high { left + 1 < 2 ^ (2 * n + 2) }
    requires room { length held.old.items + length (held_from n (point x y) left 2) ≤ AROUND }
    ensures { held.new.items ≡ held.old.items ++ held_from n (point x y) left 2 }
{
    push_held(held, left, n, x, y);
    push_held(held, left + 1, n, x, y);
}

/// Adds a triangle where it holds the point.
fn push_held(held: &mut ArrayVec<Tri, AROUND>, number: u32, n: u32, x: u32, y: u32)
    requires in_grid { (1 ≤ n) × (n ≤ GREATEST_LEVEL) }
    requires in_columns { x ≤ 2 ^ n }
    requires in_rows { y ≤ 2 ^ n }
    requires low { 2 ≤ number }
    requires high { number < 2 ^ (2 * n + 2) }
    requires room { length held.old.items + length (held_from n (point x y) number 1) ≤ AROUND }
    ensures { held.new.items ≡ held.old.items ++ held_from n (point x y) number 1 }
{
    level_laws();
    let tri = triangle(number);
    if tri.holds_point(n, x, y) {
        held.push(tri);
    }
}

/// The triangle with this address.
fn triangle(number: u32) -> Tri
    requires low { 2 ≤ number }
    requires high { number < 2 ^ 30 }
    ensures { result ≡ number }
{
    Tri::at(number).unwrap()
}
