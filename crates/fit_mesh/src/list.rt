//! Leaves and their parents: the list of a set, and the set of a list.

ghost use Rattle.std.specs.Prelude.{◌≡◌, ℕ, ◌+◌, ◌-◌, ◌*◌, ◌/◌, ◌^◌, ◌<◌, ◌≤◌, ◌++◌, ◌∷◌, [], ◌↔◌, ◌||◌, IsTrue, All, List};
ghost use Rattle.std.specs.Prelude.{length, take, vec_capacity};
ghost use Rattle.mesh_defs.specs.Triangle.{level_of, IsAddress};
ghost use Rattle.mesh_defs.specs.ClosedSet.{IsClosed, leaves_under, leaves_of};
ghost use Rattle.mesh_defs.specs.declared.level.TheConstants.{GREATEST_LEVEL};
ghost use Rattle.mesh_laws.specs.Sweep.{is_flagged};
ghost use Rattle.fit_mesh.specs.Log.{IsLogged, KeepsLog};
ghost use Rattle.fit_mesh.specs.Splits.{IsLeastAbove};

use crate::force::{clear, split_above};
use address_flags::is_set;
use bintree_addr::Tri;

/// The list becomes that of the leaves of the flagged set, depth first: 2 before 3, and left child before right child.
///
/// There is room for every mesh of the grid. Cost (not proved): a step for each leaf and each member.
pub fn list_set(flags: &[bool], n: u32, list: &mut Vec<Tri>)
    requires in_grid { n ≤ GREATEST_LEVEL }
    requires room { 2 ^ (2 * n + 1) ≤ vec_capacity list.old }
    ensures listed { list.new.items ≡ leaves_of n (is_flagged flags.now) }
    ensures capacity { vec_capacity list.new ≡ vec_capacity list.old }
{
    list.clear();
    push_leaves(flags, 2 * n, Tri::LOWER, list);
    push_leaves(flags, 2 * n, Tri::UPPER, list);
}

/// Puts the leaves at and below the triangle, which has so many levels below it, behind the others.
fn push_leaves(flags: &[bool], levels: u32, t: Tri, list: &mut Vec<Tri>)
    requires deep { levels + level_of t ≤ 28 }
    requires room { length list.old.items + length (leaves_under levels (is_flagged flags.now) t)
        ≤ vec_capacity list.old }
    ensures listed { list.new.items ≡ list.old.items ++ leaves_under levels (is_flagged flags.now) t }
    ensures capacity { vec_capacity list.new ≡ vec_capacity list.old }
{
    if levels == 0 || !is_set(flags, t) {
        list.push_reserved(t);
        return;
    }
    push_leaves(flags, levels - 1, t.left(), list);
    push_leaves(flags, levels - 1, t.right(), list);
}

/// The set becomes the least one that has the parents of these triangles.
pub fn split_above_all(flags: &mut [bool], log: &mut Vec<Tri>, n: u32, triangles: &[Tri])
    requires in_grid { (1 ≤ n) × (n ≤ GREATEST_LEVEL) }
    requires addresses { All (λ a. IsAddress n a) triangles.now }
    requires flags { length flags.old ≡ 2 ^ (2 * n + 1) }
    requires room { 2 ^ (2 * n + 1) ≤ vec_capacity log.old }
    ensures flags { length flags.new ≡ length flags.old }
    ensures capacity { vec_capacity log.new ≡ vec_capacity log.old }
    ensures above { IsLeastAbove n triangles.now (is_flagged flags.new) }
{
    clear(flags);
    log.clear();
    for t in triangles {
        split_above(flags, log, n, *t);
    }
}

/// The same of triangles by their numbers.
pub fn split_above_numbers(flags: &mut [bool], log: &mut Vec<Tri>, n: u32, numbers: &[u32])
    requires in_grid { (1 ≤ n) × (n ≤ GREATEST_LEVEL) }
    requires addresses { All (λ a. IsAddress n a) numbers.now }
    requires flags { length flags.old ≡ 2 ^ (2 * n + 1) }
    requires room { 2 ^ (2 * n + 1) ≤ vec_capacity log.old }
    ensures flags { length flags.new ≡ length flags.old }
    ensures capacity { vec_capacity log.new ≡ vec_capacity log.old }
    ensures above { IsLeastAbove n numbers.now (is_flagged flags.new) }
{
    clear(flags);
    log.clear();
    for number in numbers {
        let t = Tri::at(*number).unwrap();
        split_above(flags, log, n, t);
    }
}

/// Whether each number is the address of a triangle of the grid.
pub fn are_addresses(n: u32, numbers: &[u32]) -> bool
    requires in_grid { n ≤ GREATEST_LEVEL }
    ensures { IsTrue result ↔ All (λ a. IsAddress n a) numbers.now }
{
    for number in numbers {
        if !is_address(n, *number) {
            return false;
        }
    }
    true
}

/// Whether the number is the address of a triangle of the grid.
fn is_address(n: u32, number: u32) -> bool
    requires in_grid { n ≤ GREATEST_LEVEL }
    ensures { IsTrue result ↔ IsAddress n number }
{
    if number < 2 {
        return false;
    }
    number < 1 << (2 * n + 2)
}

/// Whether these are the addresses of the triangles.
pub fn are_numbers_of(triangles: &[Tri], numbers: &[u32]) -> bool
    ensures { IsTrue result ↔ (triangles.now ≡ numbers.now) }
{
    if triangles.len() != numbers.len() {
        return false;
    }
    for (k, t) in triangles.iter().enumerate() {
        if t.number() != numbers[k] {
            return false;
        }
    }
    true
}
