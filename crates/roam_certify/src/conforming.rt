//! Whether a list of triangles is conforming, in any order, by a flag for each split triangle and each entry.

ghost use Rattle.std.specs.Prelude.{◌≡◌, ℕ, ◌+◌, ◌*◌, ◌^◌, ◌<◌, ◌≤◌, ◌↔◌, List, IsTrue, IfSome, IfNone, true, false};
ghost use Rattle.std.specs.Prelude.{length, All};
ghost use Rattle.mesh_defs.specs.Triangle.{IsAddress, IsSplittable, IsMate};
ghost use Rattle.mesh_defs.specs.Tiling.{IsConforming};
ghost use Rattle.mesh_defs.specs.declared.level.TheConstants.{GREATEST_LEVEL};
ghost use Rattle.mesh_laws.specs.Ancestors.{ancestors_of};
ghost use Rattle.mesh_laws.specs.Sweep.{is_flagged};
ghost use Rattle.roam_certify.specs.Climb.{AreParentsFlagged, IsClimbed, IsCountedBelow, AreLeavesOf};

use address_flags::{end, flag, flag_parent, is_set};
use bintree_addr::Tri;

/// Whether the list is conforming.
///
/// At first no flag is set; at the end those of the split triangles, and in `seen` those of entries.
pub fn is_conforming(n: u32, flags: &mut [bool], seen: &mut [bool], triangles: &[Tri]) -> bool
    requires in_grid { (1 ≤ n) × (n ≤ GREATEST_LEVEL) }
    requires room { length flags.old ≡ 2 ^ (2 * n + 1) }
    requires seen_room { All (λ t. t < length seen.old) triangles.now }
    requires empty { (a : ℕ) → is_flagged flags.old a ≡ false }
    requires seen_empty { (a : ℕ) → is_flagged seen.old a ≡ false }
    requires addresses { All (IsAddress n) triangles.now }
    ensures value { IsTrue result ↔ IsConforming n triangles.now }
{
    flag_ancestors(flags, n, triangles);
    match count_splits(flags, n) {
        None => false,
        Some(count) => are_leaves(flags, seen, triangles) && triangles.len() == count as usize + 2,
    }
}

/// Flags the ancestors of the entries.
fn flag_ancestors(flags: &mut [bool], n: u32, triangles: &[Tri])
    requires in_grid { (1 ≤ n) × (n ≤ GREATEST_LEVEL) }
    requires room { length flags.old ≡ 2 ^ (2 * n + 1) }
    requires empty { (a : ℕ) → is_flagged flags.old a ≡ false }
    requires addresses { All (IsAddress n) triangles.now }
    ensures room { length flags.new ≡ length flags.old }
    ensures value { (a : ℕ) → is_flagged flags.new a ≡ ancestors_of triangles.now a }
{
    flag_parents(flags, n, triangles);
    climb(flags, n);
}

/// Flags the parent of each entry.
fn flag_parents(flags: &mut [bool], n: u32, triangles: &[Tri])
    requires in_grid { (1 ≤ n) × (n ≤ GREATEST_LEVEL) }
    requires room { length flags.old ≡ 2 ^ (2 * n + 1) }
    requires empty { (a : ℕ) → is_flagged flags.old a ≡ false }
    requires addresses { All (IsAddress n) triangles.now }
    ensures room { length flags.new ≡ length flags.old }
    ensures entered { AreParentsFlagged triangles.now triangles.now (is_flagged flags.new) }
{
    for index in 0..triangles.len() {
        flag_parent(flags, triangles[index]);
    }
}

/// Flags the parents of flagged triangles, and theirs, from the last address down.
fn climb(flags: &mut [bool], n: u32)
    requires in_grid { (1 ≤ n) × (n ≤ GREATEST_LEVEL) }
    requires room { length flags.old ≡ 2 ^ (2 * n + 1) }
    ensures room { length flags.new ≡ length flags.old }
    ensures climbed { (triangles : List ℕ) → All (IsAddress n) triangles →
        AreParentsFlagged triangles triangles (is_flagged flags.old) → IsClimbed triangles (is_flagged flags.new) 2 }
{
    for number in (2..end(n)).rev() {
        if flags[number as usize] {
            flag_parent(flags, Tri::at(number).unwrap());
        }
    }
}

/// How many triangles are flagged, if each has its mate.
fn count_splits(flags: &[bool], n: u32) -> Option<u32>
    requires in_grid { (1 ≤ n) × (n ≤ GREATEST_LEVEL) }
    requires room { length flags.now ≡ 2 ^ (2 * n + 1) }
    requires splittable { (a : ℕ) → IsTrue (is_flagged flags.now a) → IsSplittable n a }
    ensures some { IfSome result (λ count. IsCountedBelow n (is_flagged flags.now) (2 ^ (2 * n + 1)) count) }
    ensures none { IfNone result ((a : ℕ) × (b : ℕ) × IsTrue (is_flagged flags.now a) × IsMate n a b
        × (is_flagged flags.now b ≡ false)) }
{
    let mut count = 0;
    for number in 2..end(n) {
        if flags[number as usize] {
            if !has_mate(flags, n, Tri::at(number).unwrap()) {
                return None;
            }
            count += 1;
        }
    }
    Some(count)
}

/// Whether the triangle's mate is flagged, where it has one.
fn has_mate(flags: &[bool], n: u32, t: Tri) -> bool
    requires in_grid { (1 ≤ n) × (n ≤ GREATEST_LEVEL) }
    requires splittable { IsSplittable n t }
    ensures mate { result ≡ true → (b : ℕ) → IsMate n t b → IsTrue (is_flagged flags.now b) }
    ensures lacks { result ≡ false → ((b : ℕ) × IsMate n t b × (is_flagged flags.now b ≡ false)) }
{
    match t.mate(n) {
        None => true,
        Some(mate) => is_set(flags, mate),
    }
}

/// Whether no entry stands twice or is flagged.
fn are_leaves(flags: &[bool], seen: &mut [bool], triangles: &[Tri]) -> bool
    requires seen_room { All (λ t. t < length seen.old) triangles.now }
    requires seen_empty { (a : ℕ) → is_flagged seen.old a ≡ false }
    ensures value { IsTrue result ↔ AreLeavesOf (is_flagged flags.now) triangles.now }
{
    for index in 0..triangles.len() {
        let t = triangles[index];
        if is_set(flags, t) || is_set(seen, t) {
            return false;
        }
        flag(seen, t);
    }
    true
}
