//! The length of a table, its reads and its writes.

ghost use Rattle.std.specs.Prelude.{◌≡◌, ℕ, ◌+◌, ◌*◌, ◌^◌, ◌<◌, ◌≤◌, length, true, set};
ghost use Rattle.mesh_defs.specs.Greedy.{with_triangle};
ghost use Rattle.mesh_defs.specs.declared.level.TheConstants.{GREATEST_LEVEL};
ghost use Rattle.mesh_laws.specs.Sweep.{is_flagged, IsParentMarked};

use bintree_addr::Tri;

/// The first address past the splittable ones: the length of a table.
pub fn end(n: u32) -> u32
    requires in_grid { (1 ≤ n) × (n ≤ GREATEST_LEVEL) }
    ensures value { result ≡ 2 ^ (2 * n + 1) }
    ensures low { 2 ≤ result }
    ensures high { result ≤ 2 ^ 29 }
{
    1 << (2 * n + 1)
}

/// Whether the triangle is flagged; one past the end of the table is not.
pub fn is_set(flags: &[bool], t: Tri) -> bool
    ensures value { result ≡ is_flagged flags.now t }
{
    let place = t.number() as usize;
    place < flags.len() && flags[place]
}

/// Flags a triangle.
pub fn flag(flags: &mut [bool], t: Tri)
    requires room { t < length flags.old }
    ensures room { length flags.new ≡ length flags.old }
    ensures value { flags.new ≡ set flags.old t true }
    ensures added { (a : ℕ) → is_flagged flags.new a ≡ with_triangle (is_flagged flags.old) t a }
{
    flags[t.number() as usize] = true;
}

/// Flags the parent of a triangle, where it has one.
pub fn flag_parent(flags: &mut [bool], t: Tri)
    requires room { t < 2 * length flags.old }
    ensures room { length flags.new ≡ length flags.old }
    ensures marked { IsParentMarked t (is_flagged flags.old) (is_flagged flags.new) }
{
    if let Some(parent) = t.parent() {
        flag(flags, parent);
    }
}
