//! Checking the reasons of a certificate by one flag per address.

ghost use Rattle.std.specs.Prelude.{◌≡◌, ℕ, ◌+◌, ◌*◌, ◌^◌, ◌≤◌, ◌↔◌, IsTrue, IfSome, IfNone, false, [], length};
ghost use Rattle.mesh_defs.specs.Triangle.{IsSplittable};
ghost use Rattle.mesh_defs.specs.State.{priority_seen};
ghost use Rattle.mesh_defs.specs.declared.level.TheConstants.{GREATEST_LEVEL};
ghost use Rattle.mesh_laws.specs.Sweep.{is_flagged};
ghost use Rattle.certificate_laws.specs.Certificate.{IsReason, AreReasons, IsFirstBad};
ghost use Rattle.cert_text.specs.declared.limits.TheConstants.{MOST_REASONS};

use address_flags::{flag, is_set};
use bintree_addr::Tri;
use certificate_laws::{Kind, Reason};
use view_priority::Scene;

/// The number of the first reason that is none, counted from 1, if there is one.
///
/// The flags are those of no triangle at first, and at the end those of the good reasons. Takes no memory.
pub fn first_bad(
    n: u32,
    flags: &mut [bool],
    scene: &Scene<'_>,
    worst: u64,
    reasons: &[Reason],
) -> Option<u32>
    requires in_grid { (1 ≤ n) × (n ≤ GREATEST_LEVEL) }
    requires room { length flags.old ≡ 2 ^ (2 * n + 1) }
    requires grid { scene.now.grid.n ≡ n }
    requires empty { (a : ℕ) → is_flagged flags.old a ≡ false }
    requires few { length reasons.now ≤ MOST_REASONS }
    ensures good { IfNone result (AreReasons n (priority_seen scene.now) worst [] reasons.now) }
    ensures bad { IfSome result (λ k. IsFirstBad n (priority_seen scene.now) worst reasons.now k) }
{
    for index in 0..reasons.len() {
        let Reason { kind, triangle } = reasons[index];
        if !is_reason(n, flags, scene, worst, kind, triangle) {
            return Some(index as u32 + 1);
        }
        flag(flags, triangle);
    }
    None
}

/// Whether this is a reason behind those of the flagged triangles.
fn is_reason(n: u32, flags: &[bool], scene: &Scene<'_>, worst: u64, kind: Kind, t: Tri) -> bool
    requires in_grid { (1 ≤ n) × (n ≤ GREATEST_LEVEL) }
    requires room { length flags.now ≡ 2 ^ (2 * n + 1) }
    requires grid { scene.now.grid.n ≡ n }
    requires addresses { (a : ℕ) → IsTrue (is_flagged flags.now a) → IsSplittable n a }
    ensures value { IsTrue result ↔
        IsReason n (priority_seen scene.now) worst (is_flagged flags.now) (record { kind = kind; triangle = t }) }
{
    if t.level() >= 2 * n {
        return false;
    }
    if is_set(flags, t) {
        return false;
    }
    match kind {
        Kind::Want => scene.priority(t) >= worst,
        Kind::Parent => is_set(flags, t.left()) || is_set(flags, t.right()),
        Kind::Mate => match t.mate(n) {
            None => false,
            Some(mate) => is_set(flags, mate),
        },
    }
}
