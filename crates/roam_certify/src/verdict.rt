//! The verdict on a certificate.

ghost use Rattle.std.specs.Prelude.{◌≡◌, ℕ, ◌+◌, ◌*◌, ◌^◌, ◌<◌, ◌≤◌, false, [], All, IfOk, length, max};
ghost use Rattle.mesh_defs.specs.Triangle.{level_of, IsAddress};
ghost use Rattle.mesh_defs.specs.Priority.{priority_of, worst_of};
ghost use Rattle.mesh_defs.specs.State.{priority_seen};
ghost use Rattle.mesh_defs.specs.declared.level.TheConstants.{GREATEST_LEVEL};
ghost use Rattle.wedgie_tree.specs.declared.wedges.TheConstants.{GREATEST_SPACING};
ghost use Rattle.view_priority.specs.Camera.{view_from};
ghost use Rattle.mesh_laws.specs.Sweep.{is_flagged};
ghost use Rattle.certificate_laws.specs.declared.reason.Verdict.{Verdict};
ghost use Rattle.certificate_laws.specs.Certificate.{IsVerdict};
ghost use Rattle.cert_text.specs.declared.limits.TheConstants.{MOST_REASONS};

use crate::checking::first_bad;
use crate::conforming::is_conforming;
use address_flags::end;
use bintree_addr::Tri;
use cert_text::Cert;
use certificate_laws::{Reason, Reject, Verdict};
use cull_marks::Planes;
use mesh_defs::NoMemory;
use std::alloc::Global;
use view_priority::Scene;
use wedgie_tree::Wedges;

/// The verdict on a certificate: that it is sound, or the first part that fails.
///
/// Cost (not proved): two bytes for each address; three passes over the leaves, two over the splittable addresses
/// and one over the reasons, and a priority for each leaf and each wanted triangle.
pub fn check(
    alloc: Global,
    w: &Wedges,
    cert: &Cert,
    spacing: u32,
    budget: u32,
) -> Result<Verdict, NoMemory>
    requires leaves { All (IsAddress w.now.n) cert.now.leaves }
    requires spacing_low { 1 ≤ spacing }
    requires spacing_high { spacing ≤ GREATEST_SPACING }
    ensures verdict { IfOk result (λ v.
        let p = priority_of w.now.n w.now.heights (view_from cert.now.camera spacing []) in
        IsVerdict w.now.n budget p cert.now.leaves cert.now.reasons v) }
{
    let n = w.grid().n();
    let mut splits = vec![in alloc; false; end(n) as usize]?;
    let mut seen = vec![in alloc; false; 2 * end(n) as usize]?;
    let mut named = vec![in alloc; false; end(n) as usize]?;
    let planes = Planes::none();
    let camera = cert.camera();
    let scene = Scene {
        wedges: w,
        camera: &camera,
        spacing,
        planes: &planes,
        threshold: 0,
    };
    Ok(verdict(
        n,
        &scene,
        &mut splits,
        &mut seen,
        &mut named,
        cert.leaves(),
        cert.reasons(),
        budget,
    ))
}

/// The verdict on leaves and reasons, in a view.
///
/// At first none of the three tables of flags has one set. Takes no memory.
fn verdict(
    n: u32,
    scene: &Scene<'_>,
    splits: &mut [bool],
    seen: &mut [bool],
    named: &mut [bool],
    leaves: &[Tri],
    reasons: &[Reason],
    budget: u32,
) -> Verdict
    requires in_grid { (1 ≤ n) × (n ≤ GREATEST_LEVEL) }
    requires grid { scene.now.grid.n ≡ n }
    requires splits_room { length splits.old ≡ 2 ^ (2 * n + 1) }
    requires seen_room { All (λ t. t < length seen.old) leaves.now }
    requires named_room { length named.old ≡ 2 ^ (2 * n + 1) }
    requires splits_empty { (a : ℕ) → is_flagged splits.old a ≡ false }
    requires seen_empty { (a : ℕ) → is_flagged seen.old a ≡ false }
    requires named_empty { (a : ℕ) → is_flagged named.old a ≡ false }
    requires addresses { All (IsAddress n) leaves.now }
    requires few { length reasons.now ≤ MOST_REASONS }
    ensures verdict { IsVerdict n budget (priority_seen scene.now) leaves.now reasons.now result }
{
    if !is_conforming(n, splits, seen, leaves) {
        return rejected(Reject::NotConforming);
    }
    if leaves.len() > budget as usize {
        return rejected(Reject::OverBudget);
    }
    let worst = worst_leaf(n, scene, leaves);
    if let Some(index) = first_bad(n, named, scene, worst, reasons) {
        return rejected(Reject::BadReason { index });
    }
    if worst > 0 && reasons.len() + 1 < budget as usize {
        return rejected(Reject::TooFewReasons);
    }
    Verdict::Certified {
        triangles: leaves.len() as u32,
        worst,
    }
}

/// The verdict that this part is the first that fails.
fn rejected(why: Reject) -> Verdict
    ensures { result ≡ Verdict.Rejected why }
{
    Verdict::Rejected { why }
}

/// The greatest priority of a leaf.
fn worst_leaf(n: u32, scene: &Scene<'_>, leaves: &[Tri]) -> u64
    requires grid { scene.now.grid.n ≡ n }
    requires addresses { All (IsAddress n) leaves.now }
    ensures value { result ≡ worst_of (priority_seen scene.now) leaves.now }
{
    let mut worst = 0;
    for leaf in leaves {
        worst = greater(worst, scene.priority(*leaf));
    }
    worst
}

/// The greater of two priorities.
fn greater(some: u64, other: u64) -> u64
    ensures { result ≡ max some other }
{
    if some < other { other } else { some }
}
