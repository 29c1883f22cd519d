//! The certificate of an optimal mesh, and that of the greedy mesh.

ghost use Rattle.std.specs.Prelude.{◌≡◌, ◌+◌, ◌*◌, ◌^◌, ◌<◌, ◌≤◌, [], IfOk, length};
ghost use Rattle.mesh_defs.specs.BestMesh.{IsBestMesh};
ghost use Rattle.mesh_defs.specs.Priority.{priority_of, worst_of};
ghost use Rattle.wedgie_tree.specs.declared.wedges.TheConstants.{GREATEST_SPACING};
ghost use Rattle.view_priority.specs.Camera.{view_from};
ghost use Rattle.certificate_laws.specs.Certificate.{IsSound, IsOptimal};
ghost use Rattle.cert_text.specs.declared.limits.TheConstants.{MOST_LEAVES, MOST_REASONS};

use crate::making::make_reasons;
use address_flags::end;
use bintree_addr::Tri;
use cert_text::Cert;
use certificate_laws::{certificate_laws, reason_laws};
use cull_marks::Planes;
use mesh_defs::NoMemory;
use plain_mesh::{falling_laws, plain_frame};
use std::alloc::Global;
use view_priority::{Camera, Scene};
use wedgie_tree::Wedges;

/// A sound certificate of the greedy mesh of a budget, seen from the camera without view planes.
///
/// The leaves are depth first. The mesh is made from scratch; who has one already, as from an engine, calls
/// `certify_mesh`.
/// Cost (not proved): that of `plain_frame`, of a list of the leaves, and of `certify_mesh`.
pub fn make_cert(
    alloc: Global,
    w: &Wedges,
    camera: &Camera,
    spacing: u32,
    budget: u32,
) -> Result<Cert, NoMemory>
    requires spacing_low { 1 ≤ spacing }
    requires spacing_high { spacing ≤ GREATEST_SPACING }
    requires budget_low { 2 ≤ budget }
    requires budget_high { budget ≤ MOST_LEAVES }
    ensures camera { IfOk result (λ c. c.camera ≡ camera.now) }
    ensures best { IfOk result (λ c.
        let p = priority_of w.now.n w.now.heights (view_from camera.now spacing []) in
        IsBestMesh w.now.n budget p c.leaves) }
    ensures sound { IfOk result (λ c.
        let p = priority_of w.now.n w.now.heights (view_from camera.now spacing []) in
        IsSound w.now.n budget p c.leaves c.reasons) }
    ensures few { IfOk result (λ c. length c.reasons < budget) }
    ensures readable { IfOk result (λ c. length c.reasons ≤ MOST_REASONS) }
{
    certificate_laws();
    let frame = plain_frame(alloc, w, camera, spacing, &Planes::none(), budget)?;
    let leaves = frame.split.leaves(alloc)?;
    certify_mesh(alloc, w, camera, spacing, budget, leaves, frame.worst)
}

/// A sound certificate of an optimal mesh within a budget, seen from the camera without view planes.
///
/// The caller has the leaves and their worst from whoever found the mesh: the frame of a budget is optimal
/// (`frame_laws` of `mesh_laws`, and `best` of `certificate_laws`), whether it was made from scratch or by an
/// engine.
/// Cost (not proved): a byte for each splittable triangle, a look at each of these bytes until there are reasons
/// enough, two priorities for each triangle that is worse than the mesh or as bad, and a step for each reason.
pub fn certify_mesh(
    alloc: Global,
    w: &Wedges,
    camera: &Camera,
    spacing: u32,
    budget: u32,
    leaves: Vec<Tri>,
    worst: u64,
) -> Result<Cert, NoMemory>
    requires spacing_low { 1 ≤ spacing }
    requires spacing_high { spacing ≤ GREATEST_SPACING }
    requires budget_low { 2 ≤ budget }
    requires budget_high { budget ≤ MOST_LEAVES }
    requires optimal { let p = priority_of w.now.n w.now.heights (view_from camera.now spacing []) in
        IsOptimal w.now.n budget p leaves.items }
    requires worst { let p = priority_of w.now.n w.now.heights (view_from camera.now spacing []) in
        worst ≡ worst_of p leaves.items }
    ensures camera { IfOk result (λ c. c.camera ≡ camera.now) }
    ensures leaves { IfOk result (λ c. c.leaves ≡ leaves.items) }
    ensures sound { IfOk result (λ c.
        let p = priority_of w.now.n w.now.heights (view_from camera.now spacing []) in
        IsSound w.now.n budget p c.leaves c.reasons) }
    ensures few { IfOk result (λ c. length c.reasons < budget) }
{
    certificate_laws();
    reason_laws();
    falling_laws();
    let n = w.grid().n();
    let planes = Planes::none();
    let mut named = vec![in alloc; false; end(n) as usize]?;
    let scene = Scene {
        wedges: w,
        camera,
        spacing,
        planes: &planes,
        threshold: 0,
    };
    let reasons = make_reasons(alloc, n, &mut named, &scene, worst, budget)?;
    Ok(Cert::new(*camera, leaves, reasons))
}
