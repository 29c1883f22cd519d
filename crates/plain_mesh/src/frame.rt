//! The frame of a budget.

ghost use Rattle.std.specs.Prelude.{◌≡◌, ◌<◌, ◌≤◌, ◌↔◌, IfOk, IfSome, IsNone, All, Contains};
ghost use Rattle.mesh_defs.specs.ClosedSet.{leaves_of, among};
ghost use Rattle.mesh_defs.specs.Priority.{priority_of};
ghost use Rattle.mesh_defs.specs.BestMesh.{IsBestMesh};
ghost use Rattle.wedgie_tree.specs.declared.wedges.TheConstants.{GREATEST_SPACING};
ghost use Rattle.view_priority.specs.Camera.{view_from};
ghost use Rattle.mesh_laws.specs.Frame.{IsFrame};

use crate::falling_laws;
use crate::ranking::ranking_of;
use crate::refining::refined;
use bintree_addr::Blocked;
use cull_marks::Planes;
use diamond_rel::Split;
use mesh_defs::NoMemory;
use mesh_laws::frame_laws;
use std::alloc::Global;
use view_priority::{Camera, Scene};
use wedgie_tree::Wedges;

/// The mesh of a frame, and why it is no finer.
#[derive(Drop)]
pub struct PlainFrame {
    /// The triangles that are split: the leaves of this set are the mesh.
    pub split: Split,
    /// The greatest priority of a leaf.
    pub worst: u64,
    /// The first triangle in rank that the budget does not let in; none where every leaf has priority 0.
    pub blocked: Option<Blocked>,
}

/// The mesh of a budget in a view, made from scratch.
///
/// The triangles are split in rank order, each with what it forces, up to the first that does not fit
/// the budget; no smaller one behind it is tried.
/// Cost (not proved): two evaluations of a priority for each splittable triangle, a sort of those of positive
/// priority at 16 bytes each, and for each chosen one that was not forced before two copies of the set.
/// Source: Duchaineau et al., "ROAMing Terrain", IEEE Visualization 1997, the part on the greedy
/// algorithm, with a sort in the place of the split queue.
pub fn plain_frame(
    alloc: Global,
    w: &Wedges,
    camera: &Camera,
    spacing: u32,
    planes: &Planes,
    budget: u32,
) -> Result<PlainFrame, NoMemory>
    requires spacing_low { 1 ≤ spacing }
    requires spacing_high { spacing ≤ GREATEST_SPACING }
    requires budget { 2 ≤ budget }
    ensures grid { IfOk result (λ f. f.split.n ≡ w.now.n) }
    ensures frame { IfOk result (λ f.
        let p = priority_of w.now.n w.now.heights (view_from camera.now spacing planes.now) in
        IsFrame w.now.n budget p (among f.split.members) f.worst f.blocked) }

    // No conforming list within the budget has a lower worst.
    ensures best { IfOk result (λ f.
        let p = priority_of w.now.n w.now.heights (view_from camera.now spacing planes.now) in
        IsBestMesh w.now.n budget p (leaves_of w.now.n (among f.split.members))) }

    // Nothing blocks exactly where no leaf is worth a split.
    ensures unblocked { IfOk result (λ f.
        let p = priority_of w.now.n w.now.heights (view_from camera.now spacing planes.now) in
        IsNone f.blocked ↔ All (λ a. p a ≡ 0) (leaves_of w.now.n (among f.split.members))) }

    // What blocks is a worst leaf, and needs more leaves than the budget.
    ensures certificate { IfOk result (λ f. IfSome f.blocked (λ b.
        let p = priority_of w.now.n w.now.heights (view_from camera.now spacing planes.now) in
        (budget < b.need) × (p b.tri ≡ f.worst)
        × Contains (leaves_of w.now.n (among f.split.members)) b.tri)) }
{
    frame_laws();
    falling_laws();
    let scene = Scene {
        wedges: w,
        camera,
        spacing,
        planes,
        threshold: 0,
    };
    let ranking = ranking_of(alloc, &scene)?;
    let frame = refined(alloc, scene.n(), &ranking, budget)?;
    Ok(frame)
}
