//! A frame.

ghost use Rattle.std.specs.Prelude.{◌≡◌, ℕ, ◌<◌, ◌≤◌, ◌↔◌, IsErr, IfOk, IsNone, IfSome, All, Contains, IsTrue, length};
ghost use Rattle.mesh_defs.specs.declared.point.Point.{Point};
ghost use Rattle.mesh_defs.specs.declared.counters.TheConstants.{CHANGES_AT_FRAME};
ghost use Rattle.mesh_defs.specs.declared.counters.TheConstants.{LONGEST_WAY};
ghost use Rattle.mesh_defs.specs.BestMesh.{IsBestMesh};
ghost use Rattle.mesh_defs.specs.ClosedSet.{IsSubset, leaves_of, among};
ghost use Rattle.mesh_laws.specs.Vertex.{is_mesh_vertex};
ghost use Rattle.roam_mesh.specs.Mesh.{pool_members};
ghost use Rattle.roam_mesh.specs.Chosen.{SparesChosen};
ghost use Rattle.page_laws.specs.Pages.{IsLoadedPoint};
ghost use Rattle.page_store.specs.Store.{pages_of};
ghost use Rattle.page_priority.specs.Loaded.{is_open};
ghost use Rattle.page_priority.specs.Scene.{loaded_in};
ghost use Rattle.deferred_loop.specs.Seen.{HasRoom};
ghost use Rattle.view_mesh.specs.Sight.{AreBracketed};
ghost use Rattle.view_mesh.specs.Advance.{IsAdvanced};
ghost use Rattle.world_loop.specs.World.{loaded_of, sight_of, priority_in, is_split, mesh_seen, IsWorn, IsFrameDone};

use crate::laws::world_laws;
use crate::listing::list_changed;
use crate::note::{WorldNote, Worn};
use crate::scene::scene_of;
use crate::world::World;
use mesh_defs::CHANGES_AT_FRAME;
use page_priority::{LoadedGauge, LoadedScene, loaded_laws};
use roam_mesh::Mesh;
use view_mesh::{advance, still_laws};
use view_priority::Meter;

impl World {
    /// Makes the mesh of what is loaded and seen from that of the frame before.
    ///
    /// It is the best mesh of the priorities within the budget, whatever the frames before (`best`), and the note says why
    /// it is no finer (`unblocked`, `certificate`). `done` says by which steps it was made, and at how many evaluations. No
    /// diamond is merged that holds a triangle which greedy splitting picks (`spares`). It splits open triangles alone
    /// (`open`), so each of its vertices is a point of a loaded page (`vertices`).
    ///
    /// Cost (not proved): that of `Mesh::advance`, and a step for each coarser page of a triangle that is asked; nothing
    /// where no call has changed what is loaded or seen since the frame before. Takes no memory.
    pub fn frame(&mut self) -> Result<WorldNote, Worn>
        ensures worn { IsErr result ↔ IsWorn self.old }
        ensures err { IsErr result → self.new ≡ self.old }
        ensures done { IfOk result (IsFrameDone self.old self.new) }

        // No conforming list within the budget has a lower worst.
        ensures best { IfOk result (λ note.
            IsBestMesh self.new.store.large self.new.budget (priority_in self.new) (mesh_seen self.new)) }

        // Nothing blocks exactly where no leaf is worth a split.
        ensures unblocked { IfOk result (λ note. IsNone note.steps.blocked
            ↔ All (λ a. priority_in self.new a ≡ 0) (mesh_seen self.new)) }

        // What blocks is a worst leaf, and needs more leaves than the budget.
        ensures certificate { IfOk result (λ note. IfSome note.steps.blocked (λ b. (self.new.budget < b.need)
            × (priority_in self.new b.tri ≡ note.steps.worst) × Contains (mesh_seen self.new) b.tri)) }
        ensures spares { IfOk result (λ note. SparesChosen self.new.store.large self.new.budget (priority_in self.new)
            (pool_members self.old.mesh.pool) (pool_members self.new.mesh.pool)) }
        ensures open { IfOk result (λ note. IsSubset (is_split self.new) (is_open (loaded_of self.new))) }
        ensures vertices { IfOk result (λ note. (p : Point) →
            IsTrue (is_mesh_vertex self.new.store.large (mesh_seen self.new) p) →
            IsLoadedPoint (pages_of self.new.store) p) }
    {
        loaded_laws();
        let _valid = self.store.large();
        if self.is_worn() {
            return Err(Worn);
        }
        Ok(self.frame_due())
    }

    /// The same, where the counters leave room for it: it does nothing where nothing has changed.
    fn frame_due(&mut self) -> WorldNote
        requires splits { self.old.mesh.pool.splits < CHANGES_AT_FRAME }
        requires merges { self.old.mesh.pool.merges < CHANGES_AT_FRAME }
        ensures { IsFrameDone self.old self.new result }
    {
        if let Some(note) = self.still {
            self.list.stay();
            return note;
        }
        self.frame_anew()
    }

    /// The same, whatever has changed.
    fn frame_anew(&mut self) -> WorldNote
        requires splits { self.old.mesh.pool.splits < CHANGES_AT_FRAME }
        requires merges { self.old.mesh.pool.merges < CHANGES_AT_FRAME }
        ensures { IsFrameDone self.old self.new result }
    {
        world_laws();
        still_laws();
        let _valid = self.store.large();
        let scene = scene_of!(self);
        let _before = self.mesh.pool();
        let note = advance_mesh(&mut self.mesh, scene, self.pace, self.budget, self.odometer);
        list_changed(self.mesh.pool(), self.mesh.changed(), &mut self.list);
        self.still = Some(note.without_steps());
        note
    }

    /// Whether the counters of the mesh leave no room for another frame.
    fn is_worn(&self) -> bool
        ensures { IsTrue result ↔ IsWorn self.now }
    {
        let pool = self.mesh.pool();
        pool.splits() >= CHANGES_AT_FRAME || pool.merges() >= CHANGES_AT_FRAME
    }
}

/// Makes the mesh of a scene from that of the frame before.
fn advance_mesh(
    mesh: &mut Mesh,
    scene: LoadedScene<'_>,
    pace: u64,
    budget: u32,
    odometer: u64,
) -> WorldNote
    requires n { mesh.old.pool.n ≡ scene.store.large }
    requires some { 2 ≤ budget }
    requires far { odometer ≤ LONGEST_WAY }
    requires room { HasRoom mesh.old.pool.n mesh.old.pool.most budget }
    requires splits { mesh.old.pool.splits < CHANGES_AT_FRAME }
    requires merges { mesh.old.pool.merges < CHANGES_AT_FRAME }
    requires kept { AreBracketed (sight_of pace (loaded_in scene)) odometer mesh.old }
    ensures done { IsAdvanced (sight_of pace (loaded_in scene.entry)) budget odometer mesh.old mesh.new result.steps 0
        result.evaluations }
    ensures triangles { result.triangles ≡ length (leaves_of scene.entry.store.large (among (pool_members mesh.new.pool))) }
{
    world_laws();
    let _valid = scene.store.large();
    let mut gauge = LoadedGauge::new(scene, pace, Meter::new());
    let steps = advance(mesh, &mut gauge, budget, odometer);
    WorldNote {
        triangles: mesh.pool().leaf_count(),
        steps,
        evaluations: gauge.into_meter().count(),
    }
}
