//! The world.

ghost use Rattle.std.specs.Prelude.{◌≡◌, ℕ, ◌*◌, ◌^◌, ◌≤◌, min, false, IfOk};
ghost use Rattle.mesh_defs.specs.View.{start_view};
ghost use Rattle.wedgie_tree.specs.declared.wedges.TheConstants.{GREATEST_SPACING};
ghost use Rattle.triangle_pool.specs.declared.pool.TheConstants.{MOST_LEAVES};
ghost use Rattle.mesh_laws.specs.Slots.{split_set};
ghost use Rattle.view_mesh.specs.Sight.{AreBracketed};
ghost use Rattle.world_loop.specs.World.{loaded_of, sight_of, mesh_seen};
ghost use Rattle.world_loop.specs.declared.world.TheConstants.{FIRST_PACE};

use crate::note::WorldNote;
use bintree_addr::Tri;
use cull_marks::Planes;
use mesh_arrays::LeafList;
use mesh_defs::NoMemory;
use page_store::PageStore;
use roam_mesh::Mesh;
use std::alloc::Global;
use std::marker::Model;
use triangle_pool::Pool;
use view_mesh::leaf_room;
use view_priority::Camera;

/// The pace of a camera that has not moved yet, in world units.
pub const FIRST_PACE: u64 = 8;

/// What is loaded of a terrain, a view of it, and the mesh that follows the view.
#[derive(Drop)]
pub struct World {
    pub(crate) store: PageStore,
    pub(crate) camera: Camera,
    /// The world units of a grid step.
    pub(crate) spacing: u32,
    pub(crate) planes: Planes,
    /// The greatest ratio of thickness and distance that is good enough.
    pub(crate) threshold: u64,
    pub(crate) mesh: Mesh,
    /// The leaves of the mesh, depth first.
    pub(crate) list: LeafList,
    /// The greatest budget.
    pub(crate) most: u32,
    /// The budget in force.
    pub(crate) budget: u32,
    /// How far the camera has gone since stamps were last given up, added up over the three axes.
    pub(crate) odometer: u64,
    /// How far the camera goes from frame to frame: the shorter one of its last two ways, so that a jump does not count.
    pub(crate) pace: u64,
    /// How far it went last.
    pub(crate) way: u64,
    /// What a frame would tell, where nothing has changed since the last one.
    pub(crate) still: Option<WorldNote>,
}

impl Model for World {
    ghost use Rattle.view_priority.specs.Camera.{view_above};
    ghost use Rattle.world_loop.specs.World.{WorldState, world_of, IsKept};

    ghost Value = { WorldState };

    ghost view = { λ w. world_of w.store (view_above w.threshold w.camera w.spacing w.planes) w.budget w.most w.mesh
        w.odometer w.pace w.way };

    ghost invariant = { λ w. IsKept (world_of w.store (view_above w.threshold w.camera w.spacing w.planes) w.budget w.most
        w.mesh w.odometer w.pace w.way) w.list.leaves w.list.most w.still };
}

impl World {
    /// The world of these pages: seen from (0, 0, 0), no plane, the two halves of the square, of which none is split.
    /// All memory of the mesh is taken here: for as many leaves as the budget allows, or as the terrain can have.
    ///
    /// The pages are dropped where memory is wanted.
    pub fn make(
        alloc: Global,
        store: PageStore,
        budget: u32,
        spacing: u32,
    ) -> Result<World, NoMemory>
        requires some { 2 ≤ budget }
        requires few { budget ≤ MOST_LEAVES }
        requires spacing_low { 1 ≤ spacing }
        requires spacing_high { spacing ≤ GREATEST_SPACING }
        ensures store { IfOk result (λ w. w.store ≡ store) }
        ensures view { IfOk result (λ w. w.view ≡ start_view spacing) }
        ensures budget { IfOk result (λ w. w.budget ≡ budget) }
        ensures most { IfOk result (λ w. w.most ≡ budget) }
        ensures base { IfOk result (λ w. (a : ℕ) → split_set w.mesh.pool.pairs a ≡ false) }
        ensures odometer { IfOk result (λ w. w.odometer ≡ 0) }
        ensures pace { IfOk result (λ w. w.pace ≡ FIRST_PACE) }
        ensures way { IfOk result (λ w. w.way ≡ FIRST_PACE) }
    {
        let n = store.large();
        let room = leaf_room(n, budget);
        let mesh = Mesh::make(alloc, n, room)?;
        let list = LeafList::new(alloc, mesh.pool(), room)?;
        Ok(World {
            store,
            camera: Camera::new(0, 0, 0).unwrap(),
            spacing,
            planes: Planes::none(),
            threshold: 0,
            mesh,
            list,
            most: budget,
            budget,
            odometer: 0,
            pace: FIRST_PACE,
            way: FIRST_PACE,
            still: None,
        })
    }

    /// The pages.
    pub fn store(&self) -> &PageStore
        ensures { result.now ≡ self.now.store }
    {
        &self.store
    }

    /// The greatest budget, for which there is room.
    pub fn most(&self) -> u32
        ensures { result ≡ self.now.most }
    {
        self.most
    }

    /// The budget in force.
    pub fn budget_in_force(&self) -> u32
        ensures value { result ≡ self.now.budget }
        ensures low { 2 ≤ result }
        ensures high { result ≤ self.now.most }
    {
        self.budget
    }

    /// The triangles of the mesh, depth first.
    pub fn leaves(&self) -> &[Tri]
        ensures leaves { result.now ≡ mesh_seen self.now }
    {
        let _pool = self.mesh.pool();
        self.list.leaves()
    }

    /// The pool of the mesh. `kept`: its stamps bracket the priorities.
    pub fn pool(&self) -> &Pool
        ensures pool { result.now ≡ self.now.mesh.pool }
        ensures n { result.now.n ≡ self.now.store.large }
        ensures room { result.now.most ≡ min self.now.most (2 * 4 ^ self.now.store.large) }
        ensures kept { AreBracketed (sight_of self.now.pace (loaded_of self.now)) self.now.odometer self.now.mesh }
    {
        self.mesh.pool()
    }
}
