//! The engine.

ghost use Rattle.std.specs.Prelude.{◌≡◌, ℕ, ◌+◌, ◌-◌, ◌*◌, ◌<◌, ◌≤◌, ◌^◌, min, [], All, None, IfOk, length};
ghost use Rattle.mesh_defs.specs.declared.counters.TheConstants.{LONGEST_WAY};
ghost use Rattle.mesh_defs.specs.State.{scene_of, start_state, with_camera, with_budget, move_length};
ghost use Rattle.mesh_defs.specs.Triangle.{level_of};
ghost use Rattle.mesh_defs.specs.ClosedSet.{IsClosed};
ghost use Rattle.triangle_pool.specs.declared.pool.TheConstants.{MOST_LEAVES};
ghost use Rattle.obj_write.specs.Numbers.{numbers_of};
ghost use Rattle.mesh_defs.specs.HeightField.{side_of};
ghost use Rattle.wedgie_tree.specs.declared.wedges.TheConstants.{GREATEST_SPACING};
ghost use Rattle.roam_mesh.specs.Mesh.{stamp_of, pool_members, OnlyEntriesStamped};
ghost use Rattle.frame_loop.specs.Outlook.{AreBracketed};
ghost use Rattle.frame_loop.specs.Changes.{no_changes};
ghost use Rattle.frame_loop.specs.Engine.{is_split, mesh_seen};

use crate::listing::number_leaves;
use crate::lists::Lists;
use crate::note::FrameNote;
use mesh_arrays::LeafList;
use mesh_defs::NoMemory;
use obj_write::{MeshView, VertexChange, VertexTable};
use pgm_grid::Grid;
use roam_mesh::Mesh;
use std::alloc::Global;
use std::marker::Model;
use triangle_pool::Pool;
use view_mesh::{expiry_laws, leaf_room, sight_laws};
use view_priority::{Camera, Meter, Outlook};
use wedgie_tree::Wedges;

/// Terrain, a view of it, and the mesh that follows the view.
#[derive(Drop)]
pub struct Engine {
    pub(crate) outlook: Outlook,
    pub(crate) mesh: Mesh,
    pub(crate) meter: Meter,
    /// The greatest budget.
    pub(crate) most: u32,
    /// The budget in force.
    pub(crate) budget: u32,
    /// How far the camera has gone, added up over the three axes.
    pub(crate) odometer: u64,
    pub(crate) frames: u32,
    /// Whether each stamp is known to be expired, so that no walk need expire them again.
    pub(crate) all_expired: bool,
    /// The leaves of the mesh, depth first, and which the last frame took out and put in.
    pub(crate) list: LeafList,
    /// The vertex number of each grid point, or 0.
    pub(crate) numbers: VertexTable,
    pub(crate) vertices: u32,
    /// Room for the points at which a frame may change vertices.
    pub(crate) vertex_changes: Vec<VertexChange>,
    /// What a frame would tell, where nothing has changed since the last one.
    pub(crate) still: Option<FrameNote>,
}

impl Model for Engine {
    ghost use Rattle.std.specs.Prelude.{◌≡◌, ◌*◌, ◌^◌, length, min};
    ghost use Rattle.mesh_defs.specs.HeightField.{side_of};
    ghost use Rattle.mesh_defs.specs.MeshText.{vertices_of};
    ghost use Rattle.std.specs.Prelude.{true};
    ghost use Rattle.std.specs.Prelude.{Some};
    ghost use Rattle.frame_loop.specs.declared.note.FrameNote.{FrameNote};
    ghost use Rattle.frame_loop.specs.Changes.{changes_of};
    ghost use Rattle.frame_loop.specs.Engine.{EngineState, IsEngine, IsLeafList, AreAllExpired, IsStill, engine_of};

    ghost Value = { EngineState };

    ghost view = { λ e. engine_of e.outlook e.budget e.most e.mesh e.odometer e.frames e.meter (changes_of e.list) };

    ghost invariant = { λ e. IsEngine
        (engine_of e.outlook e.budget e.most e.mesh e.odometer e.frames e.meter (changes_of e.list))
        × IsLeafList (engine_of e.outlook e.budget e.most e.mesh e.odometer e.frames e.meter
        (changes_of e.list)) e.list.leaves e.numbers
        × (e.all_expired ≡ true → AreAllExpired e.mesh)
        × (e.list.most ≡ min e.most (2 * 4 ^ e.outlook.grid.n))
        × (length e.numbers ≡ side_of e.outlook.grid.n * side_of e.outlook.grid.n)
        × (e.vertices ≡ length (vertices_of e.outlook.grid.n e.list.leaves))
        × ((note : FrameNote) → e.still ≡ Some note →
        IsStill (engine_of e.outlook e.budget e.most e.mesh e.odometer e.frames e.meter
        (changes_of e.list)) note) };
}

impl Engine {
    /// The engine of a grid: seen from (0, 0, 0), no plane, the two halves of the square, of which none is split. All
    /// memory is taken here: for as many leaves as the budget allows, or as the grid can have.
    pub fn make(alloc: Global, grid: Grid, budget: u32, spacing: u32) -> Result<Engine, NoMemory>
        requires some { 2 ≤ budget }
        requires few { budget ≤ MOST_LEAVES }
        requires spacing_low { 1 ≤ spacing }
        requires spacing_high { spacing ≤ GREATEST_SPACING }
        ensures state { IfOk result (λ e. e.state ≡ start_state grid spacing budget) }
        ensures most { IfOk result (λ e. e.most ≡ budget) }
        ensures base { IfOk result (λ e. pool_members e.mesh.pool ≡ []) }
        ensures n { IfOk result (λ e. e.mesh.pool.n ≡ grid.n) }
        ensures room { IfOk result (λ e. e.mesh.pool.most ≡ min budget (2 * 4 ^ grid.n)) }
        ensures stamps { IfOk result (λ e. (a : ℕ) → stamp_of e.mesh a ≡ None) }
        ensures odometer { IfOk result (λ e. e.odometer ≡ 0) }
        ensures frames { IfOk result (λ e. e.frames ≡ 0) }
        ensures evaluations { IfOk result (λ e. e.evaluations ≡ 0) }
        ensures changes { IfOk result (λ e. e.changes ≡ no_changes) }
        ensures splits { IfOk result (λ e. e.mesh.pool.splits ≡ 0) }
        ensures merges { IfOk result (λ e. e.mesh.pool.merges ≡ 0) }
    {
        sight_laws();
        expiry_laws();
        let n = grid.n();
        let wedges = Wedges::build(alloc, grid)?;
        let room = leaf_room(n, budget);
        let mesh = Mesh::make(alloc, n, room)?;
        let lists = Lists::make(alloc, n, mesh.pool(), room)?;
        let Lists {
            list,
            vertex_changes,
            mut numbers,
        } = lists;
        let vertices = number_leaves(mesh.pool(), &list, &mut numbers);
        Ok(Engine {
            outlook: Outlook::start(wedges, spacing),
            mesh,
            meter: Meter::new(),
            most: budget,
            budget,
            odometer: 0,
            frames: 0,
            all_expired: true,
            list,
            numbers,
            vertices,
            vertex_changes,
            still: None,
        })
    }

    /// The grid, with the heights as they are.
    pub fn grid(&self) -> &Grid
        ensures { result.now ≡ self.now.state.grid }
    {
        self.outlook.wedges.grid()
    }

    /// The greatest budget, for which there is room.
    pub fn most(&self) -> u32
        ensures { result ≡ self.now.most }
    {
        self.most
    }

    /// Puts the camera to a place.
    pub fn camera(&mut self, camera: Camera)
        requires far { self.old.odometer + move_length self.old.state.view.camera camera ≤ LONGEST_WAY }
        ensures { self.new ≡ record self.old {
          state = with_camera camera self.old.state;
          odometer = self.old.odometer + move_length self.old.state.view.camera camera;
        } }
    {
        sight_laws();
        if self.outlook.way_to(camera) == 0 {
            return;
        }
        self.still = None;
        self.odometer += self.outlook.move_to(camera);
    }

    /// How far the camera would go to a place: the sum of the way's lengths along the three axes, at most 2^33.
    pub fn way_to(&self, camera: Camera) -> u64
        ensures value { result ≡ move_length self.now.state.view.camera camera }
        ensures small { result ≤ 2 ^ 33 }
    {
        self.outlook.way_to(camera)
    }

    /// How far the camera has gone: the sum of the ways of its moves along the three axes.
    pub fn odometer(&self) -> u64
        ensures { result ≡ self.now.odometer }
    {
        self.odometer
    }

    /// Puts another budget in force.
    pub fn budget(&mut self, budget: u32)
        requires some { 2 ≤ budget }
        requires few { budget ≤ self.old.most }
        ensures { self.new ≡ record self.old { state = with_budget budget self.old.state } }
    {
        if budget == self.budget {
            return;
        }
        self.still = None;
        self.budget = budget;
    }

    /// The budget in force: 2 to the greatest one.
    pub fn budget_in_force(&self) -> u32
        ensures value { result ≡ self.now.state.budget }
        ensures low { 2 ≤ result }
        ensures high { result ≤ self.now.most }
        ensures few { result ≤ MOST_LEAVES }
    {
        self.budget
    }

    /// The threshold in force.
    pub fn threshold_in_force(&self) -> u64
        ensures { result ≡ self.now.state.view.threshold }
    {
        self.outlook.threshold
    }

    /// How many view planes are in force.
    pub fn planes(&self) -> u32
        ensures { result ≡ length self.now.state.view.planes }
    {
        self.outlook.planes.len()
    }

    /// How many frames were made.
    pub fn frames(&self) -> u32
        ensures { result ≡ self.now.frames }
    {
        self.frames
    }

    /// How often a priority was evaluated.
    pub fn evaluations(&self) -> u64
        ensures value { result ≡ self.now.evaluations }
        ensures bounded { result < 2 ^ 64 - 1 }
    {
        self.meter.count()
    }

    /// The pool of the mesh. `kept` and `only` tell of the stamps of its triangles, before the first frame and
    /// between frames.
    pub fn pool(&self) -> &Pool
        ensures pool { result.now ≡ self.now.mesh.pool }
        ensures n { result.now.n ≡ self.now.state.grid.n }
        ensures room { result.now.most ≡ min self.now.most (2 * 4 ^ self.now.state.grid.n) }
        ensures kept { AreBracketed (scene_of self.now.state) self.now.odometer self.now.mesh }
        ensures only { OnlyEntriesStamped self.now.mesh }
    {
        self.mesh.pool()
    }

    /// The mesh of the last frame, or the two halves of the square before the first one, with the heights and planes
    /// as they are.
    pub fn view(&self) -> MeshView<'_>
        ensures leaves { result.leaves.now ≡ mesh_seen self.now }
        ensures wedges { result.wedges.now ≡ self.now.state.grid }
        ensures planes { result.planes.now ≡ self.now.state.view.planes }
        ensures spacing { result.spacing ≡ self.now.state.view.spacing }
        ensures numbers { result.numbers.now ≡ numbers_of self.now.state.grid.n result.leaves.now }
        ensures levels { All (λ a. level_of a ≤ 2 * self.now.state.grid.n) result.leaves.now }
        ensures closed { IsClosed self.now.state.grid.n (is_split self.now) }
        ensures few { length result.leaves.now ≤ self.now.most }
        ensures spacing_low { 1 ≤ result.spacing }
        ensures spacing_high { result.spacing ≤ GREATEST_SPACING }
    {
        let pool = self.mesh.pool();
        let _count = pool.leaf_count();
        MeshView {
            wedges: &self.outlook.wedges,
            leaves: self.list.leaves(),
            numbers: self.numbers.numbers(),
            spacing: self.outlook.spacing,
            planes: &self.outlook.planes,
        }
    }

    /// The table of the numbers of the view.
    pub fn table(&self) -> &VertexTable
        ensures { result.now ≡ numbers_of self.now.state.grid.n (mesh_seen self.now) }
    {
        let _pool = self.mesh.pool();
        &self.numbers
    }
}
