//! The least mesh, and the room that it is made in.

ghost use Rattle.std.specs.Prelude.{◌≡◌, ◌+◌, ◌*◌, ◌^◌, ◌≤◌, ◌∷◌, [], IfOk, length};
ghost use Rattle.mesh_defs.specs.Tiling.{IsConforming};
ghost use Rattle.mesh_defs.specs.MeshText.{vertices_of};
ghost use Rattle.mesh_defs.specs.Priority.{priority_of, worst_of};
ghost use Rattle.mesh_defs.specs.State.{priority_seen};
ghost use Rattle.mesh_defs.specs.declared.level.TheConstants.{GREATEST_LEVEL};
ghost use Rattle.wedgie_tree.specs.declared.wedges.TheConstants.{GREATEST_SPACING};
ghost use Rattle.view_priority.specs.Camera.{view_from};
ghost use Rattle.obj_write.specs.Numbers.{numbers_of};
ghost use Rattle.mesh_laws.specs.Least.{IsLeastList, IsLeastMesh};

use crate::flags::sweep;
use crate::list::worst_leaf;
use crate::worse::flag_worse;
use address_flags::{end, list_leaves};
use bintree_addr::{Tri, level_laws};
use cull_marks::Planes;
use mesh_defs::NoMemory;
use mesh_laws::{base_mesh, least_laws};
use obj_write::VertexTable;
use plain_mesh::falling_laws;
use std::alloc::Global;
use std::marker::Model;
use view_priority::{Camera, Meter, Scene};
use wedgie_tree::Wedges;

/// The least mesh of the last frame, in room for every mesh of its grid.
///
/// At n = 11 it takes less than 60 MB: a byte for each splittable triangle, and four for each finest triangle
/// and each grid point.
#[derive(Drop)]
pub struct Least {
    n: u32,
    /// For each address below the finest level, whether it is split.
    flags: Vec<bool>,
    /// Room for all finest triangles; the first `count` are the mesh.
    room: Vec<Tri>,
    count: usize,
    numbers: VertexTable,
}

impl Model for Least {
    ghost use Rattle.std.specs.Prelude.{take};
    ghost use Rattle.least_mesh.specs.Kept.{GridMesh, IsKeptForLeast};

    ghost Value = { GridMesh };

    ghost view = { λ l. record { n = l.n; leaves = take l.count l.room.items } };

    ghost invariant = { λ l. IsKeptForLeast l.n l.flags.items l.room.items l.count l.numbers };
}

/// What a frame tells of its mesh.
#[derive(Clone, Copy, Debug, PartialEq, Eq)]
pub struct LeastNote {
    /// How many triangles the mesh has.
    pub triangles: u32,
    /// How many vertices it has.
    pub vertices: u32,
    /// The greatest priority of its triangles.
    pub worst: u64,
}

impl Least {
    /// Room for the grid of side 2^n; the mesh is the two halves of the square.
    pub fn make(alloc: Global, n: u32) -> Result<Least, NoMemory>
        requires in_grid { (1 ≤ n) × (n ≤ GREATEST_LEVEL) }
        ensures n { IfOk result (λ l. l.n ≡ n) }
        ensures base { IfOk result (λ l. l.leaves ≡ 2 ∷ (3 ∷ [])) }
    {
        level_laws();
        base_mesh(n);
        let flags = vec![in alloc; false; end(n) as usize]?;
        let mut room = vec![in alloc; Tri::LOWER; end(n) as usize]?;
        let count = list_leaves(&flags, n, &mut room);
        let mut numbers = VertexTable::new(alloc, n)?;
        numbers.number(&room[..count], n);
        Ok(Least {
            n,
            flags,
            room,
            count,
            numbers,
        })
    }

    /// The least mesh for a tolerance becomes the mesh: `frame_of`, for a caller that makes no scene.
    pub fn frame(
        &mut self,
        w: &Wedges,
        camera: &Camera,
        spacing: u32,
        planes: &Planes,
        tolerance: u64,
        meter: &mut Meter,
    ) -> LeastNote
        requires grid { w.now.n ≡ self.old.n }
        requires spacing_low { 1 ≤ spacing }
        requires spacing_high { spacing ≤ GREATEST_SPACING }
        ensures n { self.new.n ≡ self.old.n }

        // The leaves of the least closed set of all triangles with a priority above the tolerance.
        ensures list { let p = priority_of w.now.n w.now.heights (view_from camera.now spacing planes.now) in
            IsLeastList w.now.n tolerance p self.new.leaves }

        // Conforming, no triangle above the tolerance; each such list splits all that is split here, has at
        // least as many triangles, and each of them lies in one of these.
        ensures least { let p = priority_of w.now.n w.now.heights (view_from camera.now spacing planes.now) in
            IsLeastMesh w.now.n tolerance p self.new.leaves }
        ensures triangles { result.triangles ≡ length self.new.leaves }
        ensures vertices { result.vertices ≡ length (vertices_of w.now.n self.new.leaves) }
        ensures worst { let p = priority_of w.now.n w.now.heights (view_from camera.now spacing planes.now) in
            result.worst ≡ worst_of p self.new.leaves }

        // At most one priority for each splittable triangle, and one for each leaf.
        ensures asked { meter.new + 2 ≤ meter.old + 2 ^ (2 * w.now.n + 1) + length self.new.leaves }
        ensures count { meter.old ≤ meter.new }
    {
        let scene = Scene {
            wedges: w,
            camera,
            spacing,
            planes,
            threshold: 0,
        };
        self.frame_of(&scene, tolerance, meter)
    }

    /// The least mesh for a tolerance becomes the mesh. Takes no memory.
    ///
    /// Cost (not proved): two passes over the splittable addresses; a priority for each child of what is worse
    /// than the tolerance, and one for each triangle of the mesh; the cost of `VertexTable::number`.
    pub fn frame_of(&mut self, scene: &Scene<'_>, tolerance: u64, meter: &mut Meter) -> LeastNote
        requires grid { scene.now.grid.n ≡ self.old.n }
        ensures n { self.new.n ≡ self.old.n }

        // The leaves of the least closed set of all triangles with a priority above the tolerance.
        ensures list { IsLeastList scene.now.grid.n tolerance (priority_seen scene.now) self.new.leaves }

        // Conforming, no triangle above the tolerance; each such list splits all that is split here, has at
        // least as many triangles, and each of them lies in one of these.
        ensures least { IsLeastMesh scene.now.grid.n tolerance (priority_seen scene.now) self.new.leaves }
        ensures triangles { result.triangles ≡ length self.new.leaves }
        ensures vertices { result.vertices ≡ length (vertices_of scene.now.grid.n self.new.leaves) }
        ensures worst { result.worst ≡ worst_of (priority_seen scene.now) self.new.leaves }

        // At most one priority for each splittable triangle, and one for each leaf.
        ensures asked { meter.new + 2 ≤ meter.old + 2 ^ (2 * scene.now.grid.n + 1) + length self.new.leaves }
        ensures count { meter.old ≤ meter.new }
    {
        level_laws();
        falling_laws();
        least_laws();
        flag_worse(&mut self.flags, scene, tolerance, meter);
        sweep(&mut self.flags, self.n);
        self.count = list_leaves(&self.flags, self.n, &mut self.room);
        let leaves = &self.room[..self.count];
        let vertices = self.numbers.number(leaves, self.n);
        let worst = worst_leaf(leaves, scene, meter);
        LeastNote {
            triangles: self.count as u32,
            vertices,
            worst,
        }
    }

    /// The triangles of the mesh, depth first: 2 before 3, and left child before right child.
    pub fn leaves(&self) -> &[Tri]
        ensures value { result.now ≡ self.now.leaves }
        ensures conforming { IsConforming self.now.n self.now.leaves }
    {
        &self.room[..self.count]
    }

    /// The numbers of the vertices of the mesh.
    pub fn numbers(&self) -> &[u32]
        ensures value { result.now ≡ numbers_of self.now.n self.now.leaves }
    {
        self.numbers.numbers()
    }

    /// The table of these numbers.
    pub fn table(&self) -> &VertexTable
        ensures value { result.now ≡ numbers_of self.now.n self.now.leaves }
    {
        &self.numbers
    }
}
