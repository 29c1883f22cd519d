//! What is counted of an engine's mesh.

ghost use Rattle.std.specs.Prelude.{◌≡◌, length};
ghost use Rattle.mesh_defs.specs.MeshText.{vertices_of};
ghost use Rattle.frame_loop.specs.Engine.{mesh_seen};

use crate::engine::Engine;

impl Engine {
    /// How many vertices the mesh has.
    pub fn vertices(&self) -> u32
        ensures { result ≡ length (vertices_of self.now.state.grid.n (mesh_seen self.now)) }
    {
        let _pool = self.mesh.pool();
        self.vertices
    }
}
