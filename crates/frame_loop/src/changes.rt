//! What the last frame changed.

ghost use Rattle.std.specs.Prelude.{◌≡◌};

use crate::engine::Engine;
use bintree_addr::Tri;

/// The triangles that a frame took out of the mesh, and those that it put in, each depth first.
#[derive(Clone, Copy)]
pub struct Changes<'a> {
    /// Those that were in the mesh before and are not in it now.
    pub gone: &'a [Tri],
    /// Those that are in it now and were not before.
    pub come: &'a [Tri],
}

impl Engine {
    /// What the last frame took out of the mesh and what it put in; nothing before the first frame, and after one
    /// that changed nothing.
    ///
    /// So a caller that keeps a copy of the mesh, as an index buffer, has to touch these triangles alone. Calls
    /// between frames change no triangles, so they leave the lists as they are: ask once after each frame. Takes no
    /// memory.
    pub fn changes(&self) -> Changes<'_>
        ensures gone { result.gone.now ≡ self.now.changes.gone }
        ensures come { result.come.now ≡ self.now.changes.come }
    {
        Changes {
            gone: self.list.gone(),
            come: self.list.come(),
        }
    }
}
