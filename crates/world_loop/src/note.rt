//! What a frame tells.

ghost use Rattle.std.specs.Prelude.{◌≡◌};

use deferred_loop::Steps;

/// What a frame did, and what its mesh is.
#[derive(Clone, Copy)]
pub struct WorldNote {
    /// How many triangles the mesh has.
    pub triangles: u32,
    /// How many were split and merged, the greatest priority of a triangle of the mesh, and at which the budget ended.
    pub steps: Steps,
    /// How often a priority was evaluated.
    pub evaluations: u64,
}

impl WorldNote {
    /// The note of a frame from there that changes nothing.
    pub(crate) fn without_steps(&self) -> WorldNote
        ensures { result ≡ record self.now {
          steps = record self.now.steps { splits = 0; merges = 0 };
          evaluations = 0;
        } }
    {
        let mut note = *self;
        note.steps.splits = 0;
        note.steps.merges = 0;
        note.evaluations = 0;
        note
    }
}

/// A mesh has split or merged 2^61 triangles, and makes no more frames: make a new one.
#[derive(Clone, Copy, Debug)]
pub struct Worn;
