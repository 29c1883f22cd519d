//! The frames of an engine.

ghost use Rattle.std.specs.Prelude.{◌≡◌, ◌*◌, ◌^◌, ◌≤◌, min, true, [], length, IfOk};
ghost use Rattle.mesh_defs.specs.State.{start_state};
ghost use Rattle.mesh_defs.specs.declared.level.TheConstants.{GREATEST_LEVEL};
ghost use Rattle.wedgie_tree.specs.declared.wedges.TheConstants.{GREATEST_SPACING};
ghost use Rattle.run_laws.specs.Walk.{start_walk};
ghost use Rattle.run_words.specs.Words.{least_budget, greatest_budget};
ghost use Rattle.run_engine.specs.EngineFrames.{IsEngineReady, IsUnderEngine, EngineHasFollowed};
ghost use Rattle.run_words.specs.ShowView.{show_seen, IsShowing};
ghost use Rattle.run_engine.specs.ShowView.{is_strip};

use crate::applying::apply_line;
use crate::frame::show_frame;
use bintree_addr::Tri;
use frame_loop::Engine;
use pgm_grid::Grid;
use roam_edge::{Failed, NoMemory};
use roam_script::{Limits, Line};
use run_files::{FrameMaker, Outside};
use run_words::Showing;
use std::alloc::Global;

/// An engine, and how its frames are shown.
#[derive(Drop)]
pub struct EngineFrames<'a> {
    /// What makes the frames; it has the state that the next frame is made of.
    pub engine: Engine,
    /// How they are shown.
    pub showing: Showing<'a>,
    /// Room for a strip, where frames are shown as strips.
    pub room: Vec<Tri>,
}

impl<'a> EngineFrames<'a> {
    /// Before the first line. All memory is taken here.
    pub fn make(
        alloc: Global,
        grid: Grid,
        showing: Showing<'a>,
        budget: u32,
        spacing: u32,
    ) -> Result<EngineFrames<'a>, NoMemory>
        requires showing { IsShowing showing }
        requires budget_low { least_budget ≤ budget }
        requires budget_high { budget ≤ greatest_budget }
        requires spacing_low { 1 ≤ spacing }
        requires spacing_high { spacing ≤ GREATEST_SPACING }
        ensures begins { IfOk result (λ f. EngineHasFollowed f.showing f.engine (show_seen showing.entry)
            (start_walk budget (start_state grid spacing budget)) []) }
        ensures ready { IfOk result (λ f. IsEngineReady f.showing f.engine f.room.items 0) }
    {
        let room = strip_room(alloc, showing, grid.n(), budget)?;
        let engine = Engine::make(alloc, grid, budget, spacing)?;
        Ok(EngineFrames {
            engine,
            showing,
            room,
        })
    }
}

impl<'a> FrameMaker for EngineFrames<'a> {
    ghost follows = { λ f. EngineHasFollowed f.showing f.engine };

    ghost is_ready = { λ f. IsEngineReady f.showing f.engine f.room.items };

    ghost is_under = { λ f. IsUnderEngine f.engine };

    fn limits(&self, lines: u32) -> Limits {
        let grid = self.engine.grid();
        Limits {
            n: grid.n(),
            maxval: grid.maxval(),
            planes: self.engine.planes(),
            line: lines + 1,
            frames: self.engine.frames(),
            budget: self.engine.most(),
        }
    }

    fn apply_line(&mut self, line: Line) {
        apply_line(&mut self.engine, line);
    }

    fn take_frame<O: Outside>(&mut self, outside: &mut O) -> Result<(), Failed> {
        let note = self.engine.frame();
        let room = self.room.as_mut_slice();
        show_frame(self.showing, &self.engine, &note, room, outside)
    }
}

/// Room for the strip of any mesh of a grid with this n, within this budget, where frames are shown as strips. It is
/// made before the engine, so that no engine has to be dropped where memory runs out.
fn strip_room(
    alloc: Global,
    showing: Showing<'_>,
    n: u32,
    budget: u32,
) -> Result<Vec<Tri>, NoMemory>
    requires in_grid { n ≤ GREATEST_LEVEL }
    ensures { IfOk result (λ room. is_strip showing.entry ≡ true →
        length room.items ≡ min budget (2 * 4 ^ n)) }
{
    match showing {
        Showing::Strips(_) => {
            let finest = finest_triangles(n);
            Ok(vec![in alloc; Tri::default(); budget.min(finest) as usize]?)
        }
        Showing::Meshes(_) | Showing::Measures => Ok(Vec::new(alloc)),
    }
}

/// How many finest triangles a grid has.
fn finest_triangles(n: u32) -> u32
    requires in_grid { n ≤ GREATEST_LEVEL }
    ensures { result ≡ 2 * 4 ^ n }
{
    2 * 4u32.pow(n)
}
