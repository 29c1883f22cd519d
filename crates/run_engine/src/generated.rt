//! The frames of a generated run, and what they sum up to.

ghost use Rattle.std.specs.Prelude.{◌≡◌, ◌+◌, ◌*◌, ◌^◌, ◌<◌, ◌≤◌, max, is_some, [], if◌then◌else◌, IfOk};
ghost use Rattle.mesh_defs.specs.declared.level.TheConstants.{GREATEST_FILE_LEVEL};
ghost use Rattle.run_engine.specs.declared.generated.TheConstants.{LINES};
ghost use Rattle.run_engine.specs.SumView.{IsSumOf, HasGone, SumsUp};

use crate::applying::apply_line;
use frame_loop::{Engine, FrameNote};
use roam_edge::NoMemory;
use roam_gen::{gen_grid, gen_line, generator_laws};
use roam_script::Line;
use std::alloc::Global;

/// The budget of a generated run.
const BUDGET: u32 = 20_000;

/// The world units of its grid step.
const SPACING: u32 = 30;

/// The lines of its script.
const LINES: u32 = 105;

/// What frames sum up to.
#[derive(Clone, Copy)]
pub struct Sums {
    /// How many frames there are.
    pub frames: u32,
    /// How many triangles their meshes have, all together.
    pub triangles: u64,
    /// The greatest priority of a triangle of their meshes.
    pub worst: u64,
    /// How many of them have a triangle at which the budget ended.
    pub blocked: u32,
}

impl Sums {
    /// Before the first frame.
    fn none() -> Sums
        ensures { IsSumOf [] result }
    {
        Sums {
            frames: 0,
            triangles: 0,
            worst: 0,
            blocked: 0,
        }
    }

    /// Adds a frame.
    fn add(&mut self, note: &FrameNote)
        requires frames { self.old.frames < LINES }
        requires triangles { self.old.triangles ≤ LINES * 2 ^ 33 }
        requires blocked { self.old.blocked < LINES }
        ensures frames { self.new.frames ≡ self.old.frames + 1 }
        ensures triangles { self.new.triangles ≡ self.old.triangles + note.now.triangles }
        ensures few { self.new.triangles ≤ self.old.triangles + 2 ^ 33 }
        ensures worst { self.new.worst ≡ max self.old.worst note.now.worst }
        ensures blocked { self.new.blocked ≡ self.old.blocked + (if is_some note.now.blocked then 1 else 0) }
    {
        self.frames += 1;
        self.triangles += u64::from(note.triangles);
        self.worst = self.worst.max(note.worst);
        if note.blocked.is_some() {
            self.blocked += 1;
        }
    }
}

/// The sums of all frames of the generated script on the generated grid, and the engine that made them. All memory is
/// taken before the first line.
pub fn sums_of(alloc: Global, n: u32, seed: u32) -> Result<(Sums, Engine), NoMemory>
    requires n_low { 1 ≤ n }
    requires n_high { n ≤ GREATEST_FILE_LEVEL }
    ensures { IfOk result (λ made. SumsUp n seed made.0 made.1) }
{
    let grid = gen_grid(alloc, n, seed)?;
    let mut engine = Engine::make(alloc, grid, BUDGET, SPACING)?;
    let mut sums = Sums::none();
    for k in 0..LINES {
        take_line(n, seed, k, &mut engine, &mut sums);
    }
    Ok((sums, engine))
}

/// Carries out the line behind the first k of the generated script. A frame line adds the engine's frame.
fn take_line(n: u32, seed: u32, k: u32, engine: &mut Engine, sums: &mut Sums)
    requires n_low { 1 ≤ n }
    requires n_high { n ≤ GREATEST_FILE_LEVEL }
    requires k { k < LINES }
    requires here { HasGone n seed k engine.old sums.old }
    ensures { HasGone n seed (k + 1) engine.new sums.new }
{
    generator_laws();
    match gen_line(n, seed, k + 1) {
        Line::Frame => sums.add(&engine.frame()),
        line => apply_line(engine, line),
    }
}
