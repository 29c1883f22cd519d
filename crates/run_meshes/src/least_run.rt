//! The command `least`: the frames of a script as least meshes of a tolerance.

ghost use Rattle.std.specs.Prelude.{◌≡◌, ◌^◌, ◌≤◌, None, Some, false};
ghost use Rattle.run_words.specs.Words.{OnGrid, Frames, as_least};
ghost use Rattle.run_laws.specs.Leaving.{RunsCommand};
ghost use Rattle.run_words.specs.ShowView.{IsPrefixLength};
ghost use Rattle.run_words.specs.WordView.{show_for, scripted_seen, IsFrameCommand};

use crate::least_frames::LeastFrames;
use crate::script::run_script;
use run_files::{Outside, grid_or_end};
use run_laws::{Status, state_laws};
use run_words::FrameWords;
use std::alloc::Global;

/// Carries out the command `least`, whose meshes have this prefix and are the least ones of this tolerance.
///
/// Cost (not proved): a few steps a byte of the files, and for each frame two passes over the grid and the writing of
/// its mesh. All memory is taken before the script is opened.
pub fn run_least<O: Outside>(
    alloc: Global,
    command: &FrameWords<'_>,
    prefix: &str,
    tolerance: u64,
    outside: &mut O,
) -> Status
    requires idle { (O.moment outside.old).under_way ≡ false }
    requires accepted { IsFrameCommand command.now }
    requires prefix { IsPrefixLength prefix.now }
    requires shown { show_for command.now.meshing ≡ as_least prefix.now tolerance }
    requires opens { (O.moment outside.old).shelf.opens ≤ 2 ^ 63 }
    ensures same { O.is_same outside.old outside.new }
    ensures runs { RunsCommand (O.moment outside.old) (O.moment outside.new)
        (Some (OnGrid command.now.grid.now (Frames (scripted_seen command.now)))) result None }
{
    state_laws();
    match grid_or_end(alloc, command.grid, outside) {
        Ok(grid) => {
            let made = LeastFrames::make(
                alloc,
                grid,
                prefix,
                tolerance,
                command.budget,
                command.spacing,
            );
            let Ok(mut frames) = made else {
                return Status::NoMemory;
            };
            run_script(&mut frames, command.script, outside)
        }
        Err(status) => status,
    }
}
