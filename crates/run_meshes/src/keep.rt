//! The command `fit` where it keeps points.

ghost use Rattle.std.specs.Prelude.{◌≡◌, ◌^◌, ◌+◌, ◌≤◌, None, Some, false};
ghost use Rattle.mesh_defs.specs.HeightField.{HeightField};
ghost use Rattle.run_words.specs.Words.{OnGrid, Keep};
ghost use Rattle.run_laws.specs.Moment.{Moment};
ghost use Rattle.run_laws.specs.Leaving.{RunsCommand, ReadsGrid};
ghost use Rattle.run_words.specs.FitView.{keeping_seen, IsKeeping};
ghost use Rattle.run_meshes.specs.FittedSeen.{IsRoomFor};

use crate::fitted::fit_kept;
use crate::room::KeepRoom;
use crate::run::show;
use run_files::{Outside, PointStop, end_with_text, grid_or_end, line_report, read_points};
use run_laws::Status;
use run_words::KeepWords;
use std::alloc::Global;

/// Carries out the command `fit` that keeps points: reads a grid and then the points, writes the mesh of the fewest
/// triangles for the error of the words that has the points as vertices, and then one line about that mesh.
///
/// All memory is taken before the points are opened.
/// Cost (not proved): a few steps a byte of the files and a level of each point; that of `Fit::frame_with`, and the
/// writing of the mesh.
pub fn run_keep<O: Outside>(alloc: Global, words: &KeepWords<'_>, outside: &mut O) -> Status
    requires idle { (O.moment outside.old).under_way ≡ false }
    requires accepted { IsKeeping words.now }
    requires opens { (O.moment outside.old).shelf.opens ≤ 2 ^ 63 }
    ensures same { O.is_same outside.old outside.new }
    ensures runs { RunsCommand (O.moment outside.old) (O.moment outside.new)
        (Some (OnGrid words.now.grid.now (Keep (keeping_seen words.now)))) result None }
{
    match grid_or_end(alloc, words.grid, outside) {
        Ok(grid) => match KeepRoom::make(alloc, grid) {
            Ok(room) => keep_points(room, words, outside),
            Err(_) => Status::NoMemory,
        },
        Err(status) => status,
    }
}

/// Reads the points behind the grid, and writes the mesh that keeps them; or tells which line is refused.
fn keep_points<O: Outside>(room: KeepRoom, words: &KeepWords<'_>, outside: &mut O) -> Status
    requires idle { (O.moment outside.old).under_way ≡ false }
    requires accepted { IsKeeping words.now }
    requires opens { (O.moment outside.old).shelf.opens ≤ 2 ^ 63 + 1 }
    requires room { IsRoomFor room room.grid }
    ensures same { O.is_same outside.old outside.new }
    // For the moment before the grid was read.
    ensures runs { (before : Moment) → ReadsGrid before (O.moment outside.old) words.now.grid.now room.grid →
        RunsCommand before (O.moment outside.new)
        (Some (OnGrid words.now.grid.now (Keep (keeping_seen words.now)))) result None }
{
    let n = room.grid.n();
    match read_points(n, words.points, room.points, outside) {
        Ok(points) => {
            let kept = fit_kept(
                room.grid,
                room.fit,
                &points,
                room.required,
                words.thousandths,
            );
            match show(&kept, words.prefix, words.spacing, outside) {
                Ok(()) => Status::Done,
                Err(_) => Status::WriteFault,
            }
        }
        Err(PointStop::Refused { line, fault }) => end_with_text(
            line_report(line, fault).as_slice(),
            Status::ScriptRefused,
            outside,
        ),
        Err(PointStop::Failed) => Status::ReadFault,
    }
}
