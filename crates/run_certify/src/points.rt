//! The points that a mesh keeps, read behind its grid.

ghost use Rattle.std.specs.Prelude.{◌+◌, ◌^◌, ◌≤◌, ℕ, List, IfOk, IfErr, Some, None};
ghost use Rattle.run_words.specs.Words.{Job, OnGrid};
ghost use Rattle.run_laws.specs.Moment.{Moment};
ghost use Rattle.run_laws.specs.Leaving.{RunsCommand, ReadsGrid, KeepsPoints, ReadsPoints};

use bintree_addr::Point;
use pgm_grid::Grid;
use roam_script::most_points;
use run_files::{Outside, PointStop, end_with_text, line_report, read_points};
use run_laws::Status;
use std::alloc::Global;

/// Reads the points of this name behind a grid, or ends the command: where a line of them is refused, the report is told
/// which; a failed read and running out of memory end it too. All memory is taken before the file is opened.
pub(crate) fn points_or_end<O: Outside>(
    alloc: Global,
    grid: &Grid,
    name: &str,
    outside: &mut O,
) -> Result<Vec<Point>, Status>
    requires opens { (O.moment outside.old).shelf.opens ≤ 2 ^ 63 + 1 }
    ensures same { O.is_same outside.old outside.new }
    ensures ok { IfOk result (λ points.
        ReadsPoints (O.moment outside.old) (O.moment outside.new) name.now grid.now points.items) }
    // For the moment before the grid was read.
    ensures err { IfErr result (λ status. (before : Moment) (grid_name : List ℕ) (job : Job) →
        KeepsPoints grid_name name.now job → ReadsGrid before (O.moment outside.old) grid_name grid.now →
        RunsCommand before (O.moment outside.new) (Some (OnGrid grid_name job)) status None) }
{
    let Ok(room) = Vec::with_capacity(alloc, most_points(grid.n()) as usize) else {
        return Err(Status::NoMemory);
    };
    match read_points(grid.n(), name, room, outside) {
        Ok(points) => Ok(points),
        Err(PointStop::Refused { line, fault }) => Err(end_with_text(
            line_report(line, fault).as_slice(),
            Status::ScriptRefused,
            outside,
        )),
        Err(PointStop::Failed) => Err(Status::ReadFault),
    }
}
