//! The command `fit`.

ghost use Rattle.std.specs.Prelude.{◌≡◌, ◌^◌, ◌≤◌, None, Some, false};
ghost use Rattle.run_words.specs.Words.{OnGrid, Fit};
ghost use Rattle.run_laws.specs.Moment.{Does};
ghost use Rattle.run_laws.specs.Leaving.{RunsCommand};
ghost use Rattle.wedgie_tree.specs.declared.wedges.TheConstants.{GREATEST_SPACING};
ghost use Rattle.run_words.specs.ShowView.{IsPrefixLength};
ghost use Rattle.run_words.specs.FitView.{fitting_seen, IsFitting};
ghost use Rattle.run_meshes.specs.FittedSeen.{fitted_acts};

use crate::fitted::Fitted;
use crate::report::fit_report;
use obj_write::SparseView;
use roam_edge::Failed;
use run_files::{Outside, grid_or_end, show_mesh};
use run_laws::Status;
use run_words::FitWords;
use std::alloc::Global;

/// Carries out the command `fit`: reads a grid, writes the best mesh of it for the error or the budget of the words,
/// and then one line about that mesh.
///
/// All memory is taken before the first byte is written.
/// Cost (not proved): a few steps a byte of the file; that of `Fit::frame`, and the writing of the mesh.
pub fn run_fit<O: Outside>(alloc: Global, words: &FitWords<'_>, outside: &mut O) -> Status
    requires idle { (O.moment outside.old).under_way ≡ false }
    requires accepted { IsFitting words.now }
    requires opens { (O.moment outside.old).shelf.opens ≤ 2 ^ 63 }
    ensures same { O.is_same outside.old outside.new }
    ensures runs { RunsCommand (O.moment outside.old) (O.moment outside.new)
        (Some (OnGrid words.now.grid.now (Fit (fitting_seen words.now)))) result None }
{
    match grid_or_end(alloc, words.grid, outside) {
        Ok(grid) => match Fitted::make(alloc, grid, words.goal) {
            Ok(fitted) => match show(&fitted, words.prefix, words.spacing, outside) {
                Ok(()) => Status::Done,
                Err(_) => Status::WriteFault,
            },
            Err(_) => Status::NoMemory,
        },
        Err(status) => status,
    }
}

/// Writes the mesh, and then its line. The line comes only after the mesh was finished.
pub(crate) fn show<O: Outside>(
    fitted: &Fitted,
    prefix: &str,
    spacing: u32,
    outside: &mut O,
) -> Result<(), Failed>
    requires idle { (O.moment outside.old).under_way ≡ false }
    requires shown { IsPrefixLength prefix.now }
    requires spacing_low { 1 ≤ spacing }
    requires spacing_high { spacing ≤ GREATEST_SPACING }
    requires level { fitted.now.fit.n ≡ fitted.now.grid.n }
    ensures same { O.is_same outside.old outside.new }
    ensures does { Does (O.moment outside.old) (O.moment outside.new)
        (fitted_acts prefix.now spacing fitted.now) result }
{
    let view = SparseView::of_heights(
        &fitted.grid,
        fitted.fit.leaves(),
        fitted.fit.numbers(),
        spacing,
    );
    let line = fit_report(fitted.grid.n(), &fitted.note);
    show_mesh(&view, prefix, 1, line.as_slice(), outside)
}
