//! A mesh that was fitted to a grid.

ghost use Rattle.std.specs.Prelude.{◌≡◌, ◌*◌, ◌^◌, ◌≤◌, [], All, IfOk, length, vec_capacity};
ghost use Rattle.mesh_defs.specs.declared.level.TheConstants.{GREATEST_LEVEL};
ghost use Rattle.bintree_laws.specs.Corners.{IsInSquare};
ghost use Rattle.run_words.specs.Words.{greatest_error};
ghost use Rattle.run_laws.specs.Fit.{tolerance_of};
ghost use Rattle.run_words.specs.FitView.{goal_seen, IsGoal};
ghost use Rattle.run_meshes.specs.FittedSeen.{IsFittedTo, IsKeptOn, tolerance_for, budget_for};

use crate::required::list_required;
use bintree_addr::{Point, Tri};
use fit_mesh::{Fit, FitNote};
use pgm_grid::Grid;
use roam_edge::NoMemory;
use run_words::Goal;
use std::alloc::Global;

/// A grid, the mesh that was fitted to it, and what is told of that mesh.
#[derive(Drop)]
pub(crate) struct Fitted {
    pub(crate) grid: Grid,
    pub(crate) fit: Fit,
    pub(crate) note: FitNote,
}

impl Fitted {
    /// Fits a mesh to a grid. All memory is taken here.
    pub(crate) fn make(alloc: Global, grid: Grid, goal: Goal) -> Result<Fitted, NoMemory>
        requires goal { IsGoal goal }
        ensures fitted { IfOk result (λ f. IsFittedTo f (goal_seen goal) grid) }
    {
        let n = grid.n();
        let mut fit = Fit::make(alloc, n, budget_of(goal))?;
        let note = fit.frame(&grid, tolerance_in(goal, n));
        Ok(Fitted { grid, fit, note })
    }
}

/// Fits a mesh that keeps points of the grid for an error of so many thousandths of a unit of height. Takes no memory.
pub(crate) fn fit_kept(
    grid: Grid,
    mut fit: Fit,
    points: &[Point],
    mut required: Vec<Tri>,
    thousandths: u32,
) -> Fitted
    requires level { fit.n ≡ grid.n }
    requires n_low { 1 ≤ grid.n }
    requires high { thousandths ≤ greatest_error }
    requires inside { All (λ p. IsInSquare (2 ^ grid.n) p) points.now }
    requires empty { required.items ≡ [] }
    requires room { length points.now ≤ vec_capacity required }
    ensures { IsKeptOn result thousandths points.now grid }
{
    let n = grid.n();
    list_required(n, points, &mut required);
    let note = fit.frame_with(&grid, tolerance(thousandths, n), &required);
    Fitted { grid, fit, note }
}

/// The most triangles that a mesh may have; for an error there is no bound.
fn budget_of(goal: Goal) -> u32
    requires goal { IsGoal goal }
    ensures value { result ≡ budget_for (goal_seen goal) }
    ensures some { 2 ≤ result }
{
    match goal {
        Goal::AtError(_) => u32::MAX,
        Goal::InBudget(budget) => budget,
    }
}

/// The greatest error that a triangle may have, in units of height, times 2^n; for a budget it may have none.
fn tolerance_in(goal: Goal, n: u32) -> u32
    requires goal { IsGoal goal }
    requires in_grid { n ≤ GREATEST_LEVEL }
    ensures { result ≡ tolerance_for n (goal_seen goal) }
{
    match goal {
        Goal::AtError(thousandths) => tolerance(thousandths, n),
        Goal::InBudget(_) => 0,
    }
}

/// So many thousandths of a unit of height, in units of height, times 2^n, rounded down.
fn tolerance(thousandths: u32, n: u32) -> u32
    requires high { thousandths ≤ greatest_error }
    requires in_grid { n ≤ GREATEST_LEVEL }
    ensures { result ≡ tolerance_of n thousandths }
{
    let units = u64::from(thousandths) * u64::from(1u32 << n);
    (units / 1000) as u32
}
