//! An engine made of a caller's heights.

ghost use Rattle.std.specs.Prelude.{◌≡◌, ◌≢◌, ℕ, ◌≤◌, [], None, length, IfOk, IfErr, IfSome, IsNone};
ghost use Rattle.mesh_defs.specs.State.{start_state};
ghost use Rattle.triangle_pool.specs.declared.pool.TheConstants.{MOST_LEAVES};
ghost use Rattle.wedgie_tree.specs.declared.wedges.TheConstants.{GREATEST_SPACING};
ghost use Rattle.roam_mesh.specs.Mesh.{stamp_of, pool_members};
ghost use Rattle.frame_loop.specs.Changes.{no_changes};
ghost use Rattle.roam_embed.specs.Grid.{IsPointCount, HasGrid};
ghost use Rattle.roam_embed.specs.Calls.{IsOpenAnswer, IsOpened};

use crate::answer::Answer;
use frame_loop::{Engine, Grid, NoMemory};
use mesh_defs::GREATEST_LEVEL;
use pgm_grid::side_for;
use std::alloc::Global;
use triangle_pool::MOST_LEAVES;
use wedgie_tree::GREATEST_SPACING;

/// An engine over these heights, in file order: rows from the top, each from left to right. They are copied.
///
/// Seen from (0, 0, 0), no plane, the two halves of the square. All memory is taken here: no other call takes any.
pub fn open_engine(
    alloc: Global,
    heights: &[u16],
    budget: u32,
    spacing: u32,
) -> Result<Box<Engine>, Answer>
    ensures opened { IfOk result (λ engine. IsOpened heights.now budget spacing engine.value) }
    ensures fits { IfOk result (λ engine. IsOpenAnswer heights.now budget spacing Answer.Done) }
    ensures refused { IfErr result (λ answer. IsOpenAnswer heights.now budget spacing answer) }
    ensures cause { IfErr result (λ answer. answer ≢ Answer.Done) }
{
    let n = match level_of_count(heights.len()) {
        Some(n) => n,
        None => return Err(Answer::BadGrid),
    };
    if budget < 2 || budget > MOST_LEAVES {
        return Err(Answer::BadBudget);
    }
    if spacing < 1 || spacing > GREATEST_SPACING {
        return Err(Answer::BadSpacing);
    }
    match make_engine(alloc, n, heights, budget, spacing) {
        Ok(engine) => Ok(engine),
        Err(_) => Err(Answer::NoMemory),
    }
}

/// The level of the grid that has so many points, if there is one.
pub fn level_of_count(points: usize) -> Option<u32>
    ensures level { IfSome result (IsPointCount points) }
    ensures none { IsNone result → HasGrid points → ⊥ }
{
    for n in 1..GREATEST_LEVEL + 1 {
        if side_for(n) * side_for(n) == points {
            return Some(n);
        }
    }
    None
}

/// The engine of a grid of these heights, on the heap.
fn make_engine(
    alloc: Global,
    n: u32,
    heights: &[u16],
    budget: u32,
    spacing: u32,
) -> Result<Box<Engine>, NoMemory>
    requires count { IsPointCount (length heights.now) n }
    requires some { 2 ≤ budget }
    requires few { budget ≤ MOST_LEAVES }
    requires spacing_low { 1 ≤ spacing }
    requires spacing_high { spacing ≤ GREATEST_SPACING }
    ensures state { IfOk result (λ engine. engine.value.state ≡ start_state
        (record { n = n; maxval = 65535; heights = heights.now }) spacing budget) }
    ensures most { IfOk result (λ engine. engine.value.most ≡ budget) }
    ensures base { IfOk result (λ engine. pool_members engine.value.mesh.pool ≡ []) }
    ensures stamps { IfOk result (λ engine. (a : ℕ) → stamp_of engine.value.mesh a ≡ None) }
    ensures odometer { IfOk result (λ engine. engine.value.odometer ≡ 0) }
    ensures frames { IfOk result (λ engine. engine.value.frames ≡ 0) }
    ensures evaluations { IfOk result (λ engine. engine.value.evaluations ≡ 0) }
    ensures changes { IfOk result (λ engine. engine.value.changes ≡ no_changes) }
{
    let grid = Grid::from_heights(n, u16::MAX, heights.to_vec(alloc)?);
    let engine = Engine::make(alloc, grid, budget, spacing)?;
    Ok(Box::new(alloc, engine)?)
}
