//! The mesh by its own vertices, as a strip, and how far the surface is from it.

ghost use Rattle.std.specs.Prelude.{◌≡◌, ◌*◌, ◌≤◌, IfOk, All, length};
ghost use Rattle.mesh_defs.specs.Triangle.{level_of};
ghost use Rattle.frame_loop.specs.Engine.{mesh_seen};
ghost use Rattle.roam_embed.specs.Shapes.{strip_seen, ArePositionsTold, IsCompactTold, IsStripTold, IsDeviationTold};

use crate::answer::Answer;
use crate::notes::Deviation;
use frame_loop::{Engine, NoMemory, Tri};
use mesh_arrays::write_indices;
use mesh_measure::deviation;
use obj_write::{SparseView, write_places, write_positions};
use std::alloc::Global;
use strip_order::strip;

/// Writes x, y and z of each vertex of the mesh, and how many vertices there are: x and y in world units, z in units
/// of height.
///
/// They stand in the order of the `v` lines of the mesh's text: from the near row to the far one, each from left to
/// right.
/// Cost (not proved): a look at each grid point. Takes no memory.
pub fn tell_positions(engine: &Engine, out: &mut [u32], vertices: &mut usize) -> Answer
    ensures { ArePositionsTold engine.now out.old out.new vertices.old vertices.new result }
{
    let count = engine.vertices() as usize;
    if out.len() / 3 < count {
        return Answer::NoRoom;
    }
    write_positions(&SparseView::by_table(engine.view(), engine.table()), out);
    *vertices = count;
    Answer::Done
}

/// Writes the vertices of each triangle (apex, v0, v1), depth first, and how many triangles there are.
///
/// A vertex is its place among those of `tell_positions`, counted from 0.
/// Cost (not proved): a step a level for each triangle. Takes no memory.
#[tactic(auto, using(crate::proofs::DrawnLemmas::told_drawn))]
pub fn tell_compact(engine: &Engine, out: &mut [u32], triangles: &mut usize) -> Answer
    ensures { IsCompactTold engine.now out.old out.new triangles.old triangles.new result }
{
    let view = engine.view();
    if out.len() / 3 < view.leaves.len() {
        return Answer::NoRoom;
    }
    write_places(&view, out);
    *triangles = view.leaves.len();
    Answer::Done
}

/// Writes three indices of heights for each triangle in the order of one strip, and how many triangles there are.
///
/// Each two neighbours share a whole edge, and so do the last and the first.
/// Cost (not proved): a move of each triangle for each level above it. Takes four bytes for each triangle, and gives
/// them back.
pub fn tell_strip(alloc: Global, engine: &Engine, out: &mut [u32], triangles: &mut usize) -> Answer
    ensures { IsStripTold engine.now out.old out.new triangles.old triangles.new result }
{
    let count = engine.view().leaves.len();
    if out.len() / 3 < count {
        return Answer::NoRoom;
    }
    match order_of(alloc, engine) {
        Ok(order) => {
            write_indices(engine.grid().n(), &order, out);
            *triangles = count;
            Answer::Done
        }
        Err(_) => Answer::NoMemory,
    }
}

/// The triangles of the mesh in the order of its strip.
fn order_of(alloc: Global, engine: &Engine) -> Result<Vec<Tri>, NoMemory>
    ensures strip { IfOk result (λ order. order.items ≡ strip_seen engine.now) }
    ensures levels { IfOk result (λ order.
        All (λ a. level_of a ≤ 2 * engine.now.state.grid.n) order.items) }
    ensures count { IfOk result (λ order. length order.items ≡ length (mesh_seen engine.now)) }
{
    let mut order = engine.view().leaves.to_vec(alloc)?;
    put_strip(engine, &mut order);
    Ok(order)
}

/// Puts the triangles of the mesh in the order of its strip, into room for just as many.
fn put_strip(engine: &Engine, order: &mut [Tri])
    requires room { length order.old ≡ length (mesh_seen engine.now) }
    ensures strip { order.new ≡ strip_seen engine.now }
    ensures levels { All (λ a. level_of a ≤ 2 * engine.now.state.grid.n) order.new }
{
    let _level = engine.grid().n();
    let view = engine.view();
    strip(view.leaves, order);
}

/// Tells how far the surface is from the mesh at a grid point, at most.
///
/// Cost (not proved): a step for each grid point that a triangle holds, for each triangle. Takes no memory.
pub fn tell_deviation(engine: &Engine, out: &mut Deviation) -> Answer
    ensures { IsDeviationTold engine.now out.new result }
{
    let view = engine.view();
    *out = Deviation {
        off: deviation(view.wedges, view.leaves),
        over: 1 << engine.grid().n(),
    };
    Answer::Done
}
