//! Changes of an engine's heights.

ghost use Rattle.roam_embed.specs.Calls.{IsHeightPut, IsAreaRaised};

use crate::answer::Answer;
use frame_loop::Engine;
use mesh_defs::GREATEST_HEIGHT;

/// The greatest change of heights, up or down.
pub const GREATEST_CHANGE: u32 = GREATEST_HEIGHT;

/// Sets the height of the grid point (x, y).
pub fn put_height(engine: &mut Engine, x: u32, y: u32, h: u16) -> Answer
    ensures { IsHeightPut engine.old engine.new x y h result }
{
    let side = engine.grid().side();
    if x as usize >= side || y as usize >= side {
        return Answer::OutsideGrid;
    }
    if h > engine.grid().maxval() {
        return Answer::BadChange;
    }
    engine.set_height(x, y, h);
    Answer::Done
}

/// Raises the heights of the columns x0 to x1 and the rows y0 to y1 by dz.
pub fn raise_area(engine: &mut Engine, x0: u32, y0: u32, x1: u32, y1: u32, dz: i32) -> Answer
    ensures { IsAreaRaised engine.old engine.new x0 y0 x1 y1 dz result }
{
    let side = engine.grid().side();
    if x0 > x1 || x1 as usize >= side || y0 > y1 || y1 as usize >= side {
        return Answer::OutsideGrid;
    }
    if dz.unsigned_abs() > GREATEST_CHANGE {
        return Answer::BadChange;
    }
    engine.raise(x0, y0, x1, y1, dz);
    Answer::Done
}
