//! Changes of heights, of a page and of a world.

ghost use Rattle.world_embed.specs.Edits.{IsPageHeightPut, IsPageRaised, IsWorldHeightPut, IsWorldRaised};

use crate::page::Page;
use roam_embed::{Answer, GREATEST_CHANGE};
use wedgie_tree::Area;
use world_loop::{Point, World};

/// Sets the height of the point (x, y) of a page's grid.
pub fn set_page_height(page: &mut Page, x: u32, y: u32, h: u16) -> Answer
    ensures { IsPageHeightPut page.old page.new x y h result }
{
    let side = page.wedges.grid().side();
    if x as usize >= side || y as usize >= side {
        return Answer::OutsideGrid;
    }
    if h > page.wedges.grid().maxval() {
        return Answer::BadChange;
    }
    page.wedges.set_height(x, y, h);
    Answer::Done
}

/// Raises the heights of the columns x0 to x1 and the rows y0 to y1 of a page's grid by dz.
pub fn raise_page(page: &mut Page, x0: u32, y0: u32, x1: u32, y1: u32, dz: i32) -> Answer
    ensures { IsPageRaised page.old page.new x0 y0 x1 y1 dz result }
{
    let side = page.wedges.grid().side();
    if x0 > x1 || x1 as usize >= side || y0 > y1 || y1 as usize >= side {
        return Answer::OutsideGrid;
    }
    if dz.unsigned_abs() > GREATEST_CHANGE {
        return Answer::BadChange;
    }
    page.wedges.raise(Area::new(x0, y0, x1, y1), dz);
    Answer::Done
}

/// Sets the height of the point (x, y) of a terrain, in grid steps, in each loaded page that has it.
///
/// Cost (not proved): that of `World::set_height`; takes no memory.
pub fn set_world_height(world: &mut World, x: u32, y: u32, h: u16) -> Answer
    ensures { IsWorldHeightPut world.old world.new x y h result }
{
    let side = 1u32 << world.store().large();
    if x > side || y > side {
        return Answer::OutsideGrid;
    }
    if h > world.store().maxval() {
        return Answer::BadChange;
    }
    if world.set_height(Point { x, y }, h) {
        Answer::Done
    } else {
        Answer::NotThere
    }
}

/// Raises the loaded heights of the columns x0 to x1 and the rows y0 to y1 of a terrain, in grid steps, by dz.
///
/// Cost (not proved): that of `World::raise`; takes no memory.
pub fn raise_world(world: &mut World, x0: u32, y0: u32, x1: u32, y1: u32, dz: i32) -> Answer
    ensures { IsWorldRaised world.old world.new x0 y0 x1 y1 dz result }
{
    let side = 1u32 << world.store().large();
    if x0 > x1 || x1 > side || y0 > y1 || y1 > side {
        return Answer::OutsideGrid;
    }
    if dz.unsigned_abs() > GREATEST_CHANGE {
        return Answer::BadChange;
    }
    if world.raise(x0, y0, x1, y1, dz) {
        Answer::Done
    } else {
        Answer::NotThere
    }
}
