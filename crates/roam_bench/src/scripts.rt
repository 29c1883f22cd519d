//! What lines of a script cost: reading them, edits of heights over a grid of side 2049, and the generated grid.
//! `bench/scripts.rs` makes the same calls in plain Rust.

ghost use Rattle.std.specs.Prelude.{◌<◌, ◌^◌};

use bintree_addr::Tri;
use height_edit::set_point;
use roam_gen::gen_grid;
use roam_script::{Limits, Line, read_line};
use std::alloc::Global;
use wedgie_tree::{Area, Wedges};

/// How many heights are set.
const SETS: u32 = 100_000;

/// How many rows are raised.
const ROWS: u32 = 1000;

/// How often the whole grid is raised.
const WHOLES: u32 = 5;

/// How many lines are read.
const LINES: u32 = 1_000_000;

/// An edit of heights.
#[derive(Clone, Copy, PartialEq, Eq)]
pub enum Edit {
    /// `Wedges::set` of random points.
    Set,
    /// `set_point` of the same points.
    SetPoint,
    /// `Wedges::raise` of random rows.
    RaiseRow,
    /// `Wedges::raise` of the whole grid.
    RaiseWhole,
}

/// Edits heights again and again. Counts the calls and adds up, with wrapping, the thicknesses of the lower base
/// triangle after them, or the triangles that `set_point` lists.
pub fn edited(wedges: Option<Wedges>, edit: Edit) -> (u32, u32) {
    let Some(mut wedges) = wedges else {
        return (0, 0);
    };
    let count = match edit {
        Edit::Set | Edit::SetPoint => SETS,
        Edit::RaiseRow => ROWS,
        Edit::RaiseWhole => WHOLES,
    };
    let mut number = 1u32;
    let mut found = 0u32;
    for _ in 0..count {
        found = found.wrapping_add(edit_once(&mut wedges, edit, &mut number));
    }
    (count, found)
}

/// One edit of these random numbers.
fn edit_once(wedges: &mut Wedges, edit: Edit, number: &mut u32) -> u32 {
    let intervals = 1 << wedges.grid().n();
    let x = next(number) % (intervals + 1);
    let y = next(number) % (intervals + 1);
    let h = (next(number) as u16).min(wedges.grid().maxval());
    let by = i32::from(h) - 32_768;
    match edit {
        Edit::Set => wedges.set(x, y, h),
        Edit::SetPoint => return set_point(wedges, x, y, h).len() as u32,
        Edit::RaiseRow => wedges.raise(Area::new(0, y, intervals, y), by),
        Edit::RaiseWhole => wedges.raise(Area::new(0, 0, intervals, intervals), by),
    }
    match Tri::new(2) {
        Some(tri) if tri.level() <= 2 * wedges.grid().n() => wedges.thickness(tri),
        _ => 0,
    }
}

/// The next number of a linear congruential generator, without its lowest bits.
fn next(number: &mut u32) -> u32
    ensures { result < 2 ^ 16 }
{
    *number = number.wrapping_mul(1664525).wrapping_add(1013904223);
    *number >> 16
}

/// Makes the grid of level 11 and seed 1. Counts the call and adds up the heights, with wrapping.
pub fn generated(alloc: Global) -> (u32, u32) {
    let mut found = 0u32;
    let Ok(grid) = gen_grid(alloc, 11, 1) else {
        return (0, 0);
    };
    for height in grid.heights().iter() {
        found = found.wrapping_add(u32::from(*height));
    }
    (1, found)
}

/// Reads lines of all kinds, one after the other. Counts them and adds up what they say.
pub fn lines_read() -> (u32, u32) {
    let lines: [&[u8]; 8] = [
        b"camera 11520 -2000 2500",
        b"frame",
        b"set 1000 37 38243",
        b"plane 12500 7181 -718 -156567000",
        b"# over the ridge",
        b"budget 20000",
        b"raise 120 120 136 136 300",
        b"noplanes",
    ];
    let limits = Limits {
        n: 11,
        maxval: 65_535,
        planes: 0,
        line: 1,
        frames: 0,
        budget: 1_048_576,
    };
    let mut found = 0u32;
    for count in 0..LINES {
        let line = lines[count as usize % 8];
        found = found.wrapping_add(match read_line(line, &limits) {
            Ok(Line::Set { h, .. }) => u32::from(h),
            Ok(Line::Budget { n }) => n,
            Ok(Line::Raise { x0, .. }) => x0,
            Ok(_) => 1,
            Err(_) => 0,
        });
    }
    (LINES, found)
}
