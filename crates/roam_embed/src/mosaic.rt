//! The bookkeeping of a terrain of tiles.

ghost use Rattle.std.specs.Prelude.{◌≡◌, ◌≢◌, ℕ, ◌+◌, ◌*◌, ◌^◌, ◌≤◌, ◌<◌, ◌++◌, All, IfOk, IfErr, IfSome, IsNone, map, drop, length, false};
ghost use Rattle.mesh_defs.specs.declared.level.TheConstants.{GREATEST_LEVEL};
ghost use Rattle.mesh_defs.specs.Triangle.{IsSplittable};
ghost use Rattle.mosaic_rounds.specs.Place.{centre_place};
ghost use Rattle.mosaic_rounds.specs.declared.shape.TheConstants.{MOST_ACROSS};
ghost use Rattle.mosaic_rounds.specs.Rounds.{splits};
ghost use Rattle.roam_embed.specs.Mosaics.{IsSide, IsMosaicAnswer, IsMosaicOpened, IsNextTold, AreRequiredTold, IsBorderKept};

use crate::answer::Answer;
use crate::notes::{Required, Tile};
use bintree_addr::Tri;
use mesh_defs::GREATEST_LEVEL;
use mosaic_rounds::{BorderPoints, MOST_ACROSS, NoMemory, Point, Rounds, place_of_centre};
use std::alloc::Global;
use std::marker::Model;

/// Which border points the mesh of each tile of a terrain has; which tile has to be fitted next, and with which points.
#[derive(Drop)]
pub struct Mosaic {
    rounds: Rounds,
    /// Room for the border points of one mesh.
    points: BorderPoints,
    /// Room for what is required of one mesh.
    list: Vec<Tri>,
}

impl Model for Mosaic {
    ghost use Rattle.std.specs.Prelude.{◌≡◌, ◌+◌, ◌*◌, ◌^◌, ◌≤◌, length};
    ghost use Rattle.mosaic_rounds.specs.Rounds.{RoundsState};

    ghost Value = { RoundsState };

    ghost view = { λ m. m.rounds };

    ghost invariant = { λ m. (m.points.n ≡ m.rounds.n) × (2 ^ (m.rounds.n + 2) ≤ length m.list.items) };
}

/// A mosaic of so many columns and rows of tiles, each of so many points a side, of which none has a mesh.
pub fn open_mosaic(alloc: Global, columns: u32, rows: u32, side: u32) -> Result<Mosaic, Answer>
    ensures opened { IfOk result (IsMosaicOpened columns rows side) }
    ensures fits { IfOk result (λ mosaic. IsMosaicAnswer columns rows side Answer.Done) }
    ensures refused { IfErr result (λ answer. IsMosaicAnswer columns rows side answer) }
    ensures cause { IfErr result (λ answer. answer ≢ Answer.Done) }
{
    let Some(n) = level_of_side(side) else {
        return Err(Answer::BadGrid);
    };
    if columns < 1 || columns > MOST_ACROSS || rows < 1 || rows > MOST_ACROSS {
        return Err(Answer::BadGrid);
    }
    match make_mosaic(alloc, columns, rows, n) {
        Ok(mosaic) => Ok(mosaic),
        Err(_) => Err(Answer::NoMemory),
    }
}

/// The n of a grid with so many points a side, if there is one.
fn level_of_side(side: u32) -> Option<u32>
    ensures level { IfSome result (IsSide side) }
    ensures none { IsNone result → (n : ℕ) → IsSide side n → ⊥ }
{
    for n in 1..GREATEST_LEVEL + 1 {
        if (1 << n) + 1 == side {
            return Some(n);
        }
    }
    None
}

/// The mosaic, with all memory that it needs.
fn make_mosaic(alloc: Global, columns: u32, rows: u32, n: u32) -> Result<Mosaic, NoMemory>
    requires in_grid { (1 ≤ n) × (n ≤ GREATEST_LEVEL) }
    requires columns { (1 ≤ columns) × (columns ≤ MOST_ACROSS) }
    requires rows { (1 ≤ rows) × (rows ≤ MOST_ACROSS) }
    ensures columns { IfOk result (λ m. m.columns ≡ columns) }
    ensures rows { IfOk result (λ m. m.rows ≡ rows) }
    ensures n { IfOk result (λ m. m.n ≡ n) }
    ensures turn { IfOk result (λ m. m.turn ≡ 0) }
    ensures none { IfOk result (λ m. (t : Point) (a : ℕ) → splits m t a ≡ false) }
{
    let rounds = Rounds::make(alloc, columns, rows, n)?;
    let points = BorderPoints::make(alloc, n)?;
    let list = vec![in alloc; Tri::LOWER; 1usize << (n + 2)]?;
    Ok(Mosaic {
        rounds,
        points,
        list,
    })
}

/// Tells the next tile that has to be fitted.
pub fn next_tile(mosaic: &mut Mosaic, out: &mut Tile) -> Answer
    ensures { IsNextTold mosaic.old mosaic.new out.new result }
{
    let Some(t) = mosaic.rounds.next() else {
        *out = Tile {
            column: 0,
            row: 0,
            waits: 0,
            spare: 0,
        };
        return Answer::Done;
    };
    *out = Tile {
        column: t.x,
        row: t.y,
        waits: 1,
        spare: 0,
    };
    Answer::Done
}

/// Writes the places, in the heights of a tile, of what its mesh has to have, and tells how many they are and whether
/// it lacks one.
pub fn tell_required(
    mosaic: &mut Mosaic,
    column: u32,
    row: u32,
    out: &mut [u32],
    told: &mut Required,
) -> Answer
    ensures same { mosaic.new ≡ mosaic.old }
    ensures told { AreRequiredTold mosaic.old (record { x = column; y = row }) out.old out.new told.old told.new
        result }
{
    if column >= mosaic.rounds.columns() || row >= mosaic.rounds.rows() {
        return Answer::OutsideGrid;
    }
    let t = Point { x: column, y: row };
    let count = mosaic.rounds.required(t, &mut mosaic.list);
    if out.len() < count {
        return Answer::NoRoom;
    }
    write_centres(mosaic.rounds.n(), &mosaic.list[..count], out);
    let lacks = if mosaic.rounds.lacks(t) { 1 } else { 0 };
    *told = Required {
        count,
        lacks,
        spare: 0,
    };
    Answer::Done
}

/// Writes the places of the triangles' centres into the first places.
fn write_centres(n: u32, triangles: &[Tri], out: &mut [u32])
    requires in_grid { (1 ≤ n) × (n ≤ GREATEST_LEVEL) }
    requires splittable { All (λ a. IsSplittable n a) triangles.now }
    requires room { length triangles.now ≤ length out.old }
    ensures { out.new ≡ map (centre_place n) triangles.now ++ drop (length triangles.now) out.old }
{
    for (k, &t) in triangles.iter().enumerate() {
        out[k] = place_of_centre(n, t);
    }
}

/// Keeps the border points of a tile's mesh, by their places in the tile's heights; that the mesh has the centre is
/// taken for granted.
pub fn put_tile(mosaic: &mut Mosaic, column: u32, row: u32, border: &[u32]) -> Answer
    ensures { IsBorderKept mosaic.old mosaic.new (record { x = column; y = row }) border.now result }
{
    if column >= mosaic.rounds.columns() || row >= mosaic.rounds.rows() {
        return Answer::OutsideGrid;
    }
    if !mosaic.points.put(border) {
        return Answer::OutsideGrid;
    }
    let t = Point { x: column, y: row };
    match mosaic.rounds.put_border(t, &mosaic.points) {
        Ok(()) => Answer::Done,
        Err(_) => Answer::Shrunk,
    }
}
