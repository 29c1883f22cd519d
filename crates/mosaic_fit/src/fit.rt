//! All tiles, in rounds.

ghost use Rattle.std.specs.Prelude.{◌≡◌, ◌≢◌, ℕ, ◌+◌, ◌*◌, ◌^◌, ◌≤◌, List, OnOk, OnErr, false, length};
ghost use Rattle.mesh_defs.specs.declared.point.Point.{Point};
ghost use Rattle.mesh_defs.specs.declared.level.TheConstants.{GREATEST_LEVEL};
ghost use Rattle.roam_edge.specs.Fault.{Rose};
ghost use Rattle.mosaic_laws.specs.Tile.{IsTile};
ghost use Rattle.mosaic_laws.specs.Mosaic.{IsLeastMosaic};
ghost use Rattle.mosaic_laws.specs.Terrain.{terrain_error};
ghost use Rattle.mosaic_rounds.specs.Rounds.{splits, Lacks, IsSettled};
ghost use Rattle.mosaic_rounds.specs.declared.shape.TheConstants.{MOST_ACROSS};
ghost use Rattle.mosaic_fit.specs.UnderWay.{IsUnderWay};

use crate::tiles::Tiles;
use bintree_addr::Tri;
use fit_mesh::Fit;
use mesh_defs::{Failed, Point};
use mosaic_rounds::Rounds;

/// Fits all tiles, until each has the border points that its neighbours have: their meshes are then the least mosaic
/// for the tolerance, in units of height, times 2^n.
///
/// The rounds are new, and the room for what is required is that of `Rounds::required`. Takes no memory. After a
/// failed call the terrain has some meshes, and the rounds are no longer new.
/// Cost (not proved): on terrain each tile is fitted once or twice, tiles of the second colour of a chessboard mostly
/// once.
pub fn fit_tiles<T: Tiles>(
    tiles: &mut T,
    rounds: &mut Rounds,
    fit: &mut Fit,
    required: &mut [Tri],
    tolerance: u32,
) -> Result<(), Failed>
    requires fit { fit.old.n ≡ rounds.old.n }
    requires exponent { T.exponent tiles.old ≡ rounds.old.n }
    requires columns { T.columns tiles.old ≡ rounds.old.columns }
    requires rows { T.rows tiles.old ≡ rounds.old.rows }
    requires room { 2 ^ (rounds.old.n + 2) ≤ length required.old }
    requires shape { (rounds.old.columns ≤ MOST_ACROSS) × (rounds.old.rows ≤ MOST_ACROSS)
        × (rounds.old.n ≤ GREATEST_LEVEL) }
    requires fresh { (t : Point) (a : ℕ) → splits rounds.old t a ≡ false }
    ensures mosaic { let columns = rounds.old.columns in let rows = rounds.old.rows in
        OnOk result ((p : ℕ) → columns ≤ 2 ^ p → rows ≤ 2 ^ p →
        IsLeastMosaic columns rows rounds.old.n p tolerance
        (terrain_error columns rows rounds.old.n p (T.heights tiles.old)) (T.meshes tiles.new)) }
    ensures heights { (t : Point) → T.heights tiles.new t ≡ T.heights tiles.old t }
    ensures calm { OnOk result (T.faults tiles.new ≡ T.faults tiles.old) }
    ensures failed { OnErr result (Rose (T.faults tiles.old) (T.faults tiles.new)) }
{
    for _fitted in 0..u64::MAX {
        let Some(t) = rounds.next() else {
            return Ok(());
        };
        fit_tile(tiles, rounds, fit, required, tolerance, t)?;
    }
    Ok(())
}

/// Fits one tile that lacks something, and keeps its mesh.
fn fit_tile<T: Tiles>(
    tiles: &mut T,
    rounds: &mut Rounds,
    fit: &mut Fit,
    required: &mut [Tri],
    tolerance: u32,
    t: Point,
) -> Result<(), Failed>
    requires fit { fit.old.n ≡ rounds.old.n }
    requires exponent { T.exponent tiles.old ≡ rounds.old.n }
    requires columns { T.columns tiles.old ≡ rounds.old.columns }
    requires rows { T.rows tiles.old ≡ rounds.old.rows }
    requires room { 2 ^ (rounds.old.n + 2) ≤ length required.old }
    requires tile { IsTile rounds.old.columns rounds.old.rows t }
    ensures fit { fit.new.n ≡ fit.old.n }
    ensures exponent { T.exponent tiles.new ≡ T.exponent tiles.old }
    ensures tile_columns { T.columns tiles.new ≡ T.columns tiles.old }
    ensures tile_rows { T.rows tiles.new ≡ T.rows tiles.old }
    ensures room { length required.new ≡ length required.old }
    ensures columns { rounds.new.columns ≡ rounds.old.columns }
    ensures rows { rounds.new.rows ≡ rounds.old.rows }
    ensures n { rounds.new.n ≡ rounds.old.n }
    ensures under_way { (steps : ℕ) (given : Point → List ℕ) →
        ((u : Point) → T.heights tiles.old u ≡ given u) → Lacks rounds.old t →
        IsUnderWay rounds.old.columns rounds.old.rows rounds.old.n tolerance steps (splits rounds.old) given
        (T.meshes tiles.old) →
        OnOk result (IsUnderWay rounds.old.columns rounds.old.rows rounds.old.n tolerance (steps + 1)
        (splits rounds.new) given (T.meshes tiles.new)) }
    ensures heights { (u : Point) → T.heights tiles.new u ≡ T.heights tiles.old u }
    ensures calm { OnOk result (T.faults tiles.new ≡ T.faults tiles.old) }
    ensures failed { OnErr result (Rose (T.faults tiles.old) (T.faults tiles.new)) }
{
    tiles.load(t)?;
    let count = rounds.required(t, required);
    fit.frame_with(tiles.grid(), tolerance, &required[..count]);
    tiles.keep(t, fit.leaves())?;
    // It has all that the mesh before had, so it is never refused.
    let _taken = rounds.put(t, fit.leaves());
    Ok(())
}
