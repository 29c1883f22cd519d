//! Terrains of tiles with their own heights, as laws.

ghost use Rattle.std.specs.Prelude.{◌≡◌, ℕ, ◌+◌, ◌^◌, ◌≤◌, Bool, IsTrue, List};
ghost use Rattle.mesh_defs.specs.declared.point.Point.{Point};
ghost use Rattle.mesh_laws.specs.Ancestors.{ancestors_of};
ghost use Rattle.fit_laws.specs.Error.{error_of, IsExactAtFinest};
ghost use Rattle.fit_laws.specs.Required.{IsLeastSettledWith, IsLeastMeshWith};
ghost use Rattle.mosaic_laws.specs.Tile.{IsTile, in_tile};
ghost use Rattle.mosaic_laws.specs.Glue.{is_coarse, splits_of, IsPartOf};
ghost use Rattle.mosaic_laws.specs.Rounds.{tile_error, IsRunning, IsSettledDown};
ghost use Rattle.mosaic_laws.specs.Mosaic.{IsLeastMosaic};
ghost use Rattle.mosaic_laws.specs.Terrain.{terrain_error};

/// A terrain of so many columns and rows of tiles, by the tiles' own heights.
///
/// `inside` the terrain's error in a tile is the error by the tile's heights, `beyond` there is none beyond, and
/// `exact` none of a finest triangle. `fitted` what a tile's least mesh splits is what a round of `run_laws` asks for;
/// `mosaic` where rounds end so, the meshes are the least mosaic, and `part` that is what the least mesh of the whole
/// square has in the terrain.
pub fn terrain_laws()
    ensures inside { (columns rows n p : ℕ) (heights : Point → List ℕ) (t : Point) (a : ℕ) → columns ≤ 2 ^ p →
        rows ≤ 2 ^ p → IsTile columns rows t → 4 ≤ a →
        terrain_error columns rows n p heights (in_tile p t a) ≡ error_of n (heights t) a }
    ensures beyond { (columns rows n p : ℕ) (heights : Point → List ℕ) (t : Point) (a : ℕ) →
        IsTile (2 ^ p) (2 ^ p) t → (IsTile columns rows t → ⊥) → 4 ≤ a →
        terrain_error columns rows n p heights (in_tile p t a) ≡ 0 }
    ensures exact { (columns rows n p : ℕ) (heights : Point → List ℕ) →
        IsExactAtFinest (n + p) (terrain_error columns rows n p heights) }
    ensures fitted { (columns rows n p tolerance : ℕ) (heights : Point → List ℕ) (t : Point)
        (required : ℕ → Bool) (triangles : List ℕ) → columns ≤ 2 ^ p → rows ≤ 2 ^ p → IsTile columns rows t →
        IsTrue (required 2) → IsLeastMeshWith n tolerance (error_of n (heights t)) required triangles →
        IsLeastSettledWith n tolerance (tile_error p (terrain_error columns rows n p heights) t) required
        (ancestors_of triangles) }
    ensures mosaic { (columns rows n p tolerance : ℕ) (heights : Point → List ℕ) (required : Point → ℕ → Bool)
        (lists : Point → List ℕ) → columns ≤ 2 ^ p → rows ≤ 2 ^ p →
        IsRunning columns rows n p tolerance (terrain_error columns rows n p heights) required (splits_of lists) →
        ((t : Point) → IsTile columns rows t →
        IsLeastMeshWith n tolerance (error_of n (heights t)) (required t) (lists t)) →
        IsSettledDown columns rows n p (splits_of lists) →
        IsLeastMosaic columns rows n p tolerance (terrain_error columns rows n p heights) lists }
    ensures part { (columns rows n p tolerance : ℕ) (heights : Point → List ℕ) (lists : Point → List ℕ)
        (triangles : List ℕ) → columns ≤ 2 ^ p → rows ≤ 2 ^ p →
        IsLeastMosaic columns rows n p tolerance (terrain_error columns rows n p heights) lists →
        IsLeastMeshWith (n + p) tolerance (terrain_error columns rows n p heights) (is_coarse p) triangles →
        (t : Point) → IsTile columns rows t → IsPartOf n p t triangles (lists t) }
{}
