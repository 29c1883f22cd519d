//! A tile's own heights, as laws.

ghost use Rattle.std.specs.Prelude.{◌≡◌, ℕ, ◌+◌, ◌*◌, ◌^◌, ◌≤◌, List};
ghost use Rattle.mesh_defs.specs.declared.point.Point.{Point};
ghost use Rattle.mesh_defs.specs.Triangle.{IsAddress};
ghost use Rattle.fit_laws.specs.Error.{error_of, IsExactAtFinest};
ghost use Rattle.mosaic_laws.specs.Tile.{IsTile, in_tile};
ghost use Rattle.mosaic_laws.specs.Heights.{AreTileHeights};

/// A tile's own heights.
///
/// `error` the error of a triangle in the large grid is 2^p times its error in the tile (each is counted in
/// the grid's own parts: times 2^(n + p) and times 2^n); `exact` no finest triangle of a tile has an error where
/// none of the large grid has.
pub fn height_laws()
    ensures error { (n p : ℕ) (t : Point) (small large : List ℕ) → IsTile (2 ^ p) (2 ^ p) t →
        AreTileHeights n p t small large → (a : ℕ) → 4 ≤ a → IsAddress n a →
        error_of (n + p) large (in_tile p t a) ≡ 2 ^ p * error_of n small a }
    ensures exact { (n p : ℕ) (t : Point) (error : ℕ → ℕ) → 1 ≤ n → IsExactAtFinest (n + p) error →
        IsExactAtFinest n (λ a. error (in_tile p t a)) }
{}
