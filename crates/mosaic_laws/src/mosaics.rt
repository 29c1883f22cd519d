//! Mosaics, as laws.

ghost use Rattle.std.specs.Prelude.{◌≡◌, ℕ, ◌+◌, ◌*◌, ◌^◌, ◌≤◌, ◌↔◌, Bool, IsTrue, List};
ghost use Rattle.mesh_defs.specs.declared.point.Point.{Point};
ghost use Rattle.mesh_defs.specs.Triangle.{IsAddress};
ghost use Rattle.mesh_defs.specs.ClosedSet.{IsClosed, IsSubset, leaves_of};
ghost use Rattle.mesh_laws.specs.Ancestors.{ancestors_of};
ghost use Rattle.fit_laws.specs.Error.{error_of, IsExactAtFinest};
ghost use Rattle.fit_laws.specs.Settled.{IsFineEnough};
ghost use Rattle.fit_laws.specs.Required.{IsLeastMeshWith};
ghost use Rattle.mosaic_laws.specs.Tile.{IsTile, in_tile, is_part};
ghost use Rattle.mosaic_laws.specs.Glue.{is_coarse, glue, IsAgreed, IsPartOf, IsUnionOf};
ghost use Rattle.mosaic_laws.specs.Heights.{AreTileHeights};
ghost use Rattle.mosaic_laws.specs.Rounds.{tile_error};
ghost use Rattle.mosaic_laws.specs.Beyond.{extended};
ghost use Rattle.mosaic_laws.specs.Mosaic.{IsMosaic, IsLeastMosaic};

/// A tile's error by its own heights.
///
/// `alike` where two errors are within their tolerances at the same triangles, 2 and 3 left out, the least meshes that
/// split 2 are the same; `mesh` so the tile's least mesh by its own heights is the one by the large grid's.
pub fn error_laws()
    ensures alike { (n tolerance other : ℕ) (error far : ℕ → ℕ) (required : ℕ → Bool) (triangles : List ℕ) →
        IsTrue (required 2) →
        ((a : ℕ) → 4 ≤ a → IsAddress n a → ((error a ≤ tolerance) ↔ (far a ≤ other))) →
        IsLeastMeshWith n tolerance error required triangles →
        IsLeastMeshWith n other far required triangles }
    ensures mesh { (n p : ℕ) (t : Point) (tolerance : ℕ) (small large : List ℕ) (required : ℕ → Bool)
        (triangles : List ℕ) → IsTile (2 ^ p) (2 ^ p) t → AreTileHeights n p t small large →
        IsTrue (required 2) → IsLeastMeshWith n tolerance (error_of n small) required triangles →
        IsLeastMeshWith n (2 ^ p * tolerance) (tile_error p (error_of (n + p) large) t) required triangles }
{}

/// Mosaics over the whole square.
///
/// `parts` a settled set of the whole that has all that is coarse has a mosaic in each rectangle; `least` a mosaic
/// whose splits are in each other is the least one in all five words; `union` the union of the least mosaic of all
/// tiles is the least mesh that is as fine as the tiles' quarters, and `found` there is such a mesh.
pub fn mosaic_laws()
    ensures parts { (columns rows n p tolerance : ℕ) (error : ℕ → ℕ) → columns ≤ 2 ^ p → rows ≤ 2 ^ p →
        (other : ℕ → Bool) → IsFineEnough (n + p) tolerance error other → IsSubset (is_coarse p) other →
        IsMosaic columns rows n p tolerance error (λ t. leaves_of n (is_part p t other)) }
    ensures least { (columns rows n p tolerance : ℕ) (error : ℕ → ℕ) (lists : Point → List ℕ) →
        IsMosaic columns rows n p tolerance error lists →
        ((others : Point → List ℕ) → IsMosaic columns rows n p tolerance error others →
        (t : Point) → IsTile columns rows t → IsSubset (ancestors_of (lists t)) (ancestors_of (others t))) →
        IsLeastMosaic columns rows n p tolerance error lists }
    ensures union { (n p tolerance : ℕ) (error : ℕ → ℕ) (lists : Point → List ℕ) (triangles : List ℕ) →
        IsLeastMosaic (2 ^ p) (2 ^ p) n p tolerance error lists → IsUnionOf n p lists triangles →
        IsLeastMeshWith (n + p) tolerance error (is_coarse p) triangles }
    ensures found { (n p tolerance : ℕ) (error : ℕ → ℕ) → 1 ≤ n → IsExactAtFinest (n + p) error →
        ((triangles : List ℕ) × IsLeastMeshWith (n + p) tolerance error (is_coarse p) triangles) }
{}

/// Rectangles of tiles in the square.
///
/// `extended` sets that agree in a rectangle are, with their mirror images beyond it, closed and agree in the whole
/// square, and `settled` they are settled where no triangle beyond is above the tolerance. So `splits` the least mosaic
/// of the rectangle splits what the least mesh of the whole splits there, and `mesh` has the triangles that it has
/// there.
pub fn rectangle_laws()
    ensures extended { (columns rows n p : ℕ) (sets : Point → ℕ → Bool) → 1 ≤ columns → 1 ≤ rows →
        columns ≤ 2 ^ p → rows ≤ 2 ^ p → ((t : Point) → IsTile columns rows t → IsClosed n (sets t)) →
        ((t : Point) → IsTile columns rows t → IsTrue (sets t 2)) → IsAgreed columns rows n p sets →
        (((t : Point) → IsTile (2 ^ p) (2 ^ p) t → IsClosed n (extended columns rows sets t)) ×
        IsAgreed (2 ^ p) (2 ^ p) n p (extended columns rows sets)) }
    ensures same { (columns rows : ℕ) (sets : Point → ℕ → Bool) (t : Point) (a : ℕ) → IsTile columns rows t →
        4 ≤ a → extended columns rows sets t a ≡ sets t a }
    ensures settled { (columns rows n p tolerance : ℕ) (error : ℕ → ℕ) (sets : Point → ℕ → Bool) → 1 ≤ columns →
        1 ≤ rows → columns ≤ 2 ^ p → rows ≤ 2 ^ p →
        ((t : Point) → IsTile columns rows t → IsFineEnough n tolerance (tile_error p error t) (sets t)) →
        ((t : Point) → IsTile columns rows t → IsTrue (sets t 2)) → IsAgreed columns rows n p sets →
        ((t : Point) (a : ℕ) → IsTile (2 ^ p) (2 ^ p) t → (IsTile columns rows t → ⊥) → 4 ≤ a → IsAddress n a →
        error (in_tile p t a) ≤ tolerance) →
        IsFineEnough (n + p) tolerance error (glue p (extended columns rows sets)) }
    ensures splits { (columns rows n p tolerance : ℕ) (error : ℕ → ℕ) (lists : Point → List ℕ)
        (triangles : List ℕ) → columns ≤ 2 ^ p → rows ≤ 2 ^ p →
        ((t : Point) (a : ℕ) → IsTile (2 ^ p) (2 ^ p) t → (IsTile columns rows t → ⊥) → 4 ≤ a → IsAddress n a →
        error (in_tile p t a) ≤ tolerance) → IsLeastMosaic columns rows n p tolerance error lists →
        IsLeastMeshWith (n + p) tolerance error (is_coarse p) triangles →
        (t : Point) → IsTile columns rows t → (a : ℕ) →
        is_part p t (ancestors_of triangles) a ≡ ancestors_of (lists t) a }
    ensures mesh { (columns rows n p tolerance : ℕ) (error : ℕ → ℕ) (lists : Point → List ℕ)
        (triangles : List ℕ) → columns ≤ 2 ^ p → rows ≤ 2 ^ p →
        ((t : Point) (a : ℕ) → IsTile (2 ^ p) (2 ^ p) t → (IsTile columns rows t → ⊥) → 4 ≤ a → IsAddress n a →
        error (in_tile p t a) ≤ tolerance) → IsLeastMosaic columns rows n p tolerance error lists →
        IsLeastMeshWith (n + p) tolerance error (is_coarse p) triangles →
        (t : Point) → IsTile columns rows t → IsPartOf n p t triangles (lists t) }
{}
