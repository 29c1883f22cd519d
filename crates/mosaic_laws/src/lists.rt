//! Conforming lists, tile by tile, as laws.

ghost use Rattle.std.specs.Prelude.{◌≡◌, ℕ, ◌+◌, ◌*◌, ◌^◌, ◌<◌, ◌≤◌, Bool, IsTrue, List, Contains, count_by, nat_eq};
ghost use Rattle.std.specs.Prelude.{length};
ghost use Rattle.mesh_defs.specs.declared.point.Point.{Point};
ghost use Rattle.mesh_defs.specs.Triangle.{IsAddress};
ghost use Rattle.mesh_defs.specs.Tiling.{IsConforming};
ghost use Rattle.mesh_defs.specs.ClosedSet.{IsClosed, IsSubset, leaves_of};
ghost use Rattle.mesh_laws.specs.Ancestors.{ancestors_of};
ghost use Rattle.mosaic_laws.specs.Tile.{IsTile, in_tile, is_part};
ghost use Rattle.mosaic_laws.specs.Glue.{is_coarse, glue, splits_of, IsAgreed, IsFineAs, IsPartOf, IsUnionOf};
ghost use Rattle.mosaic_laws.specs.Join.{tile_at, joined};

/// Conforming lists.
///
/// `split` a conforming list that is as fine as the tiles' quarters splits all that is coarse; `leaves` the leaves
/// of a part are those of the whole in the tile; `part` what such a list has in a tile is a conforming list, and
/// `part_found` there is one; `union` the tiles' conforming lists, where they have the centres and agree, are one
/// conforming list in any order, and `union_found` there is one; `joined` the lists of all tiles one after another
/// are such a union; `entries` the lists of the tiles of a rectangle one after another have each entry as often;
/// `number`, `tiles` the numbers below columns * rows are those of the tiles; `longer` where one tile has more
/// triangles and none has fewer there are more in all.
pub fn list_laws()
    ensures split { (n p : ℕ) (triangles : List ℕ) → 1 ≤ n → IsConforming (n + p) triangles → IsFineAs p triangles →
        IsSubset (is_coarse p) (ancestors_of triangles) }
    ensures leaves { (n p : ℕ) (t : Point) (has : ℕ → Bool) (a : ℕ) → IsTile (2 ^ p) (2 ^ p) t →
        IsClosed (n + p) has → IsSubset (is_coarse p) has → IsAddress n a → 4 ≤ a →
        count_by (λ x. nat_eq x a) (leaves_of n (is_part p t has))
        ≡ count_by (λ x. nat_eq x (in_tile p t a)) (leaves_of (n + p) has) }
    ensures part { (n p : ℕ) (t : Point) (triangles : List ℕ) → IsTile (2 ^ p) (2 ^ p) t → 1 ≤ n →
        IsConforming (n + p) triangles → IsFineAs p triangles → (part : List ℕ) →
        IsPartOf n p t triangles part → IsConforming n part }
    ensures part_found { (n p : ℕ) (t : Point) (triangles : List ℕ) → IsTile (2 ^ p) (2 ^ p) t → 1 ≤ n →
        IsConforming (n + p) triangles → IsFineAs p triangles →
        IsPartOf n p t triangles (leaves_of n (is_part p t (ancestors_of triangles))) }
    ensures union { (n p : ℕ) (lists : Point → List ℕ) →
        ((t : Point) → IsTile (2 ^ p) (2 ^ p) t → IsConforming n (lists t)) →
        ((t : Point) → IsTile (2 ^ p) (2 ^ p) t → IsTrue (ancestors_of (lists t) 2)) →
        IsAgreed (2 ^ p) (2 ^ p) n p (splits_of lists) → (triangles : List ℕ) → IsUnionOf n p lists triangles →
        (IsConforming (n + p) triangles × IsFineAs p triangles) }
    ensures union_found { (n p : ℕ) (lists : Point → List ℕ) →
        ((t : Point) → IsTile (2 ^ p) (2 ^ p) t → IsConforming n (lists t)) →
        ((t : Point) → IsTile (2 ^ p) (2 ^ p) t → IsTrue (ancestors_of (lists t) 2)) →
        IsAgreed (2 ^ p) (2 ^ p) n p (splits_of lists) →
        IsUnionOf n p lists (leaves_of (n + p) (glue p (splits_of lists))) }
    ensures joined { (n p : ℕ) (lists : Point → List ℕ) →
        ((t : Point) (a : ℕ) → IsTile (2 ^ p) (2 ^ p) t → Contains (lists t) a → IsAddress n a × (4 ≤ a)) →
        IsUnionOf n p lists (joined p (2 ^ p) lists (2 ^ p * 2 ^ p)) }
    ensures entries { (n p columns rows : ℕ) (lists : Point → List ℕ) → columns ≤ 2 ^ p → rows ≤ 2 ^ p →
        ((t : Point) (a : ℕ) → IsTile columns rows t → Contains (lists t) a → IsAddress n a × (4 ≤ a)) →
        (t : Point) (a : ℕ) → IsTile columns rows t → 4 ≤ a →
        count_by (λ x. nat_eq x (in_tile p t a)) (joined p columns lists (columns * rows))
        ≡ count_by (λ x. nat_eq x a) (lists t) }
    ensures number { (columns rows : ℕ) (t : Point) → IsTile columns rows t →
        (t.y * columns + t.x < columns * rows) × (tile_at columns (t.y * columns + t.x) ≡ t) }
    ensures tiles { (columns rows k : ℕ) → k < columns * rows → IsTile columns rows (tile_at columns k) }
    ensures longer { (p columns rows : ℕ) (t : Point) (lists more : Point → List ℕ) → IsTile columns rows t →
        ((u : Point) → IsTile columns rows u → length (lists u) ≤ length (more u)) →
        length (lists t) < length (more t) →
        length (joined p columns lists (columns * rows)) < length (joined p columns more (columns * rows)) }
{}
