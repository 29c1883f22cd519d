//! Mates across the sides of tiles, as laws.

ghost use Rattle.std.specs.Prelude.{◌≡◌, ◌≢◌, ℕ, ◌+◌, ◌-◌, ◌*◌, ◌/◌, ◌%◌, ◌^◌, ◌≤◌, ◌↔◌};
ghost use Rattle.mesh_defs.specs.declared.point.Point.{Point};
ghost use Rattle.mesh_defs.specs.Triangle.{level_of, corners_of, IsAddress, IsMate};
ghost use Rattle.mosaic_laws.specs.Tile.{IsTile, in_tile};
ghost use Rattle.mosaic_laws.specs.Mirror.{mirror_quarter, mirrored, turned_over, IsBeyond};

/// Mirror images, and mates across sides.
///
/// `left`, `right` the mirror image of a left child is the right child of the image, and the other way round; `level`
/// and `address` (by `bits`: the quarter's image, followed by the other bits exchanged) the image is a triangle of the
/// same level, and `corners` its corners are the images of the corners. `mates` two triangles of different tiles are
/// mates exactly if the one has its base on a side and the other is its mirror image in the tile beyond.
pub fn side_laws()
    ensures left { (which a : ℕ) → 4 ≤ a → mirrored which (2 * a) ≡ 2 * mirrored which a + 1 }
    ensures right { (which a : ℕ) → 4 ≤ a → mirrored which (2 * a + 1) ≡ 2 * mirrored which a }
    ensures level { (which a : ℕ) → 4 ≤ a → (4 ≤ mirrored which a) × (level_of (mirrored which a) ≡ level_of a) }
    ensures bits { (which a : ℕ) → mirrored which a ≡ (4 + mirror_quarter which (a / 2 ^ (level_of a - 1) % 4))
        * 2 ^ (level_of a - 1) + (2 ^ (level_of a - 1) - 1 - a % 2 ^ (level_of a - 1)) }
    ensures address { (which n a : ℕ) → 4 ≤ a → IsAddress n a → IsAddress n (mirrored which a) }
    ensures corners { (which n a : ℕ) → 4 ≤ a → IsAddress n a →
        corners_of n (mirrored which a) ≡ turned_over which (2 ^ n) (corners_of n a) }
    ensures mates { (n p a c : ℕ) (t u : Point) → IsTile (2 ^ p) (2 ^ p) t → IsTile (2 ^ p) (2 ^ p) u → t ≢ u →
        4 ≤ a → 4 ≤ c → IsAddress n a → (IsMate (n + p) (in_tile p t a) (in_tile p u c) ↔ IsBeyond n t u a c) }
{}
