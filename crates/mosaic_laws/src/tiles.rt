//! Laws of the definitions, each a clause of a function with an empty body.

ghost use Rattle.std.specs.Prelude.{◌≡◌, ◌≢◌, ℕ, suc, ◌+◌, ◌-◌, ◌*◌, ◌/◌, ◌%◌, ◌^◌, ◌<◌, ◌≤◌, ◌⊎◌, ◌↔◌, Bool, IsTrue};
ghost use Rattle.mesh_defs.specs.declared.point.Point.{Point};
ghost use Rattle.mesh_defs.specs.Triangle.{level_of, corners_of, midpoint, IsAddress, IsSplittable, IsMate};
ghost use Rattle.mesh_defs.specs.Triangle.{HasBorderBase};
ghost use Rattle.mesh_defs.specs.ClosedSet.{IsClosed, IsSubset};
ghost use Rattle.mosaic_laws.specs.Tile.{IsTile, quarter_step, quarter, in_tile, is_part, placed, moved};
ghost use Rattle.mosaic_laws.specs.Glue.{is_coarse, tile_of, local_of, glue, IsAgreed};

/// The quarters of a tile, by its column and its row.
///
/// `level` they are at level 2p + 1; `one` the one tile of a grid of n has the quarters 4 to 7; `step` those of
/// a quadrant from those of the square, by a table of sixteen lines.
pub fn quarter_laws()
    ensures level { (p column row k : ℕ) → k < 4 → level_of (quarter p column row k) ≡ 2 * p + 1 }
    ensures one { (k : ℕ) → quarter 0 0 0 k ≡ 4 + k }
    ensures step { (p column row k : ℕ) → quarter (suc p) column row k
        ≡ quarter_step (quarter p (column / 2) (row / 2)) (column % 2) (row % 2) k }
{}

/// Addresses in a tile.
///
/// `quarter` 4 to 7 are the tile's quarters; `left` and `right` children stay children; `level` a triangle is 2p
/// levels deeper in the large grid, and `bits` its address is the quarter's, followed by the bits of a below its
/// quarter; `address` it is one of the large grid where it is one of the small grid;
/// `unique` no two addresses have one triangle, and `apart` no two tiles; `tile`, `there`, `number`, `small` each
/// triangle of level 2p + 1 or deeper has one tile and one address in it, and `tile_of`, `local_of` those of a
/// triangle of a tile are what it was made of.
pub fn address_laws()
    ensures quarter { (p a : ℕ) (t : Point) → 4 ≤ a → a < 8 → in_tile p t a ≡ quarter p t.x t.y (a % 4) }
    ensures left { (p a : ℕ) (t : Point) → 4 ≤ a → in_tile p t (2 * a) ≡ 2 * in_tile p t a }
    ensures right { (p a : ℕ) (t : Point) → 4 ≤ a → in_tile p t (2 * a + 1) ≡ 2 * in_tile p t a + 1 }
    ensures level { (p a : ℕ) (t : Point) → 4 ≤ a → level_of (in_tile p t a) ≡ level_of a + 2 * p }
    ensures bits { (p a : ℕ) (t : Point) → in_tile p t a ≡ quarter p t.x t.y (a / 2 ^ (level_of a - 1) % 4)
        * 2 ^ (level_of a - 1) + a % 2 ^ (level_of a - 1) }
    ensures address { (n p a : ℕ) (t : Point) → 4 ≤ a → (IsAddress (n + p) (in_tile p t a) ↔ IsAddress n a) }
    ensures unique { (p a c : ℕ) (t : Point) → IsTile (2 ^ p) (2 ^ p) t → 4 ≤ a → 4 ≤ c →
        in_tile p t a ≡ in_tile p t c → a ≡ c }
    ensures apart { (p a c : ℕ) (t u : Point) → IsTile (2 ^ p) (2 ^ p) t → IsTile (2 ^ p) (2 ^ p) u → 4 ≤ a →
        4 ≤ c → in_tile p t a ≡ in_tile p u c → t ≡ u }
    ensures tile { (p x : ℕ) → 2 ≤ x → 2 * p < level_of x → IsTile (2 ^ p) (2 ^ p) (tile_of p x) }
    ensures there { (p x : ℕ) → 2 ≤ x → 2 * p < level_of x → in_tile p (tile_of p x) (local_of p x) ≡ x }
    ensures number { (p x : ℕ) → 2 ≤ x → 2 * p < level_of x → 4 ≤ local_of p x }
    ensures small { (n p x : ℕ) → IsAddress (n + p) x → 2 * p < level_of x → IsAddress n (local_of p x) }
    ensures tile_of { (p a : ℕ) (t : Point) → IsTile (2 ^ p) (2 ^ p) t → 4 ≤ a → tile_of p (in_tile p t a) ≡ t }
    ensures local_of { (p a : ℕ) (t : Point) → IsTile (2 ^ p) (2 ^ p) t → 4 ≤ a → local_of p (in_tile p t a) ≡ a }
{}

/// Where a tile lies.
///
/// `corners` a triangle's corners in the large grid are those in the small grid, moved to the tile; `midpoint`
/// so is the midpoint of its base.
pub fn place_laws()
    ensures corners { (n p a : ℕ) (t : Point) → IsTile (2 ^ p) (2 ^ p) t → 4 ≤ a → IsAddress n a →
        corners_of (n + p) (in_tile p t a) ≡ moved (2 ^ n) t (corners_of n a) }
    ensures midpoint { (n p a : ℕ) (t : Point) → IsTile (2 ^ p) (2 ^ p) t → 4 ≤ a → IsSplittable n a →
        midpoint (corners_of (n + p) (in_tile p t a)).v0 (corners_of (n + p) (in_tile p t a)).v1
        ≡ placed (2 ^ n) t (midpoint (corners_of n a).v0 (corners_of n a).v1) }
{}

/// Mates in a tile and across its sides.
///
/// `inside` mates of the small grid are mates in the large one; `back` two mates of the large grid that lie
/// in one tile are mates of the small grid; `border` so a triangle with its base on the small square's border
/// has no mate in its tile, and `beyond` a triangle with its mate in another tile has such a base; `point`
/// two splittable triangles of different tiles are mates exactly if their bases have one midpoint.
pub fn mate_laws()
    ensures inside { (n p a c : ℕ) (t : Point) → IsTile (2 ^ p) (2 ^ p) t → 4 ≤ a → IsAddress n a → IsMate n a c →
        IsMate (n + p) (in_tile p t a) (in_tile p t c) }
    ensures back { (n p a c : ℕ) (t : Point) → IsTile (2 ^ p) (2 ^ p) t → 4 ≤ a → 4 ≤ c → IsAddress n a →
        IsMate (n + p) (in_tile p t a) (in_tile p t c) → IsMate n a c }
    ensures border { (n p a c : ℕ) (t : Point) → IsTile (2 ^ p) (2 ^ p) t → 4 ≤ a → 4 ≤ c → IsAddress n a →
        HasBorderBase n a → IsMate (n + p) (in_tile p t a) (in_tile p t c) → ⊥ }
    ensures beyond { (n p a c : ℕ) (t u : Point) → IsTile (2 ^ p) (2 ^ p) t → IsTile (2 ^ p) (2 ^ p) u → t ≢ u →
        4 ≤ a → 4 ≤ c → IsAddress n a → IsMate (n + p) (in_tile p t a) (in_tile p u c) → HasBorderBase n a }
    ensures point { (n p a c : ℕ) (t u : Point) → IsTile (2 ^ p) (2 ^ p) t → IsTile (2 ^ p) (2 ^ p) u → t ≢ u →
        4 ≤ a → 4 ≤ c → IsSplittable n a → IsSplittable n c → (IsMate (n + p) (in_tile p t a) (in_tile p u c) ↔
        (placed (2 ^ n) t (midpoint (corners_of n a).v0 (corners_of n a).v1)
        ≡ placed (2 ^ n) u (midpoint (corners_of n c).v0 (corners_of n c).v1))) }
{}

/// Closed sets.
///
/// `some` a closed set that has all that is coarse is one of a large grid whose tiles have centres; `second` with 2 a
/// closed set has 3; `part` what a closed set has in a tile is, with 2 and 3, closed, and `agreed` such parts agree on
/// the borders; `glue` closed sets of the tiles that have their centres and agree are, with all that is coarse, one
/// closed set; `coarse` it has all that is coarse, and `parts` its parts are those sets; `whole` and a closed set that
/// has all that is coarse is made of its parts.
pub fn closed_laws()
    ensures some { (n p : ℕ) (has : ℕ → Bool) → IsClosed (n + p) has → IsSubset (is_coarse p) has → 1 ≤ n }
    ensures second { (n : ℕ) (has : ℕ → Bool) → IsClosed n has → IsTrue (has 2) → IsTrue (has 3) }
    ensures part { (n p : ℕ) (t : Point) (has : ℕ → Bool) → IsTile (2 ^ p) (2 ^ p) t → 1 ≤ n →
        IsClosed (n + p) has → IsClosed n (is_part p t has) }
    ensures agreed { (columns rows n p : ℕ) (has : ℕ → Bool) → IsClosed (n + p) has →
        IsAgreed columns rows n p (λ t. is_part p t has) }
    ensures glue { (n p : ℕ) (sets : Point → ℕ → Bool) →
        ((t : Point) → IsTile (2 ^ p) (2 ^ p) t → IsClosed n (sets t)) →
        ((t : Point) → IsTile (2 ^ p) (2 ^ p) t → IsTrue (sets t 2)) →
        IsAgreed (2 ^ p) (2 ^ p) n p sets → IsClosed (n + p) (glue p sets) }
    ensures coarse { (p : ℕ) (sets : Point → ℕ → Bool) → IsSubset (is_coarse p) (glue p sets) }
    ensures parts { (n p : ℕ) (sets : Point → ℕ → Bool) (t : Point) → IsTile (2 ^ p) (2 ^ p) t →
        IsClosed n (sets t) → IsTrue (sets t 2) → (a : ℕ) → is_part p t (glue p sets) a ≡ sets t a }
    ensures whole { (n p : ℕ) (has : ℕ → Bool) → IsClosed (n + p) has → IsSubset (is_coarse p) has →
        (x : ℕ) → glue p (λ t. is_part p t has) x ≡ has x }
{}
