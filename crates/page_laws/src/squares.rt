//! Pages as tiles of the terrain, as laws.

ghost use Rattle.std.specs.Prelude.{◌≡◌, ℕ, ◌+◌, ◌*◌, ◌/◌, ◌^◌, ◌<◌, ◌≤◌, ◌⊎◌, Bool, IsTrue};
ghost use Rattle.mesh_defs.specs.declared.point.Point.{Point};
ghost use Rattle.mesh_defs.specs.Triangle.{level_of, corners_of, IsAddress, IsMate};
ghost use Rattle.mesh_defs.specs.ClosedSet.{IsSubset, leaves_of};
ghost use Rattle.mesh_laws.specs.Vertex.{is_mesh_vertex, centre_of};
ghost use Rattle.mosaic_laws.specs.Tile.{IsTile, quarter, in_tile};
ghost use Rattle.mosaic_laws.specs.Glue.{tile_of};
ghost use Rattle.page_laws.specs.Pages.{half, is_turned, left_quarter, right_quarter, half_corners};
ghost use Rattle.page_laws.specs.Pages.{Pages, cuts_to, square_at, is_known, page_corners, IsPagePoint};
ghost use Rattle.page_laws.specs.Pages.{IsLoadedPoint, square_above, IsPyramid};

/// The halves of a square, with which a page begins.
///
/// `level` they are at level 2p and `square` lie in the square; `halves` each triangle of that level is one of them;
/// `left` and `right` are their children, by which diagonal cuts the square; `mates` they are mates. `parent` a parent
/// lies in the square of its child, and `above` the square of the next resolution is the one above.
pub fn square_laws()
    ensures level { (p which : ℕ) (t : Point) → which < 2 → level_of (half p t which) ≡ 2 * p }
    ensures square { (p which : ℕ) (t : Point) → which < 2 → IsTile (2 ^ p) (2 ^ p) t →
        tile_of p (2 * half p t which) ≡ t }
    ensures halves { (p x : ℕ) → 2 ≤ x → level_of x ≡ 2 * p →
        ((x ≡ half p (tile_of p (2 * x)) 0) ⊎ (x ≡ half p (tile_of p (2 * x)) 1)) }
    ensures left { (p which : ℕ) (t : Point) → which < 2 →
        2 * half p t which ≡ quarter p t.x t.y (left_quarter (is_turned p t) which) }
    ensures right { (p which : ℕ) (t : Point) → which < 2 →
        2 * half p t which + 1 ≡ quarter p t.x t.y (right_quarter (is_turned p t) which) }
    ensures mates { (n p : ℕ) (t : Point) → 1 ≤ n → IsTile (2 ^ p) (2 ^ p) t →
        IsMate (n + p) (half p t 0) (half p t 1) }
    ensures parent { (p x : ℕ) → 4 ≤ x → 2 * p < level_of x →
        tile_of p (2 * (x / 2)) ≡ tile_of p (2 * x) }
    ensures above { (w : Pages) (q x : ℕ) → IsPyramid w → q < w.top → 2 ≤ x → 2 * cuts_to w q ≤ level_of x →
        square_at w (q + 1) x ≡ square_above (square_at w q x) }
{}

/// The points of pages.
///
/// `corners` the corners of a page's triangle are those in a grid of n, in the page's steps and from its corner, and
/// `half` those of a half by which diagonal cuts the square; `centre` the centre of a triangle from the halves of a
/// page down to the last level but one is a point of the page. `known` so the height at the centre of a known triangle
/// is loaded, and `vertices` at each vertex of a mesh that splits known triangles alone.
pub fn point_laws()
    ensures corners { (n q p a : ℕ) (t : Point) → IsTile (2 ^ p) (2 ^ p) t → 4 ≤ a → IsAddress n a →
        corners_of (n + q + p) (in_tile p t a) ≡ page_corners n q t (corners_of n a) }
    ensures half { (n q p : ℕ) (t : Point) (which : ℕ) → 1 ≤ n → which < 2 → IsTile (2 ^ p) (2 ^ p) t →
        corners_of (n + q + p) (half p t which) ≡ page_corners n q t (half_corners (2 ^ n) (is_turned p t) which) }
    ensures centre { (n q p x : ℕ) → 2 ≤ x → 2 * p ≤ level_of x → level_of x < 2 * (p + n) →
        IsPagePoint n q (tile_of p (2 * x)) (centre_of (n + q + p) x) }
    ensures known { (w : Pages) (x : ℕ) → IsPyramid w → IsTrue (is_known w x) →
        IsLoadedPoint w (centre_of w.large x) }
    ensures vertices { (w : Pages) (has : ℕ → Bool) (r : Point) → IsPyramid w → IsSubset has (is_known w) →
        IsTrue (is_mesh_vertex w.large (leaves_of w.large has) r) → IsLoadedPoint w r }
{}
