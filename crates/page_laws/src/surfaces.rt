//! The thickness and the box over what is known, as laws.

ghost use Rattle.std.specs.Prelude.{◌≡◌, ℕ, ◌+◌, ◌-◌, ◌*◌, ◌^◌, ◌<◌, ◌≤◌, ◌⊎◌, Bool, true, false, IsTrue};
ghost use Rattle.std.specs.Prelude.{List, Contains};
ghost use Rattle.mesh_defs.specs.declared.point.Point.{Point};
ghost use Rattle.mesh_defs.specs.Triangle.{level_of, corners_of, IsAddress, IsSplittable};
ghost use Rattle.mesh_defs.specs.ClosedSet.{IsClosed, leaves_of};
ghost use Rattle.mesh_defs.specs.Thickness.{height_of, thickness_of};
ghost use Rattle.mesh_laws.specs.Vertex.{centre_of, IsSquareCorner, IsCentre};
ghost use Rattle.mosaic_laws.specs.Tile.{IsTile, in_tile};
ghost use Rattle.page_laws.specs.declared.wedge.KnownWedge.{KnownWedge};
ghost use Rattle.page_laws.specs.Pages.{half, is_turned, half_corners, Pages, cuts_to, square_at, is_known, IsPyramid};
ghost use Rattle.page_laws.specs.Pages.{IsLoadedPoint, AreOnTerrain};
ghost use Rattle.page_laws.specs.Loaded.{corner_wedge, joined_wedge, known_wedge, AreSamples, IsAtOrUnder};
ghost use Rattle.page_laws.specs.Loaded.{AreLoadedHeights, IsHalfOff};

/// Wedges over what is known: thickness, least and greatest height.
///
/// `unknown`, `finest`, `joined` by the children, or by the corners; `bounded` by twice the greatest height a level;
/// `same` what is known elsewhere does not matter, so after a page comes or goes its triangles and those above its
/// halves are joined again. `whole` where all is known the thickness is that of the height field.
pub fn wedge_laws()
    ensures unknown { (n : ℕ) (height : Point → ℕ) (known : ℕ → Bool) (a : ℕ) → known a ≡ false →
        known_wedge n height known a ≡ corner_wedge height (corners_of n a) }
    ensures finest { (n : ℕ) (height : Point → ℕ) (known : ℕ → Bool) (a : ℕ) → level_of a ≡ 2 * n →
        known_wedge n height known a ≡ corner_wedge height (corners_of n a) }
    ensures joined { (n : ℕ) (height : Point → ℕ) (known : ℕ → Bool) (a : ℕ) → IsSplittable n a → IsTrue (known a) →
        known_wedge n height known a ≡ joined_wedge height (corners_of n a) (known_wedge n height known (2 * a))
        (known_wedge n height known (2 * a + 1)) }
    ensures bounded { (n : ℕ) (height : Point → ℕ) (known : ℕ → Bool) (top a : ℕ) → ((r : Point) → height r ≤ top) →
        (known_wedge n height known a).thickness ≤ 2 * top * (2 * n - level_of a) }
    ensures same { (n : ℕ) (height : Point → ℕ) (known other : ℕ → Bool) (a : ℕ) → 2 ≤ a →
        ((b : ℕ) → IsAtOrUnder a b → known b ≡ other b) →
        known_wedge n height known a ≡ known_wedge n height other a }
    ensures whole { (n : ℕ) (heights : List ℕ) (known : ℕ → Bool) (a : ℕ) → IsAddress n a →
        ((b : ℕ) → IsSplittable n b → IsTrue (known b)) →
        (known_wedge n (height_of n heights) known a).thickness ≡ thickness_of n heights a }
{}

/// The wedges of a page's triangles.
///
/// `below`, `half` a triangle of a page is joined as in the page's own grid, and a half of it by which diagonal cuts
/// its square. `own` two levels below the halves, where the finer page is not loaded, a triangle has the wedge that it
/// has in the page's own grid: so only the halves and quarters of a page have to be joined again for finer ones.
pub fn page_wedge_laws()
    ensures below { (n q p : ℕ) (t : Point) (height : Point → ℕ) (heights : List ℕ) (a : ℕ)
        (left right : KnownWedge) → IsTile (2 ^ p) (2 ^ p) t → AreSamples n q t height heights →
        4 ≤ a → IsSplittable n a →
        joined_wedge height (corners_of (n + q + p) (in_tile p t a)) left right
        ≡ joined_wedge (height_of n heights) (corners_of n a) left right }
    ensures half { (n q p : ℕ) (t : Point) (height : Point → ℕ) (heights : List ℕ) (which : ℕ)
        (left right : KnownWedge) → IsTile (2 ^ p) (2 ^ p) t → AreSamples n q t height heights → 1 ≤ n → which < 2 →
        joined_wedge height (corners_of (n + q + p) (half p t which)) left right
        ≡ joined_wedge (height_of n heights) (half_corners (2 ^ n) (is_turned p t) which) left right }
    ensures own { (w : Pages) (q : ℕ) (t : Point) (height : Point → ℕ) (heights : List ℕ) (a : ℕ) → IsPyramid w →
        q ≤ w.top → IsTile (2 ^ cuts_to w q) (2 ^ cuts_to w q) t → IsTrue (w.loaded q t) →
        AreSamples w.n q t height heights → 4 ≤ a → IsAddress w.n a → 2 ≤ level_of a →
        (1 ≤ q → w.loaded (q - 1) (square_at w (q - 1) (in_tile (cuts_to w q) t a)) ≡ false) →
        known_wedge w.large height (is_known w) (in_tile (cuts_to w q) t a)
        ≡ known_wedge w.n (height_of w.n heights) (λ b. true) a }
{}

/// How far the surface is from the planes of triangles, where its heights are loaded.
///
/// `points` a loaded point is a corner of the terrain or the centre of a known triangle. `triangle` a triangle holds the
/// centre of each known triangle at or below it, and there the surface is off its plane by at most half its thickness
/// over what is known. So `mesh` at each loaded point each mesh has a triangle that the surface is off by at most half
/// its thickness. What is not loaded does not matter, and of other points nothing is said.
pub fn surface_laws()
    ensures points { (w : Pages) (r : Point) → IsPyramid w → AreOnTerrain w → IsLoadedPoint w r →
        IsSquareCorner (2 ^ w.large) r ⊎ IsCentre w.large (is_known w) r }
    ensures triangle { (w : Pages) (height : Point → ℕ) (heights : List ℕ) (a b : ℕ) → IsPyramid w →
        AreLoadedHeights w height heights → IsAtOrUnder a b → IsTrue (is_known w b) →
        IsHalfOff w height heights a (centre_of w.large b) }
    ensures mesh { (w : Pages) (height : Point → ℕ) (heights : List ℕ) (has : ℕ → Bool) (r : Point) → IsPyramid w →
        AreOnTerrain w → AreLoadedHeights w height heights → IsClosed w.large has → IsLoadedPoint w r →
        ((a : ℕ) × Contains (leaves_of w.large has) a × IsHalfOff w height heights a r) }
{}
