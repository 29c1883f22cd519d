//! What changes where a page comes or goes, as laws.

ghost use Rattle.std.specs.Prelude.{◌≡◌, ℕ, ◌+◌, ◌-◌, ◌*◌, ◌/◌, ◌^◌, ◌<◌, ◌≤◌, ◌⊎◌, Bool, false, IsTrue};
ghost use Rattle.mesh_defs.specs.declared.point.Point.{Point};
ghost use Rattle.mesh_defs.specs.Triangle.{level_of};
ghost use Rattle.mosaic_laws.specs.Tile.{IsTile, in_tile};
ghost use Rattle.page_laws.specs.Pages.{Pages, cuts_to, half, square_at, is_known, square_above, AreBeside, IsPyramid};
ghost use Rattle.page_laws.specs.Pages.{with_page, without_page, IsPagePoint, IsLoadedPoint};
ghost use Rattle.page_laws.specs.Loaded.{known_wedge, IsAtOrUnder};

/// What changes where a page comes or goes.
///
/// `with_this`, `with_others`, `without_this` and `without_others` say which pages are loaded then. `load` pages stay
/// nested with one more, if the page above it and those beside that are loaded; `unload` and without one, if no page of
/// the resolution before lies in its square or in one beside it. `shared` a loaded point of a page that is not loaded
/// is one of the coarser page, or of a loaded page beside it: so these say whether the heights of a page agree with
/// what is loaded. `wedge` a triangle whose part does not meet the page's square keeps its wedge, and `quarter` so do
/// the quarters of the other pages, but for those in which the page lies; `w` is without it there.
pub fn change_laws()
    ensures with_this { (w : Pages) (q : ℕ) (t : Point) → IsTrue ((with_page w q t).loaded q t) }
    ensures with_others { (w : Pages) (q : ℕ) (t : Point) (r : ℕ) (u : Point) → (r ≡ q → u ≡ t → ⊥) →
        w.loaded r u ≡ (with_page w q t).loaded r u }
    ensures without_this { (w : Pages) (q : ℕ) (t : Point) → (without_page w q t).loaded q t ≡ false }
    ensures without_others { (w : Pages) (q : ℕ) (t : Point) (r : ℕ) (u : Point) → (r ≡ q → u ≡ t → ⊥) →
        w.loaded r u ≡ (without_page w q t).loaded r u }
    ensures load { (w : Pages) (q : ℕ) (t : Point) → IsPyramid w → IsTrue (w.loaded (q + 1) (square_above t)) →
        ((u : Point) → IsTile (2 ^ cuts_to w (q + 1)) (2 ^ cuts_to w (q + 1)) u → AreBeside (square_above t) u →
        IsTrue (w.loaded (q + 1) u)) → IsPyramid (with_page w q t) }
    ensures unload { (w : Pages) (q : ℕ) (t : Point) → IsPyramid w → q < w.top →
        (1 ≤ q → (u : Point) → IsTrue (w.loaded (q - 1) u) →
        (square_above u ≡ t → ⊥) × (AreBeside (square_above u) t → ⊥)) → IsPyramid (without_page w q t) }
    ensures shared { (w : Pages) (q : ℕ) (t p : Point) → IsPyramid w → q < w.top → w.loaded q t ≡ false →
        IsPagePoint w.n q t p → IsLoadedPoint w p → IsPagePoint w.n (q + 1) (square_above t) p
        ⊎ ((u : Point) × IsTrue (w.loaded q u) × AreBeside t u × IsPagePoint w.n q u p) }
    ensures wedge { (w : Pages) (loaded : ℕ → Point → Bool) (q : ℕ) (t : Point) (height : Point → ℕ) (x : ℕ) →
        ((r : ℕ) (u : Point) → (r ≡ q → u ≡ t → ⊥) → w.loaded r u ≡ loaded r u) → 2 ≤ x →
        ((which : ℕ) → which < 2 → IsAtOrUnder x (half (cuts_to w q) t which) → ⊥) →
        (2 * cuts_to w q ≤ level_of x → square_at w q x ≡ t → ⊥) → known_wedge w.large height (is_known w) x
        ≡ known_wedge w.large height (is_known (record w { loaded = loaded })) x }
    ensures quarter { (w : Pages) (loaded : ℕ → Point → Bool) (q : ℕ) (t : Point) (height : Point → ℕ) (r k : ℕ)
        (u : Point) → ((r : ℕ) (u : Point) → (r ≡ q → u ≡ t → ⊥) → w.loaded r u ≡ loaded r u) → IsPyramid w →
        q ≤ w.top → IsTile (2 ^ cuts_to w q) (2 ^ cuts_to w q) t → w.loaded q t ≡ false →
        r ≤ w.top → IsTile (2 ^ cuts_to w r) (2 ^ cuts_to w r) u → IsTrue (w.loaded r u) → k < 4 →
        (q < r → u ≡ record { x = t.x / 2 ^ (r - q); y = t.y / 2 ^ (r - q) } → ⊥) →
        known_wedge w.large height (is_known w) (in_tile (cuts_to w r) u (4 + k))
        ≡ known_wedge w.large height (is_known (record w { loaded = loaded })) (in_tile (cuts_to w r) u (4 + k)) }
{}
