//! Where a triangle's page is found, and that heights which are not loaded do not matter, as laws.

ghost use Rattle.std.specs.Prelude.{◌≡◌, ℕ, ◌+◌, ◌-◌, ◌*◌, ◌<◌, ◌≤◌, ◌↔◌, Bool, false, IsTrue};
ghost use Rattle.mesh_defs.specs.declared.point.Point.{Point};
ghost use Rattle.mesh_defs.specs.State.{Area, is_in_area};
ghost use Rattle.mesh_defs.specs.Triangle.{level_of, corners_of};
ghost use Rattle.bintree_laws.specs.Areas.{overlaps};
ghost use Rattle.page_laws.specs.Pages.{Pages, cuts_to, square_at, is_known, IsLoadedPoint, IsPyramid};
ghost use Rattle.page_laws.specs.Loaded.{known_wedge};

/// Where a triangle's page is found.
///
/// `coarser` where a page is loaded in whose square a triangle lies, that of the next resolution is too: so the pages
/// of a triangle are found from the coarsest one down. `finest` the last of them decides whether the triangle is known.
pub fn finding_laws()
    ensures coarser { (w : Pages) (q x : ℕ) → IsPyramid w → q < w.top → 2 ≤ x → 2 * cuts_to w q ≤ level_of x →
        IsTrue (w.loaded q (square_at w q x)) → IsTrue (w.loaded (q + 1) (square_at w (q + 1) x)) }
    ensures finest { (w : Pages) (q x : ℕ) → IsPyramid w → q ≤ w.top → 2 ≤ x → 2 * cuts_to w q ≤ level_of x →
        IsTrue (w.loaded q (square_at w q x)) →
        (1 ≤ q → 2 * cuts_to w (q - 1) ≤ level_of x → w.loaded (q - 1) (square_at w (q - 1) x) ≡ false) →
        (IsTrue (is_known w x) ↔ (level_of x < 2 * (cuts_to w q + w.n))) }
{}

/// Heights that are not loaded, or that lie elsewhere, do not matter.
///
/// `same_heights` the wedge of a known triangle follows from the heights of loaded points alone: its corners, and the
/// corners and centres of what is known below it, are such points. `elsewhere` where heights differ in an area alone, a
/// triangle whose bounding rectangle does not meet the area keeps its wedge.
pub fn height_laws()
    ensures same_heights { (w : Pages) (height other : Point → ℕ) (x : ℕ) → IsPyramid w →
        ((p : Point) → IsLoadedPoint w p → height p ≡ other p) → IsTrue (is_known w x) →
        known_wedge w.large height (is_known w) x ≡ known_wedge w.large other (is_known w) x }
    ensures elsewhere { (n : ℕ) (height other : Point → ℕ) (known : ℕ → Bool) (area : Area) (x : ℕ) →
        ((p : Point) → is_in_area area p.x p.y ≡ false → height p ≡ other p) → 2 ≤ x →
        overlaps (corners_of n x) area ≡ false → known_wedge n height known x ≡ known_wedge n other known x }
{}
