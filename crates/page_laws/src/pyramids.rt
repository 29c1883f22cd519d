//! Which triangles are open where pages are nested, as laws.

ghost use Rattle.std.specs.Prelude.{◌≡◌, ℕ, ◌*◌, ◌/◌, ◌<◌, ◌≤◌, ◌⊎◌, ◌↔◌, Bool, false, IsTrue};
ghost use Rattle.mesh_defs.specs.declared.point.Point.{Point};
ghost use Rattle.mesh_defs.specs.Triangle.{level_of, IsMate};
ghost use Rattle.page_laws.specs.Opened.{IsOpen, with_known_mate};
ghost use Rattle.page_laws.specs.Pages.{Pages, cuts_to, square_at, is_in_page, is_known, IsPyramid, IsAtGap};

/// Which triangles are known and which are open, where pages are nested.
///
/// `known` a known triangle is above the coarsest pages or in a page. `found` the open triangles are the known ones
/// that have a known mate or none. `gap` a known triangle has a mate that is not known exactly where it is one of the
/// last border triangles at a side where no page of its resolution is; so `open` all other known triangles are open.
/// `parent` a known triangle has a known parent; `elsewhere` one page more or less changes what is known in its square
/// alone.
pub fn pyramid_laws()
    ensures known { (w : Pages) (x : ℕ) → IsTrue (is_known w x) ↔ ((2 ≤ x) × ((level_of x < 2 * cuts_to w w.top)
        ⊎ ((q : ℕ) × (q ≤ w.top) × IsTrue (is_in_page w q x)))) }
    ensures found { (w : Pages) → IsPyramid w → IsOpen w.large (is_known w) (with_known_mate (is_known w)) }
    ensures gap { (w : Pages) (x y : ℕ) → IsPyramid w → IsTrue (is_known w x) → IsMate w.large x y →
        ((is_known w y ≡ false) ↔ IsAtGap w x y) }
    ensures open { (w : Pages) (is_open : ℕ → Bool) (x : ℕ) → IsPyramid w → IsOpen w.large (is_known w) is_open →
        (IsTrue (is_open x)
        ↔ (IsTrue (is_known w x) × ((y : ℕ) → IsMate w.large x y → IsAtGap w x y → ⊥))) }
    ensures parent { (w : Pages) (x : ℕ) → IsPyramid w → IsTrue (is_known w x) → 4 ≤ x → IsTrue (is_known w (x / 2)) }
    ensures elsewhere { (w : Pages) (loaded : ℕ → Point → Bool) (q : ℕ) (t : Point) (x : ℕ) →
        ((r : ℕ) (u : Point) → (r ≡ q → u ≡ t → ⊥) → w.loaded r u ≡ loaded r u) →
        (2 * cuts_to w q ≤ level_of x → square_at w q x ≡ t → ⊥) →
        is_known w x ≡ is_known (record w { loaded = loaded }) x }
{}
