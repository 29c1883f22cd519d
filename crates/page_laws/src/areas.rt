//! What stays apart from a page's square where the page comes or goes, as laws.

ghost use Rattle.std.specs.Prelude.{◌≡◌, ℕ, ◌+◌, ◌≤◌, Bool, false};
ghost use Rattle.mesh_defs.specs.declared.point.Point.{Point};
ghost use Rattle.mesh_defs.specs.Triangle.{corners_of};
ghost use Rattle.bintree_laws.specs.Areas.{overlaps};
ghost use Rattle.page_laws.specs.Pages.{Pages, is_known, page_area};
ghost use Rattle.page_laws.specs.Loaded.{known_wedge};
ghost use Rattle.page_laws.specs.Opened.{with_known_mate};

/// What stays where a page comes or goes: all of a triangle whose bounding rectangle does not meet the page's square.
///
/// `known` whether it is known, `open` whether it and its mate are, and `wedge` its wedge. A mate that lies in the
/// square has its base there, which is the triangle's base too, so the triangle would meet the square. Hence only the
/// triangles that meet the square are looked at again.
pub fn area_laws()
    ensures known { (w : Pages) (loaded : ℕ → Point → Bool) (q : ℕ) (t : Point) (x : ℕ) →
        ((r : ℕ) (u : Point) → (r ≡ q → u ≡ t → ⊥) → w.loaded r u ≡ loaded r u) → w.n + q ≤ w.large → 2 ≤ x →
        overlaps (corners_of w.large x) (page_area w q t) ≡ false →
        is_known w x ≡ is_known (record w { loaded = loaded }) x }
    ensures open { (w : Pages) (loaded : ℕ → Point → Bool) (q : ℕ) (t : Point) (x : ℕ) →
        ((r : ℕ) (u : Point) → (r ≡ q → u ≡ t → ⊥) → w.loaded r u ≡ loaded r u) → w.n + q ≤ w.large → 2 ≤ x →
        overlaps (corners_of w.large x) (page_area w q t) ≡ false →
        with_known_mate (is_known w) x ≡ with_known_mate (is_known (record w { loaded = loaded })) x }
    ensures wedge { (w : Pages) (loaded : ℕ → Point → Bool) (q : ℕ) (t : Point) (height : Point → ℕ) (x : ℕ) →
        ((r : ℕ) (u : Point) → (r ≡ q → u ≡ t → ⊥) → w.loaded r u ≡ loaded r u) → w.n + q ≤ w.large → 2 ≤ x →
        overlaps (corners_of w.large x) (page_area w q t) ≡ false → known_wedge w.large height (is_known w) x
        ≡ known_wedge w.large height (is_known (record w { loaded = loaded })) x }
{}
