//! What a page's wedges are in the terrain, as laws.

ghost use Rattle.std.specs.Prelude.{◌≡◌, ℕ, ◌+◌, ◌*◌, ◌^◌, ◌<◌, ◌≤◌, Bool, IsTrue};
ghost use Rattle.mesh_defs.specs.declared.point.Point.{Point};
ghost use Rattle.mesh_defs.specs.HeightField.{HeightField};
ghost use Rattle.mesh_defs.specs.Triangle.{corners_of};
ghost use Rattle.mosaic_laws.specs.Tile.{IsTile, in_tile};
ghost use Rattle.page_laws.specs.Pages.{half, is_turned};
ghost use Rattle.page_laws.specs.Loaded.{known_wedge, AreSamples};
ghost use Rattle.page_wedges.specs.Page.{Page, joined_in, quarter_in, half_in};

/// A page's quarters and halves over what is known of the terrain.
///
/// `quarter` a quarter that is known has the wedge that `PageWedges::join_quarter` makes of those of its children, and
/// `half` where the four quarters have theirs, `PageWedges::half` answers that of a half. The page's other wedges are
/// its own (`own` of `page_wedge_laws` in `page_laws`).
pub fn terrain_laws()
    ensures quarter { (g : HeightField) (q p k : ℕ) (t : Point) (height : Point → ℕ) (known : ℕ → Bool) →
        1 ≤ g.n → k < 4 → IsTile (2 ^ p) (2 ^ p) t → AreSamples g.n q t height g.heights →
        IsTrue (known (in_tile p t (4 + k))) → known_wedge (g.n + q + p) height known (in_tile p t (4 + k))
        ≡ joined_in g (corners_of g.n (4 + k)) (known_wedge (g.n + q + p) height known (2 * in_tile p t (4 + k)))
        (known_wedge (g.n + q + p) height known (2 * in_tile p t (4 + k) + 1)) }
    ensures half { (page : Page) (q p which : ℕ) (t : Point) (height : Point → ℕ) (known : ℕ → Bool) →
        1 ≤ page.field.n → which < 2 → IsTile (2 ^ p) (2 ^ p) t →
        AreSamples page.field.n q t height page.field.heights → page.turned ≡ is_turned p t →
        IsTrue (known (half p t which)) → ((k : ℕ) → k < 4 → quarter_in page k
        ≡ known_wedge (page.field.n + q + p) height known (in_tile p t (4 + k))) →
        half_in page which ≡ known_wedge (page.field.n + q + p) height known (half p t which) }
{}
