//! Rounds over the tiles, as laws.

ghost use Rattle.std.specs.Prelude.{◌≡◌, ◌⊎◌, ℕ, ◌+◌, ◌*◌, ◌^◌, ◌≤◌, Bool, IsTrue, List, nat_eq};
ghost use Rattle.mesh_defs.specs.declared.point.Point.{Point};
ghost use Rattle.mesh_defs.specs.Triangle.{IsAddress, IsSplittable};
ghost use Rattle.mesh_defs.specs.ClosedSet.{IsClosed, IsSubset};
ghost use Rattle.mesh_laws.specs.Ancestors.{ancestors_of};
ghost use Rattle.fit_laws.specs.Error.{IsExactAtFinest};
ghost use Rattle.fit_laws.specs.Settled.{IsFineEnough};
ghost use Rattle.fit_laws.specs.Required.{IsLeastSettledWith, IsLeastMeshWith};
ghost use Rattle.mosaic_laws.specs.Tile.{IsTile, is_part};
ghost use Rattle.mosaic_laws.specs.Glue.{is_coarse, glue, splits_of, IsAgreed, IsUnionOf};
ghost use Rattle.mosaic_laws.specs.Mirror.{IsBeyond};
ghost use Rattle.mosaic_laws.specs.Rounds.{tile_error, IsAsked, IsRedone, IsReachedIn, IsRunning, IsSettledDown};
ghost use Rattle.mosaic_laws.specs.Mosaic.{IsLeastMosaic};

/// The least settled set, tile by tile.
///
/// `part` what a settled set has in a tile is settled for the tile's error; `redone` a tile's least mesh that splits
/// nothing but 2 and what its neighbours ask for is the tile fitted again; `needed` what rounds reach is in each
/// settled set that has all that is coarse; `agreed` where nothing is asked that is not there, the tiles agree; `least`
/// and then all together are the least such set.
pub fn round_laws()
    ensures part { (n p : ℕ) (t : Point) (has : ℕ → Bool) → IsTile (2 ^ p) (2 ^ p) t →
        IsSubset (is_coarse p) has → (tolerance : ℕ) (error : ℕ → ℕ) →
        IsFineEnough (n + p) tolerance error has →
        IsFineEnough n tolerance (tile_error p error t) (is_part p t has) }
    ensures redone { (columns rows n p tolerance : ℕ) (error : ℕ → ℕ) (before : Point → ℕ → Bool) (t : Point)
        (required : ℕ → Bool) (triangles : List ℕ) → IsTrue (required 2) →
        ((a : ℕ) → IsTrue (required a) → (a ≡ 2) ⊎ IsAsked columns rows n p before t a) →
        IsLeastMeshWith n tolerance (tile_error p error t) required triangles →
        IsRedone columns rows n p tolerance error before t (ancestors_of triangles) }
    ensures needed { (columns rows n p tolerance : ℕ) (error : ℕ → ℕ) (other : ℕ → Bool) → columns ≤ 2 ^ p →
        rows ≤ 2 ^ p → IsFineEnough (n + p) tolerance error other → IsSubset (is_coarse p) other →
        (rounds : ℕ) (sets : Point → ℕ → Bool) → IsReachedIn rounds columns rows n p tolerance error sets →
        (t : Point) → IsTile columns rows t → IsSubset (sets t) (is_part p t other) }
    ensures agreed { (columns rows n p : ℕ) (sets : Point → ℕ → Bool) → IsSettledDown columns rows n p sets →
        IsAgreed columns rows n p sets }
    ensures least { (n p tolerance rounds : ℕ) (error : ℕ → ℕ) (sets : Point → ℕ → Bool) →
        IsReachedIn rounds (2 ^ p) (2 ^ p) n p tolerance error sets →
        ((t : Point) → IsTile (2 ^ p) (2 ^ p) t → IsFineEnough n tolerance (tile_error p error t) (sets t)) →
        ((t : Point) → IsTile (2 ^ p) (2 ^ p) t → IsTrue (sets t 2)) → IsAgreed (2 ^ p) (2 ^ p) n p sets →
        IsLeastSettledWith (n + p) tolerance error (is_coarse p) (glue p sets) }
{}

/// How a loop over rounds knows what it has.
///
/// `start` the tiles' least sets, with their centres required, are a first round; `splittable` what is asked for
/// can be split; `step` each tile fitted again, with what is asked for beside what was required, is a further
/// round, and `grows` no tile loses a split; `end` once each tile has what it is asked for, all together are the least
/// set, `mesh` their lists the least mesh, and `mosaic` the least mosaic of their rectangle; `ends` there are rounds
/// that end so.
pub fn run_laws()
    ensures start { (columns rows n p tolerance : ℕ) (error : ℕ → ℕ) (sets : Point → ℕ → Bool) →
        ((t : Point) → IsTile columns rows t →
        IsLeastSettledWith n tolerance (tile_error p error t) (λ a. nat_eq a 2) (sets t)) →
        IsRunning columns rows n p tolerance error (λ t a. nat_eq a 2) sets }
    ensures splittable { (columns rows n p : ℕ) (sets : Point → ℕ → Bool) →
        ((u : Point) → IsTile columns rows u → IsClosed n (sets u)) → (t : Point) (a : ℕ) →
        IsAsked columns rows n p sets t a → IsSplittable n a }
    ensures step { (columns rows n p tolerance : ℕ) (error : ℕ → ℕ) (required sets more next : Point → ℕ → Bool) →
        IsRunning columns rows n p tolerance error required sets →
        ((t : Point) → IsTile columns rows t → IsSubset (required t) (more t)) →
        ((t : Point) (a : ℕ) → IsTile columns rows t → IsTrue (more t a) →
        (a ≡ 2) ⊎ IsAsked columns rows n p sets t a) →
        ((t : Point) → IsTile columns rows t →
        IsLeastSettledWith n tolerance (tile_error p error t) (more t) (next t)) →
        IsRunning columns rows n p tolerance error more next }
    ensures grows { (columns rows n p tolerance : ℕ) (error : ℕ → ℕ) (required sets more next : Point → ℕ → Bool) →
        IsRunning columns rows n p tolerance error required sets →
        ((t : Point) → IsTile columns rows t → IsSubset (required t) (more t)) →
        ((t : Point) → IsTile columns rows t →
        IsLeastSettledWith n tolerance (tile_error p error t) (more t) (next t)) →
        (t : Point) → IsTile columns rows t → IsSubset (sets t) (next t) }
    ensures end { (n p tolerance : ℕ) (error : ℕ → ℕ) (required sets : Point → ℕ → Bool) →
        IsRunning (2 ^ p) (2 ^ p) n p tolerance error required sets → IsSettledDown (2 ^ p) (2 ^ p) n p sets →
        IsLeastSettledWith (n + p) tolerance error (is_coarse p) (glue p sets) }
    ensures mesh { (n p tolerance : ℕ) (error : ℕ → ℕ) (required : Point → ℕ → Bool) (lists : Point → List ℕ)
        (triangles : List ℕ) → IsRunning (2 ^ p) (2 ^ p) n p tolerance error required (splits_of lists) →
        ((t : Point) → IsTile (2 ^ p) (2 ^ p) t →
        IsLeastMeshWith n tolerance (tile_error p error t) (required t) (lists t)) →
        IsSettledDown (2 ^ p) (2 ^ p) n p (splits_of lists) → IsUnionOf n p lists triangles →
        IsLeastMeshWith (n + p) tolerance error (is_coarse p) triangles }
    ensures mosaic { (columns rows n p tolerance : ℕ) (error : ℕ → ℕ) (required : Point → ℕ → Bool)
        (lists : Point → List ℕ) → columns ≤ 2 ^ p → rows ≤ 2 ^ p →
        IsRunning columns rows n p tolerance error required (splits_of lists) →
        ((t : Point) → IsTile columns rows t →
        IsLeastMeshWith n tolerance (tile_error p error t) (required t) (lists t)) →
        IsSettledDown columns rows n p (splits_of lists) → IsLeastMosaic columns rows n p tolerance error lists }
    ensures ends { (columns rows n p tolerance : ℕ) (error : ℕ → ℕ) → columns ≤ 2 ^ p → rows ≤ 2 ^ p → 1 ≤ n →
        IsExactAtFinest (n + p) error → ((required : Point → ℕ → Bool) × (sets : Point → ℕ → Bool) ×
        IsRunning columns rows n p tolerance error required sets × IsSettledDown columns rows n p sets) }
{}

/// What neighbours ask for, by mirror images.
///
/// `asked` a triangle is asked for if its mirror image beyond a side is split in the tile there; `there` what is
/// asked for is split already, or has such an image; `down` so the tiles have settled down if each has the mirror
/// images of what is split beyond its sides.
pub fn neighbour_laws()
    ensures asked { (columns rows n p : ℕ) (sets : Point → ℕ → Bool) → columns ≤ 2 ^ p → rows ≤ 2 ^ p →
        (t u : Point) (a c : ℕ) → IsTile columns rows t → IsTile columns rows u → 4 ≤ a → IsAddress n a →
        IsBeyond n t u a c → IsTrue (sets u c) → IsAsked columns rows n p sets t a }
    ensures there { (columns rows n p : ℕ) (sets : Point → ℕ → Bool) → columns ≤ 2 ^ p → rows ≤ 2 ^ p →
        ((t : Point) → IsTile columns rows t → IsClosed n (sets t)) →
        (t : Point) (a : ℕ) → IsTile columns rows t → IsAsked columns rows n p sets t a →
        (IsTrue (sets t a) ⊎
        ((u : Point) × (c : ℕ) × IsTile columns rows u × IsBeyond n t u a c × IsTrue (sets u c))) }
    ensures down { (columns rows n p : ℕ) (sets : Point → ℕ → Bool) → columns ≤ 2 ^ p → rows ≤ 2 ^ p →
        ((t : Point) → IsTile columns rows t → IsClosed n (sets t)) →
        ((t u : Point) (a c : ℕ) → IsTile columns rows t → IsTile columns rows u → 4 ≤ a → IsAddress n a →
        IsBeyond n t u a c → IsTrue (sets u c) → IsTrue (sets t a)) → IsSettledDown columns rows n p sets }
{}
