//! What a frame and other calls rest on, as laws.

ghost use Rattle.std.specs.Prelude.{◌≡◌, ℕ, ◌+◌, ◌≤◌, Bool, false, List, Contains, Option, None};
ghost use Rattle.bintree_addr.specs.declared.blocked.Blocked.{Blocked};
ghost use Rattle.mesh_defs.specs.declared.point.Point.{Point};
ghost use Rattle.mesh_defs.specs.State.{Area, is_in_area};
ghost use Rattle.mesh_defs.specs.Triangle.{corners_of, IsAddress};
ghost use Rattle.mesh_defs.specs.ClosedSet.{IsClosed, leaves_of};
ghost use Rattle.mesh_defs.specs.View.{View, ViewPlane};
ghost use Rattle.mesh_defs.specs.Priority.{priority_of};
ghost use Rattle.mesh_laws.specs.Frame.{IsFrame};
ghost use Rattle.mesh_laws.specs.Least.{IsLeastMesh};
ghost use Rattle.bintree_laws.specs.Areas.{overlaps};
ghost use Rattle.roam_mesh.specs.Mesh.{MeshState, OnlyEntriesStamped};
ghost use Rattle.page_laws.specs.Pages.{IsPyramid, IsLoadedPoint, page_area};
ghost use Rattle.page_laws.specs.Loaded.{AreLoadedHeights, IsHalfOff};
ghost use Rattle.page_store.specs.Store.{Store, pages_of, height_in};
ghost use Rattle.page_store.specs.Change.{AreOthersSame, AreHeightsSame};
ghost use Rattle.page_priority.specs.Loaded.{LoadedState, loaded_priority, loaded_within};
ghost use Rattle.page_priority.specs.Scene.{loaded_in};
ghost use Rattle.view_mesh.specs.Expiry.{IsExpired};
ghost use Rattle.view_mesh.specs.Sight.{IsSound};
ghost use Rattle.world_loop.specs.declared.note.WorldNote.{WorldNote};
ghost use Rattle.world_loop.specs.Turn.{is_turned};
ghost use Rattle.world_loop.specs.World.{WorldState, loaded_of, sight_of, IsSeenSame, IsKept};
ghost use Rattle.world_loop.specs.World.{loaded_above, AreAllLoaded};

use mesh_laws::least_laws;
use page_laws::{area_laws, height_laws, surface_laws};
use page_priority::loaded_laws;
use view_mesh::sight_laws;
use view_priority::priority_laws;
use wedgie_tree::wedge_laws;

/// What is loaded can be followed: priorities fall, and readings bracket them.
pub fn world_laws()
    ensures sound { (pace : ℕ) (s : LoadedState) → IsPyramid s.pages → IsSound (sight_of pace s) }
{
    loaded_laws();
}

/// What a mesh over what is loaded is to the threshold, to the surface, and to an engine.
///
/// `least` a frame of worst 0 is the least mesh whose ratios over what is loaded are all at most the threshold: each mesh
/// of which that holds refines it. `surface` at each loaded point each mesh has a triangle that the surface is off by at
/// most half its thickness. `whole` where all pages of the finest resolution are loaded, the priorities are those of a
/// height field with these heights, so a frame makes the mesh that one of an engine would.
pub fn loaded_mesh_laws()
    ensures least { (s : LoadedState) (budget : ℕ) (has : ℕ → Bool) (blocked : Option Blocked) → IsPyramid s.pages →
        IsFrame s.pages.large budget (loaded_priority s) has 0 blocked →
        IsLeastMesh s.pages.large s.view.threshold (loaded_priority (loaded_above 0 s)) (leaves_of s.pages.large has) }
    ensures surface { (s : Store) (heights : List ℕ) (has : ℕ → Bool) (r : Point) → IsPyramid (pages_of s) →
        AreLoadedHeights (pages_of s) (height_in s) heights → IsClosed s.large has → IsLoadedPoint (pages_of s) r →
        ((a : ℕ) × Contains (leaves_of s.large has) a × IsHalfOff (pages_of s) (height_in s) heights a r) }
    ensures whole { (s : LoadedState) (heights : List ℕ) (a : ℕ) → IsPyramid s.pages → AreAllLoaded s.pages →
        AreLoadedHeights s.pages s.height heights → IsAddress s.pages.large a →
        loaded_priority s a ≡ priority_of s.pages.large heights s.view a }
{
    least_laws();
    loaded_laws();
    surface_laws();
    wedge_laws();
    priority_laws();
}

/// What stays where a call changes what is loaded or seen.
///
/// A triangle keeps its priority, from every place, if its bounding rectangle does not meet the square of a page that is
/// loaded (`page`) or the area where heights change (`heights`), or if planes do not turn it (`planes`). Where the stamps of
/// all others expired, a world is one again (`again`).
pub(crate) fn change_laws()
    ensures page { (s more : Store) (q : ℕ) (t : Point) (view : View) → more.large ≡ s.large → more.n ≡ s.n →
        AreOthersSame s more q t → s.n + q ≤ s.large → IsPyramid (pages_of s) → AreHeightsSame s s more → (a : ℕ) →
        2 ≤ a → overlaps (corners_of s.large a) (page_area (pages_of s) q t) ≡ false →
        IsSeenSame (loaded_in (record { store = s; view = view }))
        (loaded_in (record { store = more; view = view })) a }
    ensures heights { (s more : Store) (area : Area) (view : View) → pages_of more ≡ pages_of s →
        ((p : Point) → is_in_area area p.x p.y ≡ false → height_in more p ≡ height_in s p) → (a : ℕ) → 2 ≤ a →
        overlaps (corners_of s.large a) area ≡ false →
        IsSeenSame (loaded_in (record { store = s; view = view }))
        (loaded_in (record { store = more; view = view })) a }
    ensures planes { (s : LoadedState) (planes : List ViewPlane) (a : ℕ) → is_turned s planes a ≡ false →
        IsSeenSame s (loaded_within planes s) a }
    ensures again { (w : WorldState) (leaves : List ℕ) (most : ℕ) (still : Option WorldNote) (store : Store)
        (view : View) (mesh : MeshState) (expired : ℕ → Bool) → IsKept w leaves most still →
        OnlyEntriesStamped w.mesh → store.large ≡ w.store.large → view.camera ≡ w.view.camera →
        view.spacing ≡ w.view.spacing → IsExpired w.mesh mesh expired →
        ((a : ℕ) → IsAddress w.store.large a → expired a ≡ false → IsSeenSame (loaded_of w)
        (loaded_in (record { store = store; view = view })) a) →
        IsKept (record w { store = store; view = view; mesh = mesh }) leaves most None }
{
    area_laws();
    height_laws();
    loaded_laws();
    sight_laws();
}
