//! Priorities over what is loaded, as laws.

ghost use Rattle.std.specs.Prelude.{◌≡◌, ◌↔◌, ℕ, ◌+◌, ◌*◌, ◌≤◌, Bool, IsTrue, List, Option};
ghost use Rattle.bintree_addr.specs.declared.blocked.Blocked.{Blocked};
ghost use Rattle.mesh_defs.specs.BoundingBox.{CameraAt};
ghost use Rattle.mesh_defs.specs.ClosedSet.{IsSubset, leaves_of};
ghost use Rattle.mesh_defs.specs.declared.point.Point.{Point};
ghost use Rattle.mesh_defs.specs.Falling.{IsFalling};
ghost use Rattle.mesh_defs.specs.State.{move_length};
ghost use Rattle.mesh_defs.specs.View.{ViewPlane};
ghost use Rattle.mesh_laws.specs.Frame.{IsFrame};
ghost use Rattle.mesh_laws.specs.Vertex.{is_mesh_vertex};
ghost use Rattle.mesh_laws.specs.Stamps.{ReadingsHold, IsInStamp, stamp_now};
ghost use Rattle.cull_marks.specs.Nesting.{IsInside, IsOrdered};
ghost use Rattle.page_laws.specs.Loaded.{IsAtOrUnder};
ghost use Rattle.page_laws.specs.Pages.{is_known, IsLoadedPoint, IsPyramid};
ghost use Rattle.page_priority.specs.Loaded.{LoadedState, is_open, loaded_wedge, loaded_box, loaded_mark};
ghost use Rattle.page_priority.specs.Loaded.{loaded_priority, loaded_priorities, loaded_readings};
ghost use Rattle.page_priority.specs.Loaded.{loaded_from, loaded_within};

use cull_marks::mark_laws;
use mesh_defs::Mark;
use page_laws::{open_laws, point_laws, pyramid_laws};
use view_priority::{box_laws, view_laws};

/// Boxes and wedges over what is loaded: those of a known triangle's children lie in its own.
///
/// `wedge` and `ordered` the least height of each triangle is at most its greatest, and the ends of its box are in
/// order. `left_box`, `right_box` the boxes of a known triangle's children lie in its own. So it passes on to them that
/// it is Outside (`outside_left`, `outside_right`) and that it is Inside (`inside_left`, `inside_right`) of planes; and
/// to all known triangles at or below it (`box_below`, `outside_below`, `inside_below`).
pub fn nesting_laws()
    ensures wedge { (s : LoadedState) (a : ℕ) → (loaded_wedge s a).low ≤ (loaded_wedge s a).high }
    ensures ordered { (s : LoadedState) (a : ℕ) → IsOrdered (loaded_box s a) }
    ensures left_box { (s : LoadedState) (a : ℕ) → IsPyramid s.pages → IsTrue (is_known s.pages a) →
        IsInside (loaded_box s (2 * a)) (loaded_box s a) }
    ensures right_box { (s : LoadedState) (a : ℕ) → IsPyramid s.pages → IsTrue (is_known s.pages a) →
        IsInside (loaded_box s (2 * a + 1)) (loaded_box s a) }
    ensures outside_left { (s : LoadedState) (planes : List ViewPlane) (a : ℕ) → IsPyramid s.pages →
        IsTrue (is_known s.pages a) → loaded_mark s planes a ≡ Mark.Outside →
        loaded_mark s planes (2 * a) ≡ Mark.Outside }
    ensures outside_right { (s : LoadedState) (planes : List ViewPlane) (a : ℕ) → IsPyramid s.pages →
        IsTrue (is_known s.pages a) → loaded_mark s planes a ≡ Mark.Outside →
        loaded_mark s planes (2 * a + 1) ≡ Mark.Outside }
    ensures inside_left { (s : LoadedState) (planes : List ViewPlane) (a : ℕ) → IsPyramid s.pages →
        IsTrue (is_known s.pages a) → loaded_mark s planes a ≡ Mark.Inside →
        loaded_mark s planes (2 * a) ≡ Mark.Inside }
    ensures inside_right { (s : LoadedState) (planes : List ViewPlane) (a : ℕ) → IsPyramid s.pages →
        IsTrue (is_known s.pages a) → loaded_mark s planes a ≡ Mark.Inside →
        loaded_mark s planes (2 * a + 1) ≡ Mark.Inside }
    ensures box_below { (s : LoadedState) (t a : ℕ) → IsPyramid s.pages → IsAtOrUnder t a →
        IsTrue (is_known s.pages a) → IsInside (loaded_box s a) (loaded_box s t) }
    ensures outside_below { (s : LoadedState) (planes : List ViewPlane) (t a : ℕ) → IsPyramid s.pages →
        IsAtOrUnder t a → IsTrue (is_known s.pages a) → loaded_mark s planes t ≡ Mark.Outside →
        loaded_mark s planes a ≡ Mark.Outside }
    ensures inside_below { (s : LoadedState) (planes : List ViewPlane) (t a : ℕ) → IsPyramid s.pages →
        IsAtOrUnder t a → IsTrue (is_known s.pages a) → loaded_mark s planes t ≡ Mark.Inside →
        loaded_mark s planes a ≡ Mark.Inside }
{
    box_laws();
    mark_laws();
}

/// Priorities over what is loaded, as a loop asks for them.
///
/// `falls` they fall from parent to child. `between` from each place whose way is at most the slack of a reading, the
/// priority lies between its bounds; so `readings` hold where the camera is. `same` a triangle that is open in both of
/// two states or in neither, and has the same wedge in both, has the same priority from every place: what a page's
/// coming and going leaves as it is. `planes` so has one that is Outside of two sets of planes or of neither.
/// `frame` what a frame splits is open, and `vertices` so the height at each vertex of its mesh is loaded.
pub fn loaded_laws()
    ensures falls { (s : LoadedState) → IsPyramid s.pages →
        IsFalling (loaded_priorities s).n (loaded_priorities s).of }
    ensures between { (pace : ℕ) (s : LoadedState) (odometer : ℕ) (to : CameraAt) (a : ℕ) →
        move_length s.view.camera to ≤ (loaded_readings pace s).slack a →
        IsInStamp (stamp_now (loaded_readings pace s) odometer a) (loaded_priority (loaded_from to s) a) }
    ensures readings { (pace : ℕ) (s : LoadedState) (odometer : ℕ) →
        ReadingsHold (loaded_priorities s).n (loaded_priorities s).of odometer (loaded_readings pace s) }
    ensures same { (s other : LoadedState) (to : CameraAt) (a : ℕ) → other.view ≡ s.view →
        other.pages.large ≡ s.pages.large → is_open other a ≡ is_open s a →
        (IsTrue (is_open s a) → loaded_wedge other a ≡ loaded_wedge s a) →
        loaded_priority (loaded_from to other) a ≡ loaded_priority (loaded_from to s) a }
    ensures planes { (s : LoadedState) (planes : List ViewPlane) (to : CameraAt) (a : ℕ) →
        ((loaded_mark s s.view.planes a ≡ Mark.Outside) ↔ (loaded_mark s planes a ≡ Mark.Outside)) →
        loaded_priority (loaded_from to (loaded_within planes s)) a ≡ loaded_priority (loaded_from to s) a }
    ensures frame { (s : LoadedState) (budget : ℕ) (has : ℕ → Bool) (worst : ℕ) (blocked : Option Blocked) →
        IsPyramid s.pages → IsFrame s.pages.large budget (loaded_priority s) has worst blocked →
        IsSubset has (is_open s) }
    ensures vertices { (s : LoadedState) (has : ℕ → Bool) (r : Point) → IsPyramid s.pages → IsSubset has (is_open s) →
        IsTrue (is_mesh_vertex s.pages.large (leaves_of s.pages.large has) r) → IsLoadedPoint s.pages r }
{
    box_laws();
    nesting_laws();
    open_laws();
    point_laws();
    pyramid_laws();
    view_laws();
}
