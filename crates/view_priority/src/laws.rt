//! Laws of priorities, as clauses of functions with empty bodies.

ghost use Rattle.std.specs.Prelude.{◌≡◌, ℕ, ◌+◌, ◌-◌, ◌*◌, ◌/◌, ◌≤◌, List};
ghost use Rattle.mesh_defs.specs.declared.point.Corners.{Corners};
ghost use Rattle.mesh_defs.specs.Triangle.{level_of, child, IsSplittable};
ghost use Rattle.mesh_defs.specs.BoundingBox.{BoundingBox, CameraAt, box_of, distance_of};
ghost use Rattle.mesh_defs.specs.State.{move_length};
ghost use Rattle.mesh_defs.specs.View.{View, ViewPlane, mark_of};
ghost use Rattle.mesh_defs.specs.Priority.{priority_of};
ghost use Rattle.mesh_defs.specs.Ranking.{RanksBefore};
ghost use Rattle.cull_marks.specs.Nesting.{IsInside, IsOrdered};
ghost use Rattle.view_priority.specs.Bounds.{box_over, box_priority_at, box_priority, viewed_from};

use bintree_addr::{corner_laws, level_laws};
use cull_marks::mark_laws;
use mesh_defs::{Mark, roots};
use wedgie_tree::wedge_laws;

/// Priorities by boxes and thicknesses, whatever these are of.
///
/// `ordered` the box over a triangle has its ends in order, and `child` that over a child lies in it where its heights
/// do. `nested` what lies in a box and is no thicker has no greater priority; `flat` without thickness it is 0. `above`,
/// `below` from each place within the slack it lies between those at the two distances.
pub fn box_laws()
    ensures ordered { (spacing : ℕ) (c : Corners) (low high : ℕ) → low ≤ high →
        IsOrdered (box_over spacing c low high) }
    ensures child { (spacing side : ℕ) (c : Corners) (low high inner_low inner_high : ℕ) → low ≤ inner_low →
        inner_low ≤ inner_high → inner_high ≤ high →
        IsInside (box_over spacing (child side c) inner_low inner_high) (box_over spacing c low high) }
    ensures nested { (view : View) (inner outer : BoundingBox) (thin thick : ℕ) → IsInside inner outer →
        thin ≤ thick → box_priority view inner thin ≤ box_priority view outer thick }
    ensures flat { (view : View) (box : BoundingBox) (distance : ℕ) → box_priority_at view box 0 distance ≡ 0 }
    ensures above { (view : View) (to : CameraAt) (box : BoundingBox) (thickness slack : ℕ) → IsOrdered box →
        move_length view.camera to ≤ slack → box_priority (viewed_from to view) box thickness
        ≤ box_priority_at view box thickness (distance_of box view.camera - slack) }
    ensures below { (view : View) (to : CameraAt) (box : BoundingBox) (thickness slack : ℕ) → IsOrdered box →
        move_length view.camera to ≤ slack → box_priority_at view box thickness (distance_of box view.camera + slack)
        ≤ box_priority (viewed_from to view) box thickness }
{
    mark_laws();
    roots();
}

/// Priorities do not rise from a triangle to its children, since a child's box lies in its parent's.
///
/// So no child ranks before its parent. A finest triangle has priority 0.
pub fn priority_laws()
    ensures left_box { (n : ℕ) (heights : List ℕ) (spacing a : ℕ) → IsSplittable n a →
        IsInside (box_of n heights spacing (2 * a)) (box_of n heights spacing a) }
    ensures right_box { (n : ℕ) (heights : List ℕ) (spacing a : ℕ) → IsSplittable n a →
        IsInside (box_of n heights spacing (2 * a + 1)) (box_of n heights spacing a) }
    ensures left { (n : ℕ) (heights : List ℕ) (view : View) (a : ℕ) → IsSplittable n a →
        priority_of n heights view (2 * a) ≤ priority_of n heights view a }
    ensures right { (n : ℕ) (heights : List ℕ) (view : View) (a : ℕ) → IsSplittable n a →
        priority_of n heights view (2 * a + 1) ≤ priority_of n heights view a }

    // The same from the child's side: b is a child of b / 2.
    ensures parent { (n : ℕ) (heights : List ℕ) (view : View) (b : ℕ) → 4 ≤ b → level_of b ≤ 2 * n →
        priority_of n heights view b ≤ priority_of n heights view (b / 2) }
    ensures order { (n : ℕ) (heights : List ℕ) (view : View) (b : ℕ) → 4 ≤ b → level_of b ≤ 2 * n →
        RanksBefore (priority_of n heights view) b (b / 2) → ⊥ }
    ensures finest { (n : ℕ) (heights : List ℕ) (view : View) (a : ℕ) → level_of a ≡ 2 * n →
        priority_of n heights view a ≡ 0 }
{
    corner_laws();
    level_laws();
    mark_laws();
    roots();
    wedge_laws();
}

/// A camera that moves by some length, added up over the three axes, is at most so much farther from a box.
pub fn distance_laws()
    ensures ordered { (n : ℕ) (heights : List ℕ) (spacing a : ℕ) → IsOrdered (box_of n heights spacing a) }
    ensures moved { (box : BoundingBox) (from to : CameraAt) → IsOrdered box →
        distance_of box to ≤ distance_of box from + move_length from to }
{
    roots();
}

/// What a triangle passes on to its children, that it is Outside and that it is Inside; and that the lengths of
/// moves add up: no way round is shorter than the move itself.
pub fn view_laws()
    ensures outside_left { (n : ℕ) (heights : List ℕ) (spacing : ℕ) (planes : List ViewPlane) (a : ℕ) →
        IsSplittable n a →
        mark_of planes (box_of n heights spacing a) ≡ Mark.Outside →
        mark_of planes (box_of n heights spacing (2 * a)) ≡ Mark.Outside }
    ensures outside_right { (n : ℕ) (heights : List ℕ) (spacing : ℕ) (planes : List ViewPlane) (a : ℕ) →
        IsSplittable n a →
        mark_of planes (box_of n heights spacing a) ≡ Mark.Outside →
        mark_of planes (box_of n heights spacing (2 * a + 1)) ≡ Mark.Outside }
    ensures inside_left { (n : ℕ) (heights : List ℕ) (spacing : ℕ) (planes : List ViewPlane) (a : ℕ) →
        IsSplittable n a →
        mark_of planes (box_of n heights spacing a) ≡ Mark.Inside →
        mark_of planes (box_of n heights spacing (2 * a)) ≡ Mark.Inside }
    ensures inside_right { (n : ℕ) (heights : List ℕ) (spacing : ℕ) (planes : List ViewPlane) (a : ℕ) →
        IsSplittable n a →
        mark_of planes (box_of n heights spacing a) ≡ Mark.Inside →
        mark_of planes (box_of n heights spacing (2 * a + 1)) ≡ Mark.Inside }
    ensures no_move { (camera : CameraAt) → move_length camera camera ≡ 0 }
    ensures two_moves { (from between to : CameraAt) →
        move_length from to ≤ move_length from between + move_length between to }
{
    mark_laws();
    priority_laws();
}
