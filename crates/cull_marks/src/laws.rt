//! Laws of marks, as the clauses of a function with an empty body.

ghost use Rattle.std.specs.Prelude.{◌≡◌, List};
ghost use Rattle.mesh_defs.specs.BoundingBox.{BoundingBox};
ghost use Rattle.mesh_defs.specs.View.{ViewPlane, mark_of};
ghost use Rattle.cull_marks.specs.Nesting.{IsInside};
ghost use Rattle.cull_marks.specs.declared.planes.TheConstants.{MOST_PLANES};

use mesh_defs::Mark;

/// What a box passes on to the boxes that lie in it: that it is Outside, and that it is Inside.
pub fn mark_laws()
    ensures outside { (planes : List ViewPlane) (inner outer : BoundingBox) → IsInside inner outer →
        mark_of planes outer ≡ Mark.Outside → mark_of planes inner ≡ Mark.Outside }
    ensures inside { (planes : List ViewPlane) (inner outer : BoundingBox) → IsInside inner outer →
        mark_of planes outer ≡ Mark.Inside → mark_of planes inner ≡ Mark.Inside }
{}

/// What the limit is, as a number. It does nothing.
pub fn limit_laws()
    ensures most_planes { MOST_PLANES ≡ 6 }
{}
