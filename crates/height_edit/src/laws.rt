//! Laws of the list of triangles that hold a point.

ghost use Rattle.std.specs.Prelude.{◌≡◌, ℕ, ◌↔◌, true, Contains};
ghost use Rattle.mesh_defs.specs.declared.point.Point.{Point};
ghost use Rattle.mesh_defs.specs.Triangle.{IsAddress};
ghost use Rattle.mesh_defs.specs.BoundingBox.{holds_point};
ghost use Rattle.mesh_defs.specs.GridSet.{IsAscending};
ghost use Rattle.height_edit.specs.Holders.{holders};

/// The list has each triangle of the grid that holds the point, and no other, once.
pub fn holder_laws()
    ensures members { (n a : ℕ) (p : Point) → Contains (holders n p) a ↔ (IsAddress n a × (holds_point n a p ≡ true)) }
    ensures ascending { (n : ℕ) (p : Point) → IsAscending (holders n p) }
{}
