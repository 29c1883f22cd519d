//! Laws of the definitions, each a clause of a function with an empty body.

ghost use Rattle.std.specs.Prelude.{◌≡◌, ℕ, ◌^◌, ◌↔◌, ◌⊎◌, Bool, IsTrue};
ghost use Rattle.mesh_defs.specs.declared.point.Point.{Point};
ghost use Rattle.mesh_defs.specs.Triangle.{IsSplittable};
ghost use Rattle.mesh_defs.specs.ClosedSet.{IsClosed, leaves_of};
ghost use Rattle.mesh_laws.specs.Vertex.{is_mesh_vertex, centre_of, IsSquareCorner, IsCentre};

/// The vertices of the mesh of a closed set are the corners of the square and the centres of its members.
///
/// `centre`: the centre of a triangle is a vertex exactly where the triangle is a member. `same`: where two closed
/// sets agree on the triangles whose centre a point is, it is a vertex of both meshes or of neither.
pub fn vertex_laws()
    ensures place { (n : ℕ) (has : ℕ → Bool) (p : Point) → IsClosed n has →
        (IsTrue (is_mesh_vertex n (leaves_of n has) p) ↔ (IsSquareCorner (2 ^ n) p ⊎ IsCentre n has p)) }
    ensures centre { (n : ℕ) (has : ℕ → Bool) (a : ℕ) → IsClosed n has → IsSplittable n a →
        is_mesh_vertex n (leaves_of n has) (centre_of n a) ≡ has a }
    ensures same { (n : ℕ) (has other : ℕ → Bool) (p : Point) → IsClosed n has → IsClosed n other →
        ((a : ℕ) → IsSplittable n a → centre_of n a ≡ p → has a ≡ other a) →
        is_mesh_vertex n (leaves_of n has) p ≡ is_mesh_vertex n (leaves_of n other) p }
{}
