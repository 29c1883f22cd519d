//! Laws of the definitions, each a clause of a function with an empty body.

ghost use Rattle.std.specs.Prelude.{◌≡◌, ◌^◌, ◌+◌, ◌-◌, ◌*◌, ◌≤◌, ℕ, IsTrue, List, length, count_by, nat_eq};
ghost use Rattle.std.specs.List.{flat_map};
ghost use Rattle.mesh_defs.specs.HeightField.{side_of};
ghost use Rattle.mesh_defs.specs.ClosedSet.{IsClosed, among, leaves_of};
ghost use Rattle.mesh_defs.specs.MeshText.{vertices_of};
ghost use Rattle.obj_write.specs.Arrays.{positions_of, places_of};
ghost use Rattle.roam_embed.specs.Border.{border_of};
ghost use Rattle.roam_embed.specs.Drawn.{drawn, corner_positions};
ghost use Rattle.roam_embed.specs.declared.fitting.TheConstants.{GREATEST_TOLERANCE};
ghost use Rattle.roam_embed.specs.declared.ground.TheConstants.{GREATEST_CHANGE};
ghost use Rattle.roam_embed.specs.declared.view.TheConstants.{LONGEST_WAY, MOST_PLANES};

/// Places point back at corners: whoever reads the positions of a mesh at the places of its triangles, three numbers
/// at each, gets x, y and z of the corners of each triangle in turn.
pub fn compact_laws()
    ensures { (n : ℕ) (heights : List ℕ) (spacing : ℕ) (triangles : List ℕ) →
        drawn (positions_of n heights spacing triangles) (places_of n triangles)
        ≡ flat_map (corner_positions n heights spacing) triangles }
{}

/// How many places a list needs at most: what a caller makes room for.
///
/// `vertices` a mesh has at most two vertices more than triangles; `border` at most four times the side less 2 of them lie
/// on the border of the grid and are no corners of it.
pub fn room_laws()
    ensures vertices { (n : ℕ) (members : List ℕ) →
        ((a : ℕ) → IsTrue (among members a) → count_by (λ t. nat_eq t a) members ≡ 1) → IsClosed n (among members) →
        length (vertices_of n (leaves_of n (among members))) ≤ length (leaves_of n (among members)) + 2 }
    ensures border { (n : ℕ) (leaves : List ℕ) → 1 ≤ n → length (border_of n leaves) ≤ 4 * (side_of n - 2) }
{}

/// What each limit is, as a number. It does nothing.
pub fn limit_laws()
    ensures greatest_tolerance { GREATEST_TOLERANCE ≡ 65535999 }
    ensures greatest_change { GREATEST_CHANGE ≡ 65535 }
    ensures longest_way { LONGEST_WAY ≡ 2 ^ 61 }
    ensures most_planes { MOST_PLANES ≡ 6 }
{}
