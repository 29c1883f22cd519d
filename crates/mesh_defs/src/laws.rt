//! Laws of the definitions, each a clause of a function with an empty body.

ghost use Rattle.std.specs.Prelude.{ℕ, ◌≡◌, ◌≤◌, ◌↔◌, ◌^◌};
ghost use Rattle.mesh_defs.specs.BoundingBox.{root_of, IsRoot};
ghost use Rattle.mesh_defs.specs.Priority.{above};
ghost use Rattle.mesh_defs.specs.declared.level.TheConstants.{GREATEST_LEVEL, GREATEST_FILE_LEVEL};
ghost use Rattle.mesh_defs.specs.declared.limits.TheConstants.{LEAST_TRIANGLES, MOST_TRIANGLES, GREATEST_HEIGHT};
ghost use Rattle.mesh_defs.specs.declared.limits.TheConstants.{GREATEST_ERROR, MOST_PLANES, GREATEST_SLOPE};
ghost use Rattle.mesh_defs.specs.declared.limits.TheConstants.{GREATEST_OFFSET, CAMERA_REACH, GREATEST_NUMBER};
ghost use Rattle.mesh_defs.specs.declared.counters.TheConstants.{LONGEST_WAY, MOST_CHANGES, CHANGES_AT_FRAME};

/// The square root by digits is the square root, rounded down.
pub fn roots()
    ensures { (s : ℕ) → IsRoot s (root_of s) }
{}

/// A threshold of 0 changes no ratio; above any threshold the order of ratios is kept; and 0 is left of just those that
/// are good enough.
pub fn threshold_laws()
    ensures none { (ratio : ℕ) → above 0 ratio ≡ ratio }
    ensures order { (threshold less more : ℕ) → less ≤ more → above threshold less ≤ above threshold more }
    ensures good { (threshold ratio : ℕ) → (above threshold ratio ≡ 0) ↔ (ratio ≤ threshold) }
{}

/// What each limit is, as a number. It does nothing.
pub fn limit_laws()
    ensures greatest_level { GREATEST_LEVEL ≡ 14 }
    ensures greatest_file_level { GREATEST_FILE_LEVEL ≡ 11 }
    ensures least_triangles { LEAST_TRIANGLES ≡ 2 }
    ensures most_triangles { MOST_TRIANGLES ≡ 2 ^ 20 }
    ensures greatest_height { GREATEST_HEIGHT ≡ 65535 }
    ensures greatest_error { GREATEST_ERROR ≡ 65535999 }
    ensures most_planes { MOST_PLANES ≡ 6 }
    ensures greatest_slope { GREATEST_SLOPE ≡ 2 ^ 20 }
    ensures greatest_offset { GREATEST_OFFSET ≡ 2 ^ 50 }
    ensures camera_reach { CAMERA_REACH ≡ 2 ^ 30 }
    ensures greatest_number { GREATEST_NUMBER ≡ 999999 }
    ensures longest_way { LONGEST_WAY ≡ 2 ^ 62 }
    ensures most_changes { MOST_CHANGES ≡ 2 ^ 62 }
    ensures changes_at_frame { CHANGES_AT_FRAME ≡ 2 ^ 61 }
{}
