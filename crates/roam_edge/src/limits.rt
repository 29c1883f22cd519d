//! What each limit is that a clause cites by its name.

ghost use Rattle.std.specs.Prelude.{◌≡◌};
ghost use Rattle.roam_edge.specs.declared.mesh_sink.TheConstants.{LONGEST_PREFIX, GREATEST_NUMBER};

/// What each limit is, as a number. It does nothing.
pub fn limit_laws()
    ensures longest_prefix { LONGEST_PREFIX ≡ 200 }
    ensures greatest_number { GREATEST_NUMBER ≡ 999999 }
{}
