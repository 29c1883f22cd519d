//! What the limit is that clauses cite by its name.

ghost use Rattle.std.specs.Prelude.{◌≡◌};
ghost use Rattle.obj_write.specs.declared.lines.TheConstants.{LONGEST_PIECE};

/// What the limit is, as a number. It does nothing.
pub fn limit_laws()
    ensures longest_piece { LONGEST_PIECE ≡ 75 }
{}
