//! What the limit is that clauses cite by its name.

ghost use Rattle.std.specs.Prelude.{◌≡◌};
ghost use Rattle.run_files.specs.declared.text.TheConstants.{TEXT_ROOM};

/// What the limit is, as a number. It does nothing.
pub fn limit_laws()
    ensures text_room { TEXT_ROOM ≡ 640 }
{}
