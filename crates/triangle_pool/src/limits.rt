//! What the limit is that clauses cite by its name.

ghost use Rattle.std.specs.Prelude.{◌≡◌};
ghost use Rattle.triangle_pool.specs.declared.pool.TheConstants.{MOST_LEAVES};

/// What the limit is, as a number. It does nothing.
pub fn limit_laws()
    ensures most_leaves { MOST_LEAVES ≡ 1048576 }
{}
