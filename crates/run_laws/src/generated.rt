//! The law of generated runs over the lower levels.

ghost use Rattle.run_laws.specs.GeneratedLaws.{LowLevelsAreUnblocked};

use crate::laws::run_laws;

/// Up to level 6 all finest triangles fit the budget of a generated run, so that nothing blocks, whatever the seed.
pub fn generated_laws()
    ensures unblocked { LowLevelsAreUnblocked }
{
    run_laws();
}
