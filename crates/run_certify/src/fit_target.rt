//! What a certificate is for, by the words.

ghost use Rattle.std.specs.Prelude.{◌≡◌, ◌*◌, ◌≤◌};
ghost use Rattle.mesh_defs.specs.declared.level.TheConstants.{GREATEST_LEVEL};
ghost use Rattle.certificate_laws.specs.Making.{IsPossible};
ghost use Rattle.run_words.specs.Words.{greatest_error};
ghost use Rattle.run_laws.specs.Fit.{target_of, tolerance_of};
ghost use Rattle.run_words.specs.FitView.{goal_seen, IsGoal};

use certificate_laws::Target;
use run_words::Goal;

/// The target of a certificate for what the words say.
pub(crate) fn target_in(goal: Goal, n: u32) -> Target
    requires goal { IsGoal goal }
    requires in_grid { n ≤ GREATEST_LEVEL }
    ensures value { result ≡ target_of n (goal_seen goal) }
    ensures possible { IsPossible result }
{
    match goal {
        Goal::AtError(thousandths) => Target::Error {
            tolerance: tolerance(thousandths, n),
        },
        Goal::InBudget(budget) => Target::Budget { triangles: budget },
    }
}

/// So many thousandths of a unit of height, in units of height, times 2^n, rounded down.
pub(crate) fn tolerance(thousandths: u32, n: u32) -> u32
    requires high { thousandths ≤ greatest_error }
    requires in_grid { n ≤ GREATEST_LEVEL }
    ensures { result ≡ tolerance_of n thousandths }
{
    let units = u64::from(thousandths) * u64::from(1u32 << n);
    (units / 1000) as u32
}
