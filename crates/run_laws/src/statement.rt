//! The law of what follows from what `roam` promises.

ghost use Rattle.run_laws.specs.StatementLaws.{OutcomeFollows, EngineFollows, RunFaultFollows, TextFaultFollows};
ghost use Rattle.run_laws.specs.StatementLaws.{CompleteFollows, FaultsFollow};

use crate::cut_short::cut_short_laws;
use crate::laws::run_laws;

/// What `roam` promises by the status, in other words: the run ends as an outcome unless memory ran out or a read
/// failed; every outcome tells the engine that is left; where a write failed, what stands frame by frame; and what is
/// accepted is done where nothing outside failed.
pub fn statement_laws()
    ensures outcome { OutcomeFollows }
    ensures engine_end { EngineFollows }
    ensures write_fault { RunFaultFollows }
    ensures text_fault { TextFaultFollows }
    ensures complete { CompleteFollows }
    ensures faults { FaultsFollow }
{
    run_laws();
    cut_short_laws();
}
