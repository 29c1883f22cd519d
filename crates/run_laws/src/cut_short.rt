//! The law of what stands where a write failed.

ghost use Rattle.run_laws.specs.CutShort.{CutRunsStand, CutTextsStand, WriteFaultsStand, SinksDecide};

use pgm_grid::grids_and_texts;

/// Where the acts of a run are cut short, a prefix of them stands: of frames one of four cases, of
/// one text a prefix of it. Which sink failed decides whether it was a mesh or a line.
pub fn cut_short_laws()
    ensures runs { CutRunsStand }
    ensures texts { CutTextsStand }
    ensures write_faults { WriteFaultsStand }
    ensures sinks { SinksDecide }
{
    grids_and_texts();
}
