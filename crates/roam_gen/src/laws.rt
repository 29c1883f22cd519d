//! What holds of generated grids and scripts, in the words of the crates that read them.

ghost use Rattle.roam_gen.specs.Laws.{MadeGridsAreGrids, WrittenGridsAreTexts, WrittenGridsAreReadBack};
ghost use Rattle.roam_gen.specs.Laws.{MadeLinesLieInRange};

use pgm_grid::{grids_and_texts, header_laws};

/// States that a generated grid is one, that what is written of it is read back as it, and that each
/// generated line lies in its ranges. It does nothing.
pub fn generator_laws()
    ensures valid { MadeGridsAreGrids }
    ensures grid_text { WrittenGridsAreTexts }
    ensures read_back { WrittenGridsAreReadBack }
    ensures ranges { MadeLinesLieInRange }
{
    header_laws();
    grids_and_texts();
}
