//! What the whole bytes of a file mean.

ghost use Rattle.std.specs.Prelude.{◌≡◌};
ghost use Rattle.pgm_grid.specs.Laws.{TextsAreRead, GridsHaveTexts, GridsHaveHeaders, BadMagicsAreRefused};
ghost use Rattle.pgm_grid.specs.Laws.{BadHeadersAreRefused, LongHeadersAreRefused, BadMaxvalsAreRefused};
ghost use Rattle.pgm_grid.specs.Laws.{OblongsAreRefused, BadSidesAreRefused, CutTextsAreRefused};
ghost use Rattle.pgm_grid.specs.Laws.{TrailingBytesAreRefused, GreatSamplesAreRefused, BadSamplesAreRefused};
ghost use Rattle.pgm_grid.specs.Laws.{LongFilesAreRefused, OthersAreAbsent};
ghost use Rattle.pgm_grid.specs.declared.grid.TheConstants.{MOST_SIDE, MOST_POINTS};

use crate::header_texts::header_laws;
use crate::raster_texts::raster_laws;

/// States what `grid_of` answers for the whole bytes of a file, in the words of the format. It does nothing.
pub fn grids_and_texts()
    ensures texts { TextsAreRead }
    ensures grids { GridsHaveTexts }
    ensures headers { GridsHaveHeaders }
    ensures bad_magic { BadMagicsAreRefused }
    ensures bad_header { BadHeadersAreRefused }
    ensures header_too_long { LongHeadersAreRefused }
    ensures bad_maxval { BadMaxvalsAreRefused }
    ensures not_square { OblongsAreRefused }
    ensures bad_side { BadSidesAreRefused }
    ensures truncated { CutTextsAreRefused }
    ensures trailing { TrailingBytesAreRefused }
    ensures above_maxval { GreatSamplesAreRefused }
    ensures bad_sample { BadSamplesAreRefused }
    ensures too_long { LongFilesAreRefused }
    ensures others { OthersAreAbsent }
{
    header_laws();
    raster_laws();
}

/// What each limit is, as a number. It does nothing.
pub fn limit_laws()
    ensures most_side { MOST_SIDE ≡ 16385 }
    ensures most_points { MOST_POINTS ≡ 268468225 }
{}
