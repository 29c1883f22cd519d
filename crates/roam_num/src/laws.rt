//! What reading and writing have to do with one another.

ghost use Rattle.std.specs.Prelude.{◌≡◌};
ghost use Rattle.roam_num.specs.Laws.{NumbersAreReadBack, SignedNumbersAreReadBack, TextsHaveOneNumber};
ghost use Rattle.roam_num.specs.Laws.{NumbersHaveOwnTexts, FractionsAreExact};
ghost use Rattle.roam_num.specs.declared.writing.TheConstants.{LONGEST_TEXT};
ghost use Rattle.roam_num.specs.declared.places.TheConstants.{LONGEST_DECIMAL, MOST_PLACES};

/// States that what is written of a number is read as this number, that no text is a text of two
/// numbers, that no two numbers are written alike, and that an exact decimal is exact. It does nothing.
pub fn numbers_and_texts()
    ensures back { NumbersAreReadBack }
    ensures signed_back { SignedNumbersAreReadBack }
    ensures one_number { TextsHaveOneNumber }
    ensures own_texts { NumbersHaveOwnTexts }
    ensures exact { FractionsAreExact }
{}

/// What each limit is, as a number. It does nothing.
pub fn limit_laws()
    ensures longest_text { LONGEST_TEXT ≡ 20 }
    ensures longest_decimal { LONGEST_DECIMAL ≡ 40 }
    ensures most_places { MOST_PLACES ≡ 19 }
{}
