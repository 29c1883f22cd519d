//! What the bytes mean that a reader takes.

ghost use Rattle.std.specs.Prelude.{◌≡◌};
ghost use Rattle.pgm_grid.specs.HeaderLaws.{HeaderTextsAreRead, ReadTextsAreHeaders, WrittenHeadersAreTexts, NoTextGoesOn};
ghost use Rattle.pgm_grid.specs.HeaderLaws.{PartsArePrefixes, HeadersRefuseBadMagics, HeadersRefuseBadBytes};
ghost use Rattle.pgm_grid.specs.HeaderLaws.{HeadersRefuseTooMuch, HeadersRefuseBadMaxvals, HeadersRefuseOblongs};
ghost use Rattle.pgm_grid.specs.HeaderLaws.{HeadersRefuseBadSides, ReadHeadersStand, RefusalsStand, PartsAreRefusable};
ghost use Rattle.pgm_grid.specs.declared.header_reader.TheConstants.{MOST_HEADER_BYTES, LAST_PLACE};
ghost use Rattle.pgm_grid.specs.declared.accepted_header.TheConstants.{GREATEST_MAXVAL};

/// States what `header_of` answers, in the words of the format. It does nothing.
pub fn header_laws()
    ensures texts { HeaderTextsAreRead }
    ensures read { ReadTextsAreHeaders }
    ensures written { WrittenHeadersAreTexts }
    ensures prefix_free { NoTextGoesOn }
    ensures part { PartsArePrefixes }
    ensures part_refusable { PartsAreRefusable }
    ensures bad_magic { HeadersRefuseBadMagics }
    ensures bad_header { HeadersRefuseBadBytes }
    ensures too_long { HeadersRefuseTooMuch }
    ensures bad_maxval { HeadersRefuseBadMaxvals }
    ensures not_square { HeadersRefuseOblongs }
    ensures bad_side { HeadersRefuseBadSides }
    ensures read_stands { ReadHeadersStand }
    ensures refusal_stands { RefusalsStand }
{}

/// What each limit is, as a number. It does nothing.
pub fn header_limit_laws()
    ensures most_header_bytes { MOST_HEADER_BYTES ≡ 65536 }
    ensures last_place { LAST_PLACE ≡ 65535 }
    ensures greatest_maxval { GREATEST_MAXVAL ≡ 65535 }
{}
