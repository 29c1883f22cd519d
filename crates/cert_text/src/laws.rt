//! What writing and reading certificates have to do with one another.

ghost use Rattle.std.specs.Prelude.{◌≡◌};
ghost use Rattle.cert_text.specs.Laws.{WrittenLinesAreRead, WrittenLinesAreEnded, WrittenLinesAreLines};
ghost use Rattle.cert_text.specs.Laws.{LinesAreCounted};
ghost use Rattle.cert_text.specs.FitLaws.{WrittenFitLinesAreRead, WrittenFitLinesAreEnded, WrittenFitLinesAreLines};
ghost use Rattle.cert_text.specs.FitLaws.{FitLinesAreCounted};
ghost use Rattle.cert_text.specs.KeptLaws.{WrittenKeptLinesAreRead, WrittenKeptLinesAreEnded};
ghost use Rattle.cert_text.specs.KeptLaws.{WrittenKeptLinesAreLines, KeptLinesAreCounted};
ghost use Rattle.cert_text.specs.declared.limits.TheConstants.{MOST_LEAVES, MOST_REASONS};

/// States that the lines of a certificate are read back as the certificate, and that its text is these lines, each
/// with an LF behind it and none within; and that each line that is read says one thing more. It does nothing.
pub fn text_laws()
    ensures back { WrittenLinesAreRead }
    ensures ended { WrittenLinesAreEnded }
    ensures lines { WrittenLinesAreLines }
    ensures counted { LinesAreCounted }
{}

/// The same of certificates of fitted meshes. It does nothing.
pub fn fit_text_laws()
    ensures back { WrittenFitLinesAreRead }
    ensures ended { WrittenFitLinesAreEnded }
    ensures lines { WrittenFitLinesAreLines }
    ensures counted { FitLinesAreCounted }
{}

/// The same of those with points. It does nothing.
pub fn kept_text_laws()
    ensures back { WrittenKeptLinesAreRead }
    ensures ended { WrittenKeptLinesAreEnded }
    ensures lines { WrittenKeptLinesAreLines }
    ensures counted { KeptLinesAreCounted }
{}

/// What each limit is, as a number. It does nothing.
pub fn limit_laws()
    ensures most_leaves { MOST_LEAVES ≡ 1048576 }
    ensures most_reasons { MOST_REASONS ≡ 1100000 }
{}
