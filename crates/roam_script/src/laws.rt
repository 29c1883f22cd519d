//! What the lines of a script are, in the words of the format.

ghost use Rattle.std.specs.Prelude.{◌≡◌, ◌^◌, pos};
ghost use Rattle.roam_script.specs.Laws.{LateLinesAreTooMany, LongLinesAreTooLong, LongLinesAreSettled};
ghost use Rattle.roam_script.specs.Laws.{BlankLinesSayNothing, OtherWordsAreUnknown, OtherCountsAreWrong};
ghost use Rattle.roam_script.specs.Laws.{BadNumbersAreRefused, OutsideNumbersAreRefused, SeventhPlanesAreTooMany};
ghost use Rattle.roam_script.specs.Laws.{LateFramesAreTooMany, SoundLinesAreAccepted, AcceptedLinesLieInRange};
ghost use Rattle.roam_script.specs.Laws.{CommandsAreWords};
ghost use Rattle.roam_script.specs.declared.limits.TheConstants.{MOST_LINES, MOST_LINE_BYTES, MOST_FRAMES, MOST_PLANES};
ghost use Rattle.roam_script.specs.declared.limits.TheConstants.{CAMERA_REACH, GREATEST_SLOPE, GREATEST_OFFSET};
ghost use Rattle.roam_script.specs.declared.limits.TheConstants.{LEAST_BUDGET, GREATEST_RAISE};
ghost use Rattle.roam_script.specs.PointText.{PointsAreInGrid, LatePointsAreTooMany, LongPointsAreTooLong};

/// States what `line_in` answers: where each refusal comes, and which lines are accepted; and which fields are
/// commands. It does nothing.
pub fn line_laws()
    ensures too_many_lines { LateLinesAreTooMany }
    ensures line_too_long { LongLinesAreTooLong }
    ensures settled { LongLinesAreSettled }
    ensures blank { BlankLinesSayNothing }
    ensures unknown_command { OtherWordsAreUnknown }
    ensures wrong_fields { OtherCountsAreWrong }
    ensures bad_number { BadNumbersAreRefused }
    ensures out_of_range { OutsideNumbersAreRefused }
    ensures too_many_planes { SeventhPlanesAreTooMany }
    ensures too_many_frames { LateFramesAreTooMany }
    ensures accepted { SoundLinesAreAccepted }
    ensures ranges { AcceptedLinesLieInRange }
    ensures commands { CommandsAreWords }
{}

/// What each limit is, as a number. It does nothing.
pub fn limit_laws()
    ensures most_lines { MOST_LINES ≡ 10000000 }
    ensures most_line_bytes { MOST_LINE_BYTES ≡ 200 }
    ensures most_frames { MOST_FRAMES ≡ 999999 }
    ensures most_planes { MOST_PLANES ≡ 6 }
    ensures camera_reach { CAMERA_REACH ≡ pos (2 ^ 30) }
    ensures greatest_slope { GREATEST_SLOPE ≡ pos (2 ^ 20) }
    ensures greatest_offset { GREATEST_OFFSET ≡ pos (2 ^ 50) }
    ensures least_budget { LEAST_BUDGET ≡ 2 }
    ensures greatest_raise { GREATEST_RAISE ≡ pos 65535 }
{}

/// States of `point_in` where a line of a file of points is one too many or too long, and that each point is one of the
/// grid. It does nothing.
pub fn point_laws()
    ensures in_grid { PointsAreInGrid }
    ensures too_many_lines { LatePointsAreTooMany }
    ensures line_too_long { LongPointsAreTooLong }
{}
