//! Laws of the definitions, as clauses of functions with empty bodies.

ghost use Rattle.run_laws.specs.Examples.{WrongFieldsStop, FirstLinesAreRefused, CountsAreBounded, SeventhPlaneStops};
ghost use Rattle.run_laws.specs.Examples.{BudgetsAreInForce, AreasAreRaised, WaysAreAddedUp, TurnsOfStrips};
ghost use Rattle.run_laws.specs.Examples.{MeshesAreMeasured};
ghost use Rattle.run_laws.specs.CertifyExamples.{CertificatesAreRead, CertificatesAreRefused, WordsOfCertify};
ghost use Rattle.run_laws.specs.CertifyExamples.{FitCertificatesAreRead, FitCertificatesAreRefused, WordsOfCertifyFit};
ghost use Rattle.run_laws.specs.CertifyExamples.{KeptCertificatesAreRead, KeptCertificatesAreRefused};
ghost use Rattle.run_laws.specs.CertifyExamples.{WordsOfCertifyKept};
ghost use Rattle.run_laws.specs.Laws.{WalksGoOn, PicturesGoOn, FramesExistFrom, RunsAreUnique, SetsStayClosed};
ghost use Rattle.run_laws.specs.Laws.{LevelsAreInRange, BudgetsAreTwo, OutcomesAreUnique, OutcomesExist};
ghost use Rattle.run_laws.specs.Laws.{AcceptedIsDone, EnginesAreUnique, PicturesAreCertified, HeadlineFollows};
ghost use Rattle.run_laws.specs.Laws.{CertifiedFollows, FitCertifiedFollows, KeptCertifiedFollows, TolerancesAreExact};
ghost use Rattle.run_laws.specs.Laws.{FitsAreBest, FittedFollows, KeptAreBest, KeptFollows, MadeIsAccepted};
ghost use Rattle.run_laws.specs.Laws.{FitMadeIsAccepted, KeptMadeIsAccepted, FitIsReadBack, KeptIsReadBack};
ghost use Rattle.run_laws.specs.Laws.{TurnsAreCounted};

use cert_text::{fit_text_laws, kept_text_laws, text_laws};
use mesh_laws as steps;
use mesh_laws::{frame_laws, member_laws};
use pgm_grid::grids_and_texts;
use plain_mesh::falling_laws;
use roam_script::{line_laws, point_laws};

/// A walk goes on after whole lines, and pictures from the last set.
pub fn walk_laws()
    ensures walks { WalksGoOn }
    ensures pictures { PicturesGoOn }
{}

/// From each closed set the steps of a frame lead to the frame of a state, whose set is closed again, and no line
/// sets a budget below 2: so each state of a script has a picture.
pub fn state_laws()
    ensures frames { FramesExistFrom 2 }
    ensures runs { RunsAreUnique }
    ensures sets { SetsStayClosed }
    ensures levels { LevelsAreInRange }
    ensures budgets { BudgetsAreTwo }
{
    steps::frame_run_laws();
    falling_laws();
    grids_and_texts();
    line_laws();
}

/// Words and files have an outcome, and one alone but where a certificate is made. What is accepted ends with `Done`; a
/// frame's line tells a certificate; the meshes of a script are best meshes; and a mesh that is certified is optimal.
pub fn run_laws()
    ensures one_outcome { OutcomesAreUnique }
    ensures one_engine { EnginesAreUnique }
    ensures some_outcome { OutcomesExist }
    ensures done { AcceptedIsDone }
    ensures certificate { PicturesAreCertified }
    ensures headline { HeadlineFollows }
    ensures certified { CertifiedFollows }
{
    state_laws();
    grids_and_texts();
    frame_laws();
    member_laws();
    falling_laws();
}

/// A mesh that is fitted is a best one for its error or its budget: the tolerance is exact, and what the definitions
/// of `fit_laws` say holds in the words of distances from the surface; so the mesh of a run of `fit` is one, if it is
/// finished, and so is one that `certify check-fit` certifies; and where it keeps points, it has the fewest triangles
/// of those that have these points as vertices.
pub fn fitting_laws()
    ensures tolerance { TolerancesAreExact }
    ensures best { FitsAreBest }
    ensures fitted { FittedFollows }
    ensures certified { FitCertifiedFollows }
    ensures certified_kept { KeptCertifiedFollows }
    ensures best_kept { KeptAreBest }
    ensures kept { KeptFollows }
{
    grids_and_texts();
    point_laws();
}

/// What `certify make` writes for a grid `certify check` accepts, with the mesh that it is of, and what
/// `certify make-fit` writes `certify check-fit`, with the mesh that `fit` writes, with points or without; and the text
/// of a certificate of a fitted mesh is read back as it.
pub fn certify_laws()
    ensures accepted { MadeIsAccepted }
    ensures fit_accepted { FitMadeIsAccepted }
    ensures kept_accepted { KeptMadeIsAccepted }
    ensures fit_read_back { FitIsReadBack }
    ensures kept_read_back { KeptIsReadBack }
{
    text_laws();
    fit_text_laws();
    kept_text_laws();
    point_laws();
}

/// How many turns a strip takes to either side is what the tests of turns count.
pub fn turn_count_laws()
    ensures counts { TurnsAreCounted }
{}

/// What small scripts come to, worked by hand.
pub fn script_examples()
    ensures wrong_fields { WrongFieldsStop }
    ensures refusals { FirstLinesAreRefused }
    ensures counts { CountsAreBounded }
    ensures planes { SeventhPlaneStops }
    ensures budgets { BudgetsAreInForce }
    ensures areas { AreasAreRaised }
    ensures ways { WaysAreAddedUp }
{}

/// What small texts of certificates are read as, and what some words are, worked by hand.
pub fn certify_examples()
    ensures read { CertificatesAreRead }
    ensures refused { CertificatesAreRefused }
    ensures words { WordsOfCertify }
    ensures fit_read { FitCertificatesAreRead }
    ensures fit_refused { FitCertificatesAreRefused }
    ensures fit_words { WordsOfCertifyFit }
    ensures kept_read { KeptCertificatesAreRead }
    ensures kept_refused { KeptCertificatesAreRefused }
    ensures kept_words { WordsOfCertifyKept }
{}

/// What small meshes are measured to be, worked by hand: the turns of strips, deviations and thicknesses.
pub fn measure_examples()
    ensures turns { TurnsOfStrips }
    ensures measured { MeshesAreMeasured }
{}
