//! A command, and the reader of its words.

ghost use Rattle.std.specs.Prelude.{◌≡◌, ◌<◌, ◌≤◌, ◌+◌, ◌↔◌, ℕ, List, [], ◌∷◌, ◌++◌, Some, None, length, map, take};
ghost use Rattle.std.specs.Prelude.{IfOk, IfErr, IsTrue, string_bytes};
ghost use Rattle.run_words.specs.Words.{made_of, command_of, BeginsCommand, BeginsNoCommand, may_stand};
ghost use Rattle.run_words.specs.Words.{frames_job, fit_job, make_fit_job, check_fit_job, OnGrid};
ghost use Rattle.run_words.specs.Words.{least_budget, greatest_budget};
ghost use Rattle.run_words.specs.FoundView.{found_seen, IsFound};
ghost use Rattle.run_words.specs.WordView.{show_for, IsMeshing, command_seen, IsCommandInBounds};

use crate::certify_words::{CheckWords, FitCheckWords, FitMakeWords, MakeWords};
use crate::first_wrong::{WordFault, first_of, needed_of};
use crate::fit_words::{FitWords, KeepWords};
use crate::found::{Found, GREATEST_BUDGET, stage_behind};
use crate::kept_words::{KeptCheckWords, KeptMakeWords};
use crate::showing::{Meshing, Showing};
use crate::table::{Kind, Stage, Wanted};
use view_priority::Camera;

/// A command.
#[derive(Clone, Copy)]
pub enum Command<'a> {
    /// The frames of a script: `mesh GRID SCRIPT PREFIX BUDGET SPACING`, `strip GRID SCRIPT PREFIX BUDGET SPACING` and
    /// `least GRID SCRIPT PREFIX TOLERANCE SPACING`, a mesh for each; `measure GRID SCRIPT BUDGET SPACING`, a line
    /// for each.
    Frames(FrameWords<'a>),
    /// `info GRID`: a line on the grid.
    Info(&'a str),
    /// `try N SEED`: the sums of a generated run.
    Try { n: u32, seed: u32 },
    /// `certify make GRID X Y Z BUDGET SPACING`: a certificate of the best mesh.
    Make(MakeWords<'a>),
    /// `certify check GRID OBJ CERT BUDGET SPACING`: whether a certificate is sound, and a mesh the one that it is of.
    Check(CheckWords<'a>),
    /// `fit GRID PREFIX error E SPACING` and `fit GRID PREFIX budget BUDGET SPACING`: the best mesh for an error or a
    /// budget.
    Fit(FitWords<'a>),
    /// `fit GRID PREFIX error E SPACING keep POINTS`: the best mesh for an error that has the points as vertices.
    Keep(KeepWords<'a>),
    /// `certify make-fit GRID error E SPACING` and `certify make-fit GRID budget BUDGET SPACING`: a certificate of a
    /// fitted mesh.
    MakeFit(FitMakeWords<'a>),
    /// `certify check-fit GRID OBJ CERT error E SPACING` and `certify check-fit GRID OBJ CERT budget BUDGET SPACING`:
    /// whether such a certificate is sound, and a mesh the one that it is of.
    CheckFit(FitCheckWords<'a>),
    /// `certify make-fit GRID error E SPACING keep POINTS`: a certificate of a fitted mesh that keeps points.
    MakeKept(KeptMakeWords<'a>),
    /// `certify check-fit GRID OBJ CERT error E SPACING keep POINTS`: whether such a certificate is sound, and a mesh
    /// the one that it is of.
    CheckKept(KeptCheckWords<'a>),
}

/// The words of a command that makes the frames of a script.
#[derive(Clone, Copy)]
pub struct FrameWords<'a> {
    /// The name of the grid's file.
    pub grid: &'a str,
    /// The name of the script's file.
    pub script: &'a str,
    /// Which meshes the frames have, and how they are shown.
    pub meshing: Meshing<'a>,
    /// The greatest budget that the script may put in force.
    pub budget: u32,
    /// The world units of a grid step.
    pub spacing: u32,
}

/// The command that the words are; of other words the first one that is wrong.
///
/// Cost (not proved): a few steps a byte of the words. Takes no memory.
pub fn command_in(words: &[String]) -> Result<Command<'_>, WordFault<'_>>
    ensures value { IfOk result (λ c. command_of (map string_bytes words.now) ≡ Some (command_seen c)) }
    ensures accepted { IfOk result IsCommandInBounds }
    ensures none { IfErr result (λ f. command_of (map string_bytes words.now) ≡ None) }
    ensures place { IfErr result (λ f. f.place ≤ length words.now) }
    // The words before it begin a command,
    ensures first { IfErr result (λ f. BeginsCommand (take f.place (map string_bytes words.now))) }
    // and with it they begin none, whatever stands behind it.
    ensures wrong { IfErr result (λ f. f.place < length words.now →
        BeginsNoCommand (take (f.place + 1) (map string_bytes words.now))) }
    // What is wanted in its place is what goes on to a command.
    ensures wanted { IfErr result (λ f. (word : List ℕ) →
        BeginsCommand (take f.place (map string_bytes words.now) ++ word ∷ [])
        ↔ IsTrue (may_stand f.wanted word)) }
    ensures words { IfErr result (λ f. f.words.now ≡ words.now) }
{
    let mut found = Found::nothing();
    let mut stage: Stage = &[Wanted::Command];
    for (place, word) in words.iter().enumerate() {
        match stage_behind(stage, word.as_str(), &mut found) {
            Some(behind) => stage = behind,
            None => {
                return Err(WordFault {
                    place,
                    wanted: first_of(stage),
                    words,
                });
            }
        }
    }
    match needed_of(stage) {
        None => Ok(made(&found)),
        Some(wanted) => Err(WordFault {
            place: words.len(),
            wanted: Some(wanted),
            words,
        }),
    }
}

/// The command that is found in some words.
fn made<'a>(found: &Found<'a>) -> Command<'a>
    requires found { IsFound found.now }
    ensures value { command_seen result ≡ made_of found.now.kind (found_seen found.now) }
    ensures accepted { IsCommandInBounds result }
{
    match found.kind {
        Kind::Mesh => frames(
            found,
            Meshing::ByEngine(Showing::Meshes(found.prefix)),
            found.budget,
        ),
        Kind::Strip => frames(
            found,
            Meshing::ByEngine(Showing::Strips(found.prefix)),
            found.budget,
        ),
        Kind::Least => frames(
            found,
            Meshing::ByTolerance {
                prefix: found.prefix,
                tolerance: found.tolerance,
            },
            GREATEST_BUDGET,
        ),
        Kind::Measure => frames(found, Meshing::ByEngine(Showing::Measures), found.budget),
        Kind::Make => Command::Make(MakeWords {
            grid: found.grid,
            camera: camera(found),
            budget: found.budget,
            spacing: found.spacing,
        }),
        Kind::Check => Command::Check(CheckWords {
            grid: found.grid,
            mesh: found.mesh,
            certificate: found.certificate,
            budget: found.budget,
            spacing: found.spacing,
        }),
        Kind::MakeFit => make_fit(found),
        Kind::CheckFit => check_fit(found),
        Kind::Fit => fit(found),
        Kind::Info => Command::Info(found.grid),
        Kind::Try => Command::Try {
            n: found.level,
            seed: found.seed,
        },
    }
}

/// The frames of a script within a budget, shown so.
fn frames<'a>(found: &Found<'a>, meshing: Meshing<'a>, budget: u32) -> Command<'a>
    requires found { IsFound found.now }
    requires shown { IsMeshing meshing }
    requires budget { (least_budget ≤ budget) × (budget ≤ greatest_budget) }
    ensures value { command_seen result ≡
        OnGrid found.now.grid.now (frames_job (found_seen found.now) budget (show_for meshing.entry)) }
    ensures accepted { IsCommandInBounds result }
{
    Command::Frames(FrameWords {
        grid: found.grid,
        script: found.script,
        meshing,
        budget,
        spacing: found.spacing,
    })
}

/// Where a mesh is seen from.
fn camera(found: &Found<'_>) -> Camera
    requires found { IsFound found.now }
    ensures { result ≡ (found_seen found.now).camera }
{
    Camera::new(found.x, found.y, found.z).unwrap()
}

/// A mesh is fitted; where points are kept, they are read too.
fn fit<'a>(found: &Found<'a>) -> Command<'a>
    requires found { IsFound found.now }
    ensures value { command_seen result ≡
        OnGrid found.now.grid.now (fit_job (found_seen found.now) (found_seen found.now).points) }
    ensures accepted { IsCommandInBounds result }
{
    match found.points {
        Some(points) => Command::Keep(KeepWords {
            grid: found.grid,
            prefix: found.prefix,
            thousandths: found.thousandths,
            spacing: found.spacing,
            points,
        }),
        None => Command::Fit(FitWords {
            grid: found.grid,
            prefix: found.prefix,
            goal: found.goal,
            spacing: found.spacing,
        }),
    }
}

/// A certificate of a fitted mesh is made; where points are kept, they are read too.
fn make_fit<'a>(found: &Found<'a>) -> Command<'a>
    requires found { IsFound found.now }
    ensures value { command_seen result ≡
        OnGrid found.now.grid.now (make_fit_job (found_seen found.now) (found_seen found.now).points) }
    ensures accepted { IsCommandInBounds result }
{
    match found.points {
        Some(points) => Command::MakeKept(KeptMakeWords {
            grid: found.grid,
            thousandths: found.thousandths,
            spacing: found.spacing,
            points,
        }),
        None => Command::MakeFit(FitMakeWords {
            grid: found.grid,
            goal: found.goal,
            spacing: found.spacing,
        }),
    }
}

/// A fitted mesh is checked by a certificate; where points are kept, they are read too.
fn check_fit<'a>(found: &Found<'a>) -> Command<'a>
    requires found { IsFound found.now }
    ensures value { command_seen result ≡
        OnGrid found.now.grid.now (check_fit_job (found_seen found.now) (found_seen found.now).points) }
    ensures accepted { IsCommandInBounds result }
{
    match found.points {
        Some(points) => Command::CheckKept(KeptCheckWords {
            grid: found.grid,
            mesh: found.mesh,
            certificate: found.certificate,
            thousandths: found.thousandths,
            spacing: found.spacing,
            points,
        }),
        None => Command::CheckFit(FitCheckWords {
            grid: found.grid,
            mesh: found.mesh,
            certificate: found.certificate,
            goal: found.goal,
            spacing: found.spacing,
        }),
    }
}
