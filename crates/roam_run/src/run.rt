//! The top call: a run from words to meshes and a report.

ghost use Rattle.std.specs.Prelude.{◌≡◌, ◌≢◌, ◌-◌, ◌^◌, ◌<◌, ◌≤◌, ◌⊎◌, ◌↔◌, List, Option, map, option_map, Some, None};
ghost use Rattle.std.specs.Prelude.{IsTrue, IsSome, false, if◌then◌else◌, string_bytes};
ghost use Rattle.mesh_defs.specs.declared.level.TheConstants.{GREATEST_FILE_LEVEL};
ghost use Rattle.roam_edge.specs.Shelf.{NamedFile};
ghost use Rattle.run_words.specs.Words.{OnGrid, Generated, Frames, command_of};
ghost use Rattle.run_words.specs.Jobs.{MakesNoCertificate};
ghost use Rattle.run_laws.specs.Outcome.{Outcome, EngineEnd, IsOutcome};
ghost use Rattle.run_laws.specs.Promise.{IsAccepted, ends_script};
ghost use Rattle.run_laws.specs.Moment.{moment};
ghost use Rattle.run_laws.specs.Statement.{KeepsBestMeshes, CertifiesMesh, TellsCertificates, EndsByStatus};
ghost use Rattle.run_laws.specs.Statement.{LeavesOutside, IsCaused};
ghost use Rattle.run_laws.specs.Leaving.{RunsCommand};
ghost use Rattle.run_engine.specs.EngineSeen.{engine_seen};
ghost use Rattle.run_words.specs.WordView.{show_for, scripted_seen, command_seen, IsFrameCommand};
ghost use Rattle.run_words.specs.WordView.{IsCommandInBounds};
ghost use Rattle.run_words.specs.ShowView.{show_seen, IsShowing};

use frame_loop::Engine;
use roam_edge::{MeshSink, Shelf, Sink};
use run_certify::{run_check, run_fit_check, run_fit_make, run_kept_check, run_kept_make};
use run_engine::{EngineFrames, run_make, sums_of, try_report};
use run_files::{Lent, Outside, end_with_text, grid_or_end, run_info};
use run_laws::{Status, fitting_laws, run_laws, state_laws};
use run_meshes::{run_fit, run_keep, run_least, run_script};
use run_words::{Command, FrameWords, Meshing, Showing, command_in};
use std::alloc::Global;

/// What a run answers.
#[derive(Drop)]
pub struct Run {
    /// How the run ended.
    pub status: Status,
    /// Of `mesh`, `strip`, `measure` and `try`, if they end `Done` or `ScriptRefused`: the engine, as the last line
    /// that was carried out left it. Else none.
    pub engine: Option<Engine>,
}

impl Run {
    /// A run that leaves no engine.
    fn without_engine(status: Status) -> Run
        ensures status { result.status ≡ status }
        ensures engine { result.engine ≡ None }
    {
        Run {
            status,
            engine: None,
        }
    }

    /// How the run ended; what it leaves beside is dropped.
    pub fn into_status(self) -> Status
        ensures { result ≡ self.status }
    {
        self.status
    }

    /// A run of a script, whose frames this engine made.
    fn of_script(status: Status, engine: Engine) -> Run
        ensures status { result.status ≡ status }
        ensures engine { result.engine ≡ (if ends_script status then Some engine else None) }
        ensures left { IsSome result.engine ↔ IsTrue (ends_script status) }
    {
        match status {
            Status::Done | Status::ScriptRefused => Run {
                status,
                engine: Some(engine),
            },
            _ => Run::without_engine(status),
        }
    }
}

/// Carries out the words of a command line, those after the program's name.
///
/// - `mesh` reads a grid and a script from the shelf, where files are opened by their names. For each `frame` line of
///   the script it writes the best mesh within the budget, and then a line of the report; `strip` does so with the
///   triangles in the order of their strip; `least` with the least mesh of a tolerance; `measure` writes a line alone,
///   on how far the best mesh is from the surface.
/// - `fit` reads a grid, and writes its fitted mesh for an error or a budget, and a line; with `keep` it reads points
///   behind the grid, and the mesh has them as vertices.
/// - `certify make` and `certify make-fit` read a grid, and write a certificate of its best mesh, or of its fitted one;
///   `certify check` and `certify check-fit` read one beside a mesh, and write whether the mesh is certified by it. With
///   `keep` those of fitted meshes read points behind the grid, and are of the mesh that has them as vertices.
/// - `info` reads a grid, and writes a line on it. `try` reads nothing: it makes a grid and a script from a level and
///   a seed, and writes a line with the sums of their frames.
///
/// Files are read and meshes written in pieces. A mesh is finished before its line is written; no order of the
/// two sinks is told, so `ends` shows it where the write of either fails. The first call that fails ends the run.
/// Proved of this: each of shelf, meshes and report that had not failed before the run is not called again once a call
/// of it has failed (`leaves`); and where contents are told, nothing is written after a write that failed (`ends`).
/// A run that ends NoMemory has opened no script, and no points that a mesh is fitted to (`ends`), since all memory is
/// taken before.
///
/// A shelf and sinks in memory tell what they hold, in ghost values, and the clauses speak of their bytes. Real files
/// tell no contents. Over them `causes`, `untouched` and `leaves` hold, and what speaks of outcomes alone; of a command
/// that reads files, `best` and `certified` say nothing, and `ends` how often a file was opened. The rest is an
/// argument, and no clause: one body is proved for every shelf and sink, and a body cannot look at ghosts; so it does
/// over real files what it does where contents are told, as long as these answer as such a shelf and such sinks may,
/// and no mesh is written over a file that is still read.
///
/// Cost (not proved): a few steps a byte of the files; for each frame that of `Engine::frame`, which goes by what has
/// changed since the frame before, or of `Least::frame`, two passes over the grid; for each mesh its writing.
pub fn roam<F: Shelf, M: MeshSink, R: Sink>(
    alloc: Global,
    words: &[String],
    shelf: &mut F,
    meshes: &mut M,
    report: &mut R,
) -> Run
    requires idle { M.under_way meshes.old ≡ false }
    requires shelf_faults { F.faults shelf.old < 2 ^ 64 - 1 }
    requires mesh_faults { M.faults meshes.old < 2 ^ 64 - 1 }
    requires report_faults { R.faults report.old < 2 ^ 64 - 1 }
    requires opens { F.opens shelf.old ≤ 2 ^ 63 }

    // (Before the run no mesh is begun and not finished. Counts stand still at 2 ^ 64 - 1, so a rise could not be seen
    // there. In each clause the first moment is before the run, the second one after it; `words.now` are the words,
    // which do not change; and F.Shelf is what F tells as a Shelf.)
    //
    // The meshes, where shelf and sink tell them: each one that is finished is the right one for its command, whatever
    // the status. One that is checked and certified, whoever made it, is optimal (`certify check`), or has the fewest
    // triangles for its error, with `keep` of those that have the points as vertices, or the least error for its budget
    // (`certify check-fit`).
    ensures best { KeepsBestMeshes (moment F.Shelf M.MeshSink R.Sink shelf.old meshes.old report.old)
        (moment F.Shelf M.MeshSink R.Sink shelf.new meshes.new report.new)
        (map string_bytes words.now) result.status }
    ensures certified { CertifiesMesh (moment F.Shelf M.MeshSink R.Sink shelf.old meshes.old report.old)
        (moment F.Shelf M.MeshSink R.Sink shelf.new meshes.new report.new)
        (map string_bytes words.now) result.status }

    // What stands after each status, and how shelf, sinks and engine are left.
    ensures ends { EndsByStatus (moment F.Shelf M.MeshSink R.Sink shelf.old meshes.old report.old)
        (moment F.Shelf M.MeshSink R.Sink shelf.new meshes.new report.new)
        (command_of (map string_bytes words.now)) result.status (option_map engine_seen result.engine) }
    ensures leaves { LeavesOutside (moment F.Shelf M.MeshSink R.Sink shelf.old meshes.old report.old)
        (moment F.Shelf M.MeshSink R.Sink shelf.new meshes.new report.new)
        (command_of (map string_bytes words.now)) result.status (option_map engine_seen result.engine) }

    // What words and files determine. An outcome is what they say of a run: its acts, its status, how often it opens a
    // file, and the engine that it leaves. `ends` compares the run with one, and the next clauses speak of outcomes
    // alone. For any files there is one; there is no other, unless a certificate is made, of which several are right;
    // where all that is read is accepted its status is Done; and in each frame that its engine makes, the triangle that
    // blocks, if one does, proves the mesh optimal.
    ensures some_outcome { (files : List NamedFile) →
        (end : Outcome) × IsOutcome (command_of (map string_bytes words.now)) files end }
    ensures one_outcome { (files : List NamedFile) (end other : Outcome) →
        MakesNoCertificate (command_of (map string_bytes words.now)) →
        IsOutcome (command_of (map string_bytes words.now)) files end →
        IsOutcome (command_of (map string_bytes words.now)) files other → end ≡ other }
    ensures accepted { (files : List NamedFile) (end : Outcome) →
        IsAccepted (command_of (map string_bytes words.now)) files →
        IsOutcome (command_of (map string_bytes words.now)) files end → end.status ≡ Status.Done }
    ensures certificate { TellsCertificates (map string_bytes words.now) }

    // The causes of Usage, ReadFault and WriteFault, which statuses the command may have, and that Usage touches
    // nothing.
    ensures causes { IsCaused (moment F.Shelf M.MeshSink R.Sink shelf.old meshes.old report.old)
        (moment F.Shelf M.MeshSink R.Sink shelf.new meshes.new report.new)
        (command_of (map string_bytes words.now)) result.status }
    ensures untouched { result.status ≡ Status.Usage →
        (shelf.new ≡ shelf.old) × (meshes.new ≡ meshes.old) × (report.new ≡ report.old) }
{
    run_laws();
    fitting_laws();
    let mut outside = Lent {
        shelf,
        meshes,
        report,
    };
    run_of_words(alloc, words, &mut outside)
}

/// Carries out the words of a command line by `roam`, and answers how that ended; what the run leaves beside is
/// dropped.
///
/// For a program, which keeps no engine. Its clauses are those of `roam` on the meshes and the certificate, on the
/// status, on what stands after it and on its causes. So a program is proved over these lines, and not over all the
/// words of that contract.
pub fn status_of<F: Shelf, M: MeshSink, R: Sink>(
    alloc: Global,
    words: &[String],
    shelf: &mut F,
    meshes: &mut M,
    report: &mut R,
) -> Status
    requires idle { M.under_way meshes.old ≡ false }
    requires shelf_faults { F.faults shelf.old < 2 ^ 64 - 1 }
    requires mesh_faults { M.faults meshes.old < 2 ^ 64 - 1 }
    requires report_faults { R.faults report.old < 2 ^ 64 - 1 }
    requires opens { F.opens shelf.old ≤ 2 ^ 63 }
    ensures best { KeepsBestMeshes (moment F.Shelf M.MeshSink R.Sink shelf.old meshes.old report.old)
        (moment F.Shelf M.MeshSink R.Sink shelf.new meshes.new report.new)
        (map string_bytes words.now) result }
    ensures certified { CertifiesMesh (moment F.Shelf M.MeshSink R.Sink shelf.old meshes.old report.old)
        (moment F.Shelf M.MeshSink R.Sink shelf.new meshes.new report.new)
        (map string_bytes words.now) result }
    ensures ends { (left : Option EngineEnd) ×
        EndsByStatus (moment F.Shelf M.MeshSink R.Sink shelf.old meshes.old report.old)
        (moment F.Shelf M.MeshSink R.Sink shelf.new meshes.new report.new)
        (command_of (map string_bytes words.now)) result left }
    ensures usage { (result ≡ Status.Usage) ↔ (command_of (map string_bytes words.now) ≡ None) }
    ensures read_cause { (result ≡ Status.ReadFault) ↔ (F.faults shelf.old < F.faults shelf.new) }
    ensures write_cause { (result ≡ Status.WriteFault) ↔
        ((M.faults meshes.old < M.faults meshes.new) ⊎ (R.faults report.old < R.faults report.new)) }
    ensures files { F.files shelf.new ≡ F.files shelf.old }
    ensures idle { result ≢ Status.WriteFault → M.under_way meshes.new ≡ false }
{
    roam(alloc, words, shelf, meshes, report).into_status()
}

/// Carries out the words of a command line over an outside.
fn run_of_words<O: Outside>(alloc: Global, words: &[String], outside: &mut O) -> Run
    requires idle { (O.moment outside.old).under_way ≡ false }
    requires opens { (O.moment outside.old).shelf.opens ≤ 2 ^ 63 }
    ensures same { O.is_same outside.old outside.new }
    ensures runs { RunsCommand (O.moment outside.old) (O.moment outside.new) (command_of (map string_bytes words.now))
        result.status (option_map engine_seen result.engine) }
    ensures untouched { result.status ≡ Status.Usage → outside.new ≡ outside.old }
{
    match command_in(words) {
        Err(_) => Run {
            status: Status::Usage,
            engine: None,
        },
        Ok(command) => run_command(alloc, &command, outside),
    }
}

/// Carries out a command.
fn run_command<O: Outside>(alloc: Global, command: &Command<'_>, outside: &mut O) -> Run
    requires idle { (O.moment outside.old).under_way ≡ false }
    requires accepted { IsCommandInBounds command.now }
    requires opens { (O.moment outside.old).shelf.opens ≤ 2 ^ 63 }
    ensures same { O.is_same outside.old outside.new }
    ensures runs { RunsCommand (O.moment outside.old) (O.moment outside.new) (Some (command_seen command.now))
        result.status (option_map engine_seen result.engine) }
{
    match command {
        Command::Frames(words) => run_frames(alloc, words, outside),
        Command::Info(grid) => Run::without_engine(run_info(alloc, grid, outside)),
        Command::Try { n, seed } => run_try(alloc, *n, *seed, outside),
        Command::Make(words) => Run::without_engine(run_make(alloc, words, outside)),
        Command::Check(words) => Run::without_engine(run_check(alloc, words, outside)),
        Command::Fit(words) => Run::without_engine(run_fit(alloc, words, outside)),
        Command::Keep(words) => Run::without_engine(run_keep(alloc, words, outside)),
        Command::MakeFit(words) => Run::without_engine(run_fit_make(alloc, words, outside)),
        Command::CheckFit(words) => Run::without_engine(run_fit_check(alloc, words, outside)),
        Command::MakeKept(words) => Run::without_engine(run_kept_make(alloc, words, outside)),
        Command::CheckKept(words) => Run::without_engine(run_kept_check(alloc, words, outside)),
    }
}

/// Carries out a command that makes the frames of a script.
fn run_frames<O: Outside>(alloc: Global, command: &FrameWords<'_>, outside: &mut O) -> Run
    requires idle { (O.moment outside.old).under_way ≡ false }
    requires accepted { IsFrameCommand command.now }
    requires opens { (O.moment outside.old).shelf.opens ≤ 2 ^ 63 }
    ensures same { O.is_same outside.old outside.new }
    ensures runs { RunsCommand (O.moment outside.old) (O.moment outside.new)
        (Some (OnGrid command.now.grid.now (Frames (scripted_seen command.now))))
        result.status (option_map engine_seen result.engine) }
{
    match command.meshing {
        Meshing::ByEngine(showing) => run_engine(alloc, command, showing, outside),
        Meshing::ByTolerance { prefix, tolerance } => {
            Run::without_engine(run_least(alloc, command, prefix, tolerance, outside))
        }
    }
}

/// Carries out a command whose frames an engine makes, and which are shown so.
fn run_engine<O: Outside>(
    alloc: Global,
    command: &FrameWords<'_>,
    showing: Showing<'_>,
    outside: &mut O,
) -> Run
    requires idle { (O.moment outside.old).under_way ≡ false }
    requires accepted { IsFrameCommand command.now }
    requires showing { IsShowing showing }
    requires shown { show_for command.now.meshing ≡ show_seen showing }
    requires opens { (O.moment outside.old).shelf.opens ≤ 2 ^ 63 }
    ensures same { O.is_same outside.old outside.new }
    ensures runs { RunsCommand (O.moment outside.old) (O.moment outside.new)
        (Some (OnGrid command.now.grid.now (Frames (scripted_seen command.now))))
        result.status (option_map engine_seen result.engine) }
{
    state_laws();
    match grid_or_end(alloc, command.grid, outside) {
        Ok(grid) => {
            let made = EngineFrames::make(alloc, grid, showing, command.budget, command.spacing);
            let Ok(mut frames) = made else {
                return Run::without_engine(Status::NoMemory);
            };
            let status = run_script(&mut frames, command.script, outside);
            Run::of_script(status, frames.engine)
        }
        Err(status) => Run::without_engine(status),
    }
}

/// Carries out the command `try`, which opens no file and writes no mesh.
fn run_try<O: Outside>(alloc: Global, n: u32, seed: u32, outside: &mut O) -> Run
    requires n_low { 1 ≤ n }
    requires n_high { n ≤ GREATEST_FILE_LEVEL }
    ensures same { O.is_same outside.old outside.new }
    ensures runs { RunsCommand (O.moment outside.old) (O.moment outside.new) (Some (Generated n seed))
        result.status (option_map engine_seen result.engine) }
{
    match sums_of(alloc, n, seed) {
        Ok((sums, engine)) => {
            let line = try_report(n, seed, &sums);
            let status = end_with_text(line.as_slice(), Status::Done, outside);
            Run::of_script(status, engine)
        }
        Err(_) => Run::without_engine(Status::NoMemory),
    }
}
