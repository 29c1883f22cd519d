//! The command `certify make`: the certificate of a best mesh.

ghost use Rattle.std.specs.Prelude.{◌≡◌, ◌^◌, ◌≤◌, None, Some, false, IfOk};
ghost use Rattle.mesh_defs.specs.Priority.{worst_of};
ghost use Rattle.mesh_defs.specs.BestMesh.{IsBestMesh};
ghost use Rattle.mesh_defs.specs.State.{priority_in, start_state};
ghost use Rattle.cert_text.specs.CertText.{cert_text};
ghost use Rattle.run_words.specs.Words.{OnGrid, Make};
ghost use Rattle.run_laws.specs.Certify.{IsMade, makes_at};
ghost use Rattle.frame_loop.specs.Engine.{mesh_seen};
ghost use Rattle.run_words.specs.CertifyView.{making_seen, AreInBounds};
ghost use Rattle.run_laws.specs.Leaving.{RunsCommand, TellsLast};

use cert_text::Cert;
use frame_loop::Engine;
use pgm_grid::Grid;
use plain_mesh::falling_laws;
use roam_certify::certify_mesh;
use roam_edge::NoMemory;
use run_files::{Outside, grid_or_end};
use run_laws::Status;
use run_words::MakeWords;
use std::alloc::Global;

/// Carries out the command `certify make`. All memory is taken before the first byte is written.
pub fn run_make<O: Outside>(alloc: Global, words: &MakeWords<'_>, outside: &mut O) -> Status
    requires opens { (O.moment outside.old).shelf.opens ≤ 2 ^ 63 }
    requires bounds { AreInBounds words.now.budget words.now.spacing }
    ensures same { O.is_same outside.old outside.new }
    ensures runs { RunsCommand (O.moment outside.old) (O.moment outside.new)
        (Some (OnGrid words.now.grid.now (Make (making_seen words.now)))) result None }
{
    match grid_or_end(alloc, words.grid, outside) {
        Ok(grid) => match certificate_of(alloc, grid, words) {
            Ok(cert) => end_with_cert(&cert, outside),
            Err(_) => Status::NoMemory,
        },
        Err(status) => status,
    }
}

/// The certificate of the best mesh of a grid, which is that of an engine's first frame at the camera of the words.
fn certificate_of(alloc: Global, grid: Grid, words: &MakeWords<'_>) -> Result<Cert, NoMemory>
    requires bounds { AreInBounds words.now.budget words.now.spacing }
    ensures { IfOk result (λ cert. IsMade (making_seen words.now) grid cert) }
{
    let mut engine = Engine::make(alloc, grid, words.budget, words.spacing)?;
    certificate_by(alloc, &mut engine, words)
}

/// The same by an engine of the grid before its first frame. It stands apart since a function that owns an engine
/// drops it at each exit, on ways that its proof has to go for each of its calls.
fn certificate_by(
    alloc: Global,
    engine: &mut Engine,
    words: &MakeWords<'_>,
) -> Result<Cert, NoMemory>
    requires bounds { AreInBounds words.now.budget words.now.spacing }
    requires start { engine.old.state ≡ start_state engine.old.state.grid words.now.spacing words.now.budget }
    requires odometer { engine.old.odometer ≡ 0 }
    requires frames { engine.old.frames ≡ 0 }
    ensures { IfOk result (λ cert. IsMade (making_seen words.now) engine.old.state.grid cert) }
{
    falling_laws();
    let _way = engine.way_to(words.camera);
    engine.camera(words.camera);
    let note = engine.frame();
    cert_of_frame(alloc, engine, note.worst, words)
}

/// The certificate of the mesh of an engine, which is a best one at the camera of the words, and has this worst.
fn cert_of_frame(
    alloc: Global,
    engine: &Engine,
    worst: u64,
    words: &MakeWords<'_>,
) -> Result<Cert, NoMemory>
    requires bounds { AreInBounds words.now.budget words.now.spacing }
    requires best { let grid = engine.now.state.grid in
        IsBestMesh grid.n words.now.budget (priority_in (makes_at (making_seen words.now) grid))
        (mesh_seen engine.now) }
    requires worst { let grid = engine.now.state.grid in
        worst ≡ worst_of (priority_in (makes_at (making_seen words.now) grid)) (mesh_seen engine.now) }
    ensures { IfOk result (λ cert. IsMade (making_seen words.now) engine.now.state.grid cert) }
{
    let view = engine.view();
    let leaves = view.leaves.to_vec(alloc)?;
    certify_mesh(
        alloc,
        view.wedges,
        &words.camera,
        words.spacing,
        words.budget,
        leaves,
        worst,
    )
}

/// Writes a certificate, the last text of a run.
fn end_with_cert<O: Outside>(cert: &Cert, outside: &mut O) -> Status
    ensures same { O.is_same outside.old outside.new }
    ensures tells { TellsLast (O.moment outside.old) (O.moment outside.new) (cert_text cert.now) Status.Done result }
{
    match outside.tell_cert(cert) {
        Ok(()) => Status::Done,
        Err(_) => Status::WriteFault,
    }
}
