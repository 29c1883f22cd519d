//! The certificate of a best mesh, as text.

ghost use Rattle.std.specs.Prelude.{◌≡◌, ◌<◌, ◌≤◌, ◌++◌, true, false, IfOk, length, drop};
ghost use Rattle.mesh_defs.specs.Priority.{worst_of};
ghost use Rattle.mesh_defs.specs.BestMesh.{IsBestMesh};
ghost use Rattle.mesh_defs.specs.State.{priority_in};
ghost use Rattle.frame_loop.specs.Engine.{mesh_seen};
ghost use Rattle.cert_text.specs.CertText.{cert_text};
ghost use Rattle.roam_embed.specs.Certificates.{unplaned_at, IsCertificateAt, IsCertificateText, IsCertificateTold};

use crate::answer::Answer;
use crate::bytes::Bytes;
use cert_text::{Cert, write_cert};
use frame_loop::{Camera, Engine, Grid, NoMemory};
use roam_certify::certify_mesh;
use std::alloc::Global;

/// Writes the certificate of the best mesh from a place, without planes and of the budget in force, and how many
/// bytes it has.
///
/// It is the text of `roam certify make` for the same grid, camera, budget and spacing; whoever has the grid can
/// check it.
/// Cost (not proved): that of an engine of these heights and this budget, and of its first frame; takes as much
/// memory, and gives it back.
pub fn tell_certificate(
    alloc: Global,
    engine: &Engine,
    x: i64,
    y: i64,
    z: i64,
    out: &mut [u8],
    count: &mut usize,
) -> Answer
    ensures { IsCertificateTold engine.now.state (record { x = x; y = y; z = z })
        out.old out.new count.old count.new result }
{
    match Camera::new(x, y, z) {
        Some(place) => tell_certificate_at(alloc, engine, place, out, count),
        None => Answer::BadCamera,
    }
}

/// The same for a camera.
fn tell_certificate_at(
    alloc: Global,
    engine: &Engine,
    place: Camera,
    out: &mut [u8],
    count: &mut usize,
) -> Answer
    ensures { IsCertificateTold engine.now.state place out.old out.new count.old count.new result }
{
    let _n = engine.grid().n();
    match text_at(alloc, engine, place) {
        Ok(text) => {
            if put_text(&text, out, count) {
                Answer::Done
            } else {
                Answer::NoRoom
            }
        }
        Err(_) => Answer::NoMemory,
    }
}

/// The text of the certificate at a place.
fn text_at(alloc: Global, engine: &Engine, place: Camera) -> Result<Vec<u8>, NoMemory>
    ensures { IfOk result (λ text. IsCertificateText engine.now.state place text.items) }
{
    let cert = certificate_at(alloc, engine, place)?;
    text_of(alloc, &cert)
}

/// The certificate at a place: that of the first frame of an engine over the same heights.
fn certificate_at(alloc: Global, engine: &Engine, place: Camera) -> Result<Cert, NoMemory>
    ensures { IfOk result (λ cert. IsCertificateAt engine.now.state place cert) }
{
    let mut other = engine_at(alloc, engine, place)?;
    let note = other.frame();
    cert_of_frame(alloc, &other, place, note.worst)
}

/// Another engine over the same heights, at a place and without planes.
fn engine_at(alloc: Global, engine: &Engine, place: Camera) -> Result<Engine, NoMemory>
    ensures state { IfOk result (λ other. other.state ≡ unplaned_at place engine.now.state) }
    ensures frames { IfOk result (λ other. other.frames ≡ 0) }
{
    let grid = engine.grid();
    let heights = grid.heights().to_vec(alloc)?;
    let copy = Grid::from_heights(grid.n(), grid.maxval(), heights);
    let mut other = Engine::make(alloc, copy, engine.budget_in_force(), engine.view().spacing)?;
    let _way = other.way_to(place);
    other.camera(place);
    Ok(other)
}

/// The certificate of an engine's mesh, which is the best one at a place without planes, and has this worst.
fn cert_of_frame(
    alloc: Global,
    engine: &Engine,
    place: Camera,
    worst: u64,
) -> Result<Cert, NoMemory>
    requires unplaned { engine.now.state ≡ unplaned_at place engine.now.state }
    requires best { let state = engine.now.state in
        IsBestMesh state.grid.n state.budget (priority_in state) (mesh_seen engine.now) }
    requires worst { worst ≡ worst_of (priority_in engine.now.state) (mesh_seen engine.now) }
    ensures { IfOk result (λ cert. IsCertificateAt engine.now.state place cert) }
{
    let view = engine.view();
    let leaves = view.leaves.to_vec(alloc)?;
    certify_mesh(
        alloc,
        view.wedges,
        &place,
        view.spacing,
        engine.budget_in_force(),
        leaves,
        worst,
    )
}

/// The text of a certificate.
fn text_of(alloc: Global, cert: &Cert) -> Result<Vec<u8>, NoMemory>
    ensures { IfOk result (λ text. text.items ≡ cert_text cert.now) }
{
    let mut sink = Bytes::new(alloc);
    match write_cert(cert, &mut sink) {
        Ok(()) => Ok(sink.kept),
        Err(_) => Err(NoMemory),
    }
}

/// Writes a text into the first places, and how long it is; answers whether there was room for it.
fn put_text(text: &[u8], out: &mut [u8], count: &mut usize) -> bool
    ensures room { result ≡ true → length text.now ≤ length out.old }
    ensures no_room { result ≡ false → length out.old < length text.now }
    ensures written { result ≡ true → out.new ≡ text.now ++ drop (length text.now) out.old }
    ensures counted { result ≡ true → count.new ≡ length text.now }
    ensures unwritten { result ≡ false → out.new ≡ out.old }
    ensures uncounted { result ≡ false → count.new ≡ count.old }
{
    if out.len() < text.len() {
        return false;
    }
    out[..text.len()].copy_from_slice(text);
    *count = text.len();
    true
}
