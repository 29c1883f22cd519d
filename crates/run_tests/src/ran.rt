//! A run over objects in memory, and what it leaves, as plain values.
//!
//! The one call of `roam` stands here, and no function of this file has a clause on what it answers: so the proofs of
//! the tests see nothing of its contract.

ghost use Rattle.std.specs.Prelude.{◌≡◌, ◌-◌, ◌^◌, ◌<◌, ◌≤◌, false};

use crate::files::hill_mesh;
use edge_doubles::{MemShelf, ShelfCall};
use frame_loop::Engine;
use roam_edge::{MemMeshes, MemSink, MeshCall, MeshSink, NoMemory, Shelf, Sink};
use roam_run::{Status, roam};
use std::alloc::Global;
use std::test::Fail;

/// A mesh that a run left.
#[derive(Drop)]
pub(crate) struct LeftMesh {
    pub(crate) number: u32,
    pub(crate) bytes: Vec<u8>,
    pub(crate) finished: bool,
}

/// What the engine of a run tells at its end.
#[derive(Clone, Copy, Debug, PartialEq, Eq)]
pub(crate) struct LeftEngine {
    pub(crate) frames: u32,
    pub(crate) odometer: u64,
    pub(crate) planes: u32,
    pub(crate) triangles: usize,
    pub(crate) splits: u64,
    pub(crate) merges: u64,
}

/// How a run ended, and what it left.
#[derive(Drop)]
pub(crate) struct Ran {
    pub(crate) status: Status,
    pub(crate) engine: Option<LeftEngine>,
    pub(crate) meshes: Vec<LeftMesh>,
    pub(crate) report: Vec<u8>,
}

/// The call of the outside that fails, of its kind and with its number, counted from 1.
#[derive(Clone, Copy)]
pub(crate) enum Fault {
    /// None does.
    None,
    /// A call of the shelf.
    Shelf(ShelfCall),
    /// A call of the meshes.
    Mesh(MeshCall),
    /// The write of the report of this number.
    Report(u64),
}

/// What an engine tells.
fn told_by(engine: &Engine) -> LeftEngine {
    LeftEngine {
        frames: engine.frames(),
        odometer: engine.odometer(),
        planes: engine.planes(),
        triangles: engine.view().leaves.len(),
        splits: engine.pool().splits(),
        merges: engine.pool().merges(),
    }
}

/// The status of a run, and what its engine tells.
fn call_roam<F: Shelf, M: MeshSink, R: Sink>(
    alloc: Global,
    words: &[String],
    shelf: &mut F,
    meshes: &mut M,
    report: &mut R,
) -> (Status, Option<LeftEngine>)
    requires idle { M.under_way meshes.old ≡ false }
    requires shelf_faults { F.faults shelf.old < 2 ^ 64 - 1 }
    requires mesh_faults { M.faults meshes.old < 2 ^ 64 - 1 }
    requires report_faults { R.faults report.old < 2 ^ 64 - 1 }
    requires opens { F.opens shelf.old ≤ 2 ^ 63 }
{
    let run = roam(alloc, words, shelf, meshes, report);
    match &run.engine {
        Some(engine) => (run.status, Some(told_by(engine))),
        None => (run.status, None),
    }
}

/// Words as a command line hands them over.
pub(crate) fn owned(alloc: Global, words: &[&str]) -> Result<Vec<String>, NoMemory> {
    let mut list = Vec::new(alloc);
    for word in words {
        list.push(String::from_str(alloc, word)?)?;
    }
    Ok(list)
}

/// The meshes of a sink, in the order in which they were begun.
fn left_meshes(alloc: Global, meshes: &MemMeshes) -> Result<Vec<LeftMesh>, NoMemory> {
    let mut left = Vec::new(alloc);
    for place in 0..meshes.count() {
        left.push(LeftMesh {
            number: meshes.number(place),
            bytes: Vec::from_slice(alloc, meshes.bytes(place))?,
            finished: meshes.finished(place),
        })?;
    }
    Ok(left)
}

/// Ample room for the report of a small run.
pub(crate) const ROOM: u32 = 4096;

/// A run of these words over this shelf, with room for so many bytes of the report, in which this call of a sink fails.
pub(crate) fn run_over<F: Shelf>(
    alloc: Global,
    words: &[&str],
    shelf: &mut F,
    fault: Fault,
    room: u32,
) -> Result<Ran, Fail>
    requires faults { F.faults shelf.old < 2 ^ 64 - 1 }
    requires opens { F.opens shelf.old ≤ 2 ^ 63 }
{
    let (call, line) = match fault {
        Fault::Mesh(call) => (call, 0),
        Fault::Report(number) => (MeshCall::Begin(0), number),
        _ => (MeshCall::Begin(0), 0),
    };
    let words = owned(alloc, words)?;
    let mut meshes = MemMeshes::new(alloc, &[call], 4, 4096)?;
    let mut report = MemSink::new(alloc, &[line], u64::from(room))?;
    let (status, engine) = call_roam(alloc, words.as_slice(), shelf, &mut meshes, &mut report);
    Ok(Ran {
        status,
        engine,
        meshes: left_meshes(alloc, &meshes)?,
        report: Vec::from_slice(alloc, report.bytes())?,
    })
}

/// The same, in which this call fails, over this grid `g` and this script or certificate `s`, the finest mesh of the
/// hill as `m`, and its middle as the one point of `p`.
pub(crate) fn run_files(
    alloc: Global,
    words: &[&str],
    grid: &[u8],
    script: &[u8],
    fault: Fault,
    room: u32,
) -> Result<Ran, Fail> {
    let call = match fault {
        Fault::Shelf(call) => call,
        _ => ShelfCall::Open(0),
    };
    let mut shelf = MemShelf::new(alloc, &[call])?;
    shelf.add("g", grid)?;
    shelf.add("s", script)?;
    shelf.add("m", hill_mesh())?;
    shelf.add("p", b"1 1\n")?;
    run_over(alloc, words, &mut shelf, fault, room)
}

impl Ran {
    /// The bytes of the mesh that was begun last; none where there is no mesh.
    pub(crate) fn last_mesh(&self) -> &[u8] {
        match self.meshes.as_slice() {
            [] => &[],
            [.., mesh] => mesh.bytes.as_slice(),
        }
    }
}
