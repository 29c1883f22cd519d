//! A run over objects that never fail, but for the room of the report.

ghost use Rattle.std.specs.Prelude.{◌≡◌, ◌≢◌, ◌-◌, ◌^◌, ◌<◌, ◌≤◌, ◌⊎◌, ◌↔◌, false, map, string_bytes};
ghost use Rattle.run_words.specs.Words.{command_of};
ghost use Rattle.run_laws.specs.Promise.{IsAccepted};

use edge_doubles::CountMeshes;
use roam_edge::{CalmShelf, MemSink};
use roam_run::{Status, roam};
use run_laws::statement_laws;
use std::alloc::Global;

/// Carries out the words of a command line over borrowed files, counts the meshes, and keeps the report.
///
/// New objects have all that it asks of them. No read fails here, and no write of a mesh: what is accepted is done,
/// unless memory runs out or the report has no room for a line.
pub fn calm_run(
    alloc: Global,
    words: &[String],
    shelf: &mut CalmShelf<'_>,
    meshes: &mut CountMeshes,
    report: &mut MemSink,
) -> Status
    requires idle { meshes.old.under_way ≡ false }
    requires faults { report.old.faults < 2 ^ 64 - 1 }
    requires opens { shelf.old.opens ≤ 2 ^ 63 }
    ensures complete { IsAccepted (command_of (map string_bytes words.now)) shelf.old.files →
        (result ≡ Status.Done) ⊎ (result ≡ Status.NoMemory) ⊎ (result ≡ Status.WriteFault) }
    ensures read { result ≢ Status.ReadFault }
    ensures write_cause { (result ≡ Status.WriteFault) ↔ (report.old.faults < report.new.faults) }
{
    statement_laws();
    roam(alloc, words, shelf, meshes, report).status
}
