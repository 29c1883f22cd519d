//! What a console hands its words, files and streams to.

ghost use Rattle.std.specs.Prelude.{◌≡◌, ◌≢◌, ◌<◌, ◌≤◌, ◌-◌, ◌^◌, ◌⊎◌, ◌↔◌, ℕ, List, Option, None, false, map};
ghost use Rattle.std.specs.Prelude.{string_bytes};
ghost use Rattle.run_words.specs.Words.{command_of};
ghost use Rattle.run_laws.specs.Outcome.{EngineEnd};
ghost use Rattle.run_laws.specs.Moment.{moment};
ghost use Rattle.run_laws.specs.Statement.{KeepsBestMeshes, CertifiesMesh, EndsByStatus};
ghost use Rattle.run_laws.specs.declared.status.Status.{Status as Ending};

use roam_edge::{MeshSink, Shelf, Sink};
use run_laws::Status;
use std::alloc::Global;

/// What runs words over a shelf of files and two sinks.
///
/// It stands here and not with `roam`, so that the console waits for no run, and the two are proved side by side. Its
/// clauses are those of `status_of` of `roam_run`.
pub trait Program {
    /// That a run of these words ended so. Who holds a run by this trait alone can show it in no other way than by a
    /// call.
    ghost ran: { Self → List (List ℕ) → Ending → Type 0 };

    /// Carries the words out, those after the program's name, and answers how that ended.
    fn status_of<F: Shelf, M: MeshSink, S: Sink>(
        &self,
        alloc: Global,
        words: &[String],
        shelf: &mut F,
        meshes: &mut M,
        report: &mut S,
    ) -> Status
        requires idle { M.under_way meshes.old ≡ false }
        requires shelf_faults { F.faults shelf.old < 2 ^ 64 - 1 }
        requires mesh_faults { M.faults meshes.old < 2 ^ 64 - 1 }
        requires report_faults { S.faults report.old < 2 ^ 64 - 1 }
        requires opens { F.opens shelf.old ≤ 2 ^ 63 }
        ensures ran { Self.ran self.now (map string_bytes words.now) result }
        ensures best { KeepsBestMeshes (moment F.Shelf M.MeshSink S.Sink shelf.old meshes.old report.old)
            (moment F.Shelf M.MeshSink S.Sink shelf.new meshes.new report.new) (map string_bytes words.now) result }
        ensures certified { CertifiesMesh (moment F.Shelf M.MeshSink S.Sink shelf.old meshes.old report.old)
            (moment F.Shelf M.MeshSink S.Sink shelf.new meshes.new report.new) (map string_bytes words.now) result }
        ensures ends { (left : Option EngineEnd) ×
            EndsByStatus (moment F.Shelf M.MeshSink S.Sink shelf.old meshes.old report.old)
            (moment F.Shelf M.MeshSink S.Sink shelf.new meshes.new report.new)
            (command_of (map string_bytes words.now)) result left }
        ensures usage { (result ≡ Status.Usage) ↔ (command_of (map string_bytes words.now) ≡ None) }
        ensures read_cause { (result ≡ Status.ReadFault) ↔ (F.faults shelf.old < F.faults shelf.new) }
        ensures write_cause { (result ≡ Status.WriteFault) ↔
            ((M.faults meshes.old < M.faults meshes.new) ⊎ (S.faults report.old < S.faults report.new)) }
        ensures files { F.files shelf.new ≡ F.files shelf.old }
        ensures idle { result ≢ Status.WriteFault → M.under_way meshes.new ≡ false };
}
