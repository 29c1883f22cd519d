//! A run over objects that never fail, but for the room of the report.

ghost use Rattle.std.specs.Prelude.{◌^◌, ◌≤◌};

use crate::calm_run;
use crate::files::corner_hill;
use crate::ran::owned;
use edge_doubles::CountMeshes;
use roam_edge::{CalmShelf, MemSink};
use roam_run::Status;
use std::alloc::Global;
use std::test::Fail;

/// A calm run of one frame with room for so many bytes of the report: its status, its meshes, and how much it reported.
fn run_in_room(alloc: Global, room: u64) -> Result<(Status, u64, usize), Fail>
    requires { room ≤ 2 ^ 32 }
{
    let words = owned(alloc, &["mesh", "g", "s", "out", "9", "1"])?;
    let mut shelf = CalmShelf::new()
        .with_file("g", corner_hill())
        .with_file("s", b"frame\n");
    let mut meshes = CountMeshes::new();
    let mut report = MemSink::new(alloc, &[], room)?;
    let status = calm_run(
        alloc,
        words.as_slice(),
        &mut shelf,
        &mut meshes,
        &mut report,
    );
    Ok((status, meshes.meshes(), report.bytes().len()))
}

#[test]
fn a_calm_run_is_done_where_its_report_has_room(rt: HostRuntime) -> Result<(), Fail> {
    // The line of this frame has 70 bytes.
    assert_eq!(rt; run_in_room(rt.alloc(), 70)?, (Status::Done, 1, 70));
    assert_eq!(rt; run_in_room(rt.alloc(), 69)?, (Status::WriteFault, 1, 0));
    Ok(())
}
