//! The engine that a run leaves.

use crate::files::{WORDS, corner_hill, flat, hill, two_peaks};
use crate::ran::{Fault, LeftEngine, ROOM, run_files};
use edge_doubles::ShelfCall;
use roam_edge::MeshCall;
use roam_run::Status;
use std::test::Fail;

/// An engine that tells these numbers.
fn engine(
    frames: u32,
    odometer: u64,
    planes: u32,
    triangles: usize,
    splits: u64,
    merges: u64,
) -> LeftEngine {
    LeftEngine {
        frames,
        odometer,
        planes,
        triangles,
        splits,
        merges,
    }
}

#[test]
fn a_run_leaves_the_engine_of_its_frames_unless_it_is_cut_short(
    rt: HostRuntime,
) -> Result<(), Fail> {
    let flown = "frame\ncamera 4 4 0\nframe\nframe\n";
    let planed = "frame\nbudget 7\nframe\nplane 1 0 0 0\n";
    let refused = "camera -65535 0 0\nframe\ncamera -65536 0 0\nframe\nfly\n";
    // The mesh of `try` is the finest one from the first frame on. From (0, 0, 0) its camera goes to (1, 58, 40000), and
    // then to (58, 1, 40000).
    let generated = engine(50, 40173, 0, 8, 6, 0);
    let begin = Fault::Mesh(MeshCall::Begin(1));
    let read = Fault::Shelf(ShelfCall::Read(4));
    let line = Fault::Report(1);
    let mesh: &[&str] = &WORDS;
    let sums: &[&str] = &["try", "1", "1"];
    let done = Status::Done;
    let cases: [(&[&str], &[u8], &str, Fault, Status, Option<LeftEngine>); 12] = [
        (
            mesh,
            flat(),
            "",
            Fault::None,
            done,
            Some(engine(0, 0, 0, 2, 0, 0)),
        ),
        (
            mesh,
            two_peaks(),
            flown,
            Fault::None,
            done,
            Some(engine(3, 8, 0, 9, 12, 5)),
        ),
        (
            mesh,
            corner_hill(),
            planed,
            Fault::None,
            done,
            Some(engine(2, 0, 1, 5, 7, 4)),
        ),
        (
            mesh,
            flat(),
            refused,
            Fault::None,
            Status::ScriptRefused,
            Some(engine(2, 65536, 0, 2, 0, 0)),
        ),
        (mesh, hill(), "frame\n", begin, Status::WriteFault, None),
        (mesh, hill(), "frame\n", line, Status::WriteFault, None),
        (mesh, hill(), "frame\n", read, Status::ReadFault, None),
        (
            mesh,
            b"P6",
            "frame\n",
            Fault::None,
            Status::GridRefused,
            None,
        ),
        (sums, b"", "", Fault::None, done, Some(generated)),
        (sums, b"", "", line, Status::WriteFault, None),
        (&["info", "g"], hill(), "", Fault::None, done, None),
        (&["info"], hill(), "", Fault::None, Status::Usage, None),
    ];
    for (words, grid, script, fault, status, left) in cases {
        let ran = run_files(rt.alloc(), words, grid, script.as_bytes(), fault, ROOM)?;
        assert_eq!(rt; ran.status, status, "{words:?} {script:?}");
        assert_eq!(rt; ran.engine, left, "{words:?} {script:?}");
    }
    Ok(())
}
