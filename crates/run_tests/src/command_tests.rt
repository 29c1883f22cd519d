//! One worked run of each command, with as much room for its report as that needs, and with a byte less.

use crate::files::{hill, hill_mesh};
use crate::ran::{Fault, run_files};
use roam_run::Status;
use std::test::Fail;

// Each half of the hill is off by 20 over 2 in the middle, its priority is 1310720, and a quarter of the square is flat.
// Where the middle is kept, four triangles are the fewest.
#[test]
fn each_command_is_done_where_its_report_has_room(rt: HostRuntime) -> Result<(), Fail> {
    let four: &[u8] = b"camera 0 0 0\nleaf 4\nleaf 5\nleaf 6\nleaf 7\n";
    // Of each the words, the file `s`, the report, and the mesh; no bytes where there is none.
    let cases: [(&[&str], &[u8], &str, &[u8]); 15] = [
        (
            &["mesh", "g", "s", "out", "4", "1"],
            b"frame\n",
            "frame 1 triangles 4 vertices 5 worst 0 splits 2 merges 0 blocked none\n",
            hill_mesh(),
        ),
        (
            &["strip", "g", "s", "out", "4", "1"],
            b"frame\n",
            "strip 1 triangles 4 left 0 right 2\n",
            hill_mesh(),
        ),
        (
            &["least", "g", "s", "out", "1310719", "1"],
            b"frame\n",
            "frame 1 least 4 vertices 5 worst 0\n",
            hill_mesh(),
        ),
        (
            &["measure", "g", "s", "3", "1"],
            b"frame\n",
            "measure 1 deviation 20 over 2 thickness 20\n",
            b"",
        ),
        (
            &["fit", "g", "out", "error", "9.999", "1"],
            b"",
            "fit triangles 4 vertices 5 deviation 0 over 2 error 0\n",
            hill_mesh(),
        ),
        (
            &["fit", "g", "out", "budget", "4", "1"],
            b"",
            "fit triangles 4 vertices 5 deviation 0 over 2 error 0\n",
            hill_mesh(),
        ),
        (
            &["fit", "g", "out", "error", "10", "1", "keep", "p"],
            b"",
            "fit triangles 4 vertices 5 deviation 0 over 2 error 0\n",
            hill_mesh(),
        ),
        (
            &["certify", "make", "g", "0", "0", "0", "2", "1"],
            b"",
            "camera 0 0 0\nleaf 2\nleaf 3\nwant 2\n",
            b"",
        ),
        (
            &["certify", "check", "g", "m", "s", "4", "1"],
            four,
            "certified camera 0 0 0 triangles 4 worst 0\n",
            b"",
        ),
        (
            &["certify", "make-fit", "g", "budget", "3", "1"],
            b"",
            "tolerance 20\nmesh\noff 2 1 1\n",
            b"",
        ),
        (
            &["certify", "check-fit", "g", "m", "s", "budget", "4", "1"],
            b"tolerance 0\noff 2 1 1\nmesh\n",
            "certified fit triangles 4 deviation 0 over 2 error 0\n",
            b"",
        ),
        (
            &["certify", "make-fit", "g", "error", "10", "1", "keep", "p"],
            b"",
            "need 1 1\ntolerance 20\nmesh\n",
            b"",
        ),
        (
            &[
                "certify",
                "check-fit",
                "g",
                "m",
                "s",
                "error",
                "10",
                "1",
                "keep",
                "p",
            ],
            b"need 1 1\ntolerance 20\nmesh\n",
            "certified fit triangles 4 deviation 0 over 2 error 0\n",
            b"",
        ),
        (
            &["info", "g"],
            b"",
            "side 3 maxval 65535 low 0 high 10 thickness 20\n",
            b"",
        ),
        (
            &["try", "1", "1"],
            b"",
            "try 1 1 frames 50 triangles 400 worst 0 blocked 0\n",
            b"",
        ),
    ];
    for (words, script, report, mesh) in cases {
        let room = report.len().min(4096) as u32;
        let ran = run_files(rt.alloc(), words, hill(), script, Fault::None, room)?;
        assert_eq!(rt; ran.status, Status::Done, "{words:?}");
        assert_eq!(rt; ran.report.as_slice(), report.as_bytes(), "{words:?}");
        assert_eq!(rt; ran.last_mesh(), mesh, "{words:?}");
        let room = room.saturating_sub(1);
        let short = run_files(rt.alloc(), words, hill(), script, Fault::None, room)?;
        assert_eq!(rt; short.status, Status::WriteFault, "{words:?}");
    }
    Ok(())
}
