//! Every call of the outside fails in turn, up to the first run that meets no failure.
//!
//! What stands is compared with the same run without a fault, whose lines and meshes other tests know.

use crate::files::{WORDS, flat, flight, hill, two_peaks};
use crate::frail_shelf::FrailShelf;
use crate::ran::{Fault, ROOM, run_files, run_over};
use crate::stands::{Stands, stands_of};
use edge_doubles::ShelfCall;
use roam_edge::MeshCall;
use roam_run::Status;
use std::alloc::Global;
use std::process::Abort;
use std::test::Fail;

/// The call that fails, the status, how many whole meshes and lines stand then, and how many bytes an unfinished mesh
/// has.
type FaultCase = (Fault, Status, usize, usize, Option<usize>);

/// Runs these words over a grid and the flight, and compares what each fault leaves with the run in which nothing fails.
fn check_faults(
    rt: &impl Abort,
    alloc: Global,
    words: &[&str],
    grid: &[u8],
    cases: &[FaultCase],
) -> Result<(), Fail> {
    let calm = run_files(alloc, words, grid, flight(), Fault::None, ROOM)?;
    assert_eq!(rt; calm.status, Status::Done);
    let mut row = 0u32;
    for (fault, status, meshes, lines, part) in cases {
        let stands = Stands {
            meshes: *meshes,
            lines: *lines,
            part: *part,
        };
        let ran = run_files(alloc, words, grid, flight(), *fault, ROOM)?;
        row = row.saturating_add(1);
        assert_eq!(rt; ran.status, *status, "{words:?}, row {row}");
        assert_eq!(rt;
            stands_of(&ran, &calm),
            Some(stands),
            "{words:?}, row {row}"
        );
    }
    Ok(())
}

#[test]
fn a_failing_call_leaves_the_frames_before_it(rt: HostRuntime) -> Result<(), Fail> {
    // Each file is one piece, and then the read that finds its end. Each mesh is one piece, of nine vertices and nine
    // triangles: 73 bytes and 72.
    let (read, write) = (Status::ReadFault, Status::WriteFault);
    let cases = [
        (Fault::Shelf(ShelfCall::Open(1)), read, 0, 0, None),
        (Fault::Shelf(ShelfCall::Open(2)), read, 0, 0, None),
        (Fault::Shelf(ShelfCall::Open(3)), Status::Done, 2, 2, None),
        (Fault::Shelf(ShelfCall::Read(1)), read, 0, 0, None),
        (Fault::Shelf(ShelfCall::Read(2)), read, 0, 0, None),
        (Fault::Shelf(ShelfCall::Read(3)), read, 0, 0, None),
        (Fault::Shelf(ShelfCall::Read(4)), read, 2, 2, None),
        (Fault::Shelf(ShelfCall::Read(5)), Status::Done, 2, 2, None),
        (Fault::Mesh(MeshCall::Begin(1)), write, 0, 0, None),
        (Fault::Mesh(MeshCall::Begin(2)), write, 1, 1, None),
        (Fault::Mesh(MeshCall::Begin(3)), Status::Done, 2, 2, None),
        (Fault::Mesh(MeshCall::Write(1)), write, 0, 0, Some(0)),
        (Fault::Mesh(MeshCall::Write(2)), write, 1, 1, Some(0)),
        (Fault::Mesh(MeshCall::Write(3)), Status::Done, 2, 2, None),
        (Fault::Mesh(MeshCall::Finish(1)), write, 0, 0, Some(145)),
        (Fault::Mesh(MeshCall::Finish(2)), write, 1, 1, Some(145)),
        (Fault::Mesh(MeshCall::Finish(3)), Status::Done, 2, 2, None),
        (Fault::Report(1), write, 1, 0, None),
        (Fault::Report(2), write, 2, 1, None),
        (Fault::Report(3), Status::Done, 2, 2, None),
    ];
    check_faults(&rt, rt.alloc(), &WORDS, two_peaks(), &cases)
}

#[test]
fn a_failing_call_leaves_the_strips_the_least_meshes_or_the_fit_before_it(
    rt: HostRuntime,
) -> Result<(), Fail> {
    let (read, write) = (Status::ReadFault, Status::WriteFault);
    let strips = [
        (Fault::Mesh(MeshCall::Finish(1)), write, 0, 0, Some(145)),
        (Fault::Report(2), write, 2, 1, None),
    ];
    let words = ["strip", "g", "s", "out", "9", "1"];
    check_faults(&rt, rt.alloc(), &words, two_peaks(), &strips)?;
    // The second mesh has the two halves alone: 48 bytes.
    let least = [
        (Fault::Shelf(ShelfCall::Read(4)), read, 2, 2, None),
        (Fault::Mesh(MeshCall::Begin(2)), write, 1, 1, None),
        (Fault::Mesh(MeshCall::Write(2)), write, 1, 1, Some(0)),
        (Fault::Mesh(MeshCall::Finish(2)), write, 1, 1, Some(48)),
        (Fault::Report(2), write, 2, 1, None),
        (Fault::Report(3), Status::Done, 2, 2, None),
    ];
    let words = ["least", "g", "s", "out", "1310719", "1"];
    check_faults(&rt, rt.alloc(), &words, hill(), &least)?;
    let fit = [
        (Fault::Shelf(ShelfCall::Open(1)), read, 0, 0, None),
        (Fault::Shelf(ShelfCall::Read(2)), read, 0, 0, None),
        (Fault::Mesh(MeshCall::Begin(1)), write, 0, 0, None),
        (Fault::Mesh(MeshCall::Write(1)), write, 0, 0, Some(0)),
        (Fault::Mesh(MeshCall::Finish(1)), write, 0, 0, Some(73)),
        (Fault::Report(1), write, 1, 0, None),
        (Fault::Shelf(ShelfCall::Open(2)), Status::Done, 1, 1, None),
    ];
    let words = ["fit", "g", "out", "budget", "4", "1"];
    check_faults(&rt, rt.alloc(), &words, hill(), &fit)
}

/// How many frames stand where this call fails of those over single bytes: 65 calls are the grid's, then the script
/// is opened, and its 25 bytes and its end are read.
fn frames_before(call: u64) -> usize {
    if call <= 72 {
        0
    } else if call <= 91 {
        1
    } else {
        2
    }
}

#[test]
fn lines_are_carried_out_before_the_next_byte_is_read(rt: HostRuntime) -> Result<(), Fail> {
    let calm = run_files(rt.alloc(), &WORDS, two_peaks(), flight(), Fault::None, ROOM)?;
    for call in 1..94 {
        let mut shelf = FrailShelf::new(two_peaks(), flight(), 1, call);
        let ran = run_over(rt.alloc(), &WORDS, &mut shelf, Fault::None, ROOM)?;
        let is_done = call == 93;
        let frames = frames_before(call);
        let want = Some(Stands {
            meshes: frames,
            lines: frames,
            part: None,
        });
        assert_eq!(rt; ran.status == Status::Done, is_done, "call {call}");
        assert_eq!(rt; ran.status == Status::ReadFault, !is_done, "call {call}");
        assert_eq!(rt; stands_of(&ran, &calm), want, "call {call}");
    }
    Ok(())
}

#[test]
fn a_refusal_is_told_before_the_next_byte_is_read(rt: HostRuntime) -> Result<(), Fail> {
    // An opening and 32 reads of the grid, an opening, and the ten bytes of the first two lines.
    let script = b"frame\nfly\nframe\n";
    let mut shelf = FrailShelf::new(flat(), script, 1, 44);
    let ran = run_over(rt.alloc(), &WORDS, &mut shelf, Fault::None, ROOM)?;
    assert_eq!(rt; ran.status, Status::ReadFault);
    assert_eq!(rt; ran.meshes.len(), 1);
    let mut shelf = FrailShelf::new(flat(), script, 1, 45);
    let ran = run_over(rt.alloc(), &WORDS, &mut shelf, Fault::None, ROOM)?;
    assert_eq!(rt; ran.status, Status::ScriptRefused);
    assert_eq!(rt; shelf.calls(), 44);
    Ok(())
}

#[test]
fn a_line_of_201_bytes_is_refused_before_its_end_is_read(rt: HostRuntime) -> Result<(), Fail> {
    let mut script = Vec::new(rt.alloc());
    for _ in 0..200 {
        script.push(b'#')?;
    }
    // An opening and 32 reads of the grid, an opening, 200 reads, and the end.
    let mut shelf = FrailShelf::new(flat(), script.as_slice(), 1, 0);
    let ran = run_over(rt.alloc(), &WORDS, &mut shelf, Fault::None, ROOM)?;
    assert_eq!(rt; ran.status, Status::Done);
    assert_eq!(rt; ran.report.len(), 0);
    assert_eq!(rt; shelf.calls(), 235);
    script.extend_from_slice(b"\r\n")?;
    let mut shelf = FrailShelf::new(flat(), script.as_slice(), 1, 0);
    let ran = run_over(rt.alloc(), &WORDS, &mut shelf, Fault::None, ROOM)?;
    assert_eq!(rt; ran.status, Status::ScriptRefused);
    let want = b"line 1 refused: line too long\n".as_slice();
    assert_eq!(rt; ran.report.as_slice(), want);
    assert_eq!(rt; shelf.calls(), 235);
    Ok(())
}

#[test]
fn a_refusal_that_cannot_be_written_is_a_write_fault(rt: HostRuntime) -> Result<(), Fail> {
    let cases = [
        (b"P6".as_slice(), "frame\n", 1, 0),
        (flat(), "fly\n", 1, 0),
        (flat(), "frame\nfly\n", 2, 70),
    ];
    for (grid, script, number, size) in cases {
        let fault = Fault::Report(number);
        let ran = run_files(rt.alloc(), &WORDS, grid, script.as_bytes(), fault, ROOM)?;
        assert_eq!(rt; ran.status, Status::WriteFault, "{script:?}");
        assert_eq!(rt; ran.report.len(), size, "{script:?}");
    }
    Ok(())
}
