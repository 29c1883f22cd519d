//! The generated grid and script of `roam_gen`. The checksums are those of what `checks/generated.py` writes, a
//! transcription of the format into Python.

use roam_edge::MemSink;
use roam_gen::{write_grid, write_script};
use std::alloc::Global;
use std::test::Fail;

/// The 64-bit FNV-1a checksum of bytes.
fn checksum(bytes: &[u8]) -> u64 {
    let mut sum = 0xcbf2_9ce4_8422_2325u64;
    for byte in bytes {
        sum = (sum ^ u64::from(*byte)).wrapping_mul(0x100_0000_01b3);
    }
    sum
}

/// The length and the checksum of the grid and of the script of level 6 with the greatest seed.
fn level_six(alloc: Global) -> Result<[(usize, u64); 2], Fail> {
    let mut grid = MemSink::new(alloc, &[], 8_465)?;
    write_grid(6, u32::MAX, &mut grid)?;
    let mut script = MemSink::new(alloc, &[], 1471)?;
    write_script(6, u32::MAX, &mut script)?;
    let (grid, script) = (grid.bytes(), script.bytes());
    Ok([
        (grid.len(), checksum(grid)),
        (script.len(), checksum(script)),
    ])
}

#[test]
fn a_grid_and_a_script_are_written_by_the_format(rt: HostRuntime) -> Result<(), Fail> {
    let want = [
        (8_465, 14_255_559_310_457_275_168),
        (1471, 1_257_276_246_231_745_543),
    ];
    assert_eq!(rt; level_six(rt.alloc())?, want);
    Ok(())
}
