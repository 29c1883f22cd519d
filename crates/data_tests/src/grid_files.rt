//! Files of small grids for `pgm_grid`, whole and byte by byte: read, and refused for each cause.

use pgm_grid::{Grid, PgmFault, PgmReader};
use std::alloc::Global;
use std::test::Fail;

/// A raw text of two bytes a sample: nine points, the middle one of height 10 and the others of height 0.
const TEXT: [u8; 31] = *b"P5\n3 3\n65535\n\0\0\0\0\0\0\0\0\0\x0a\0\0\0\0\0\0\0\0";

/// A plain text of nine points, the upper left one of height 5 and the others of height 0.
const PLAIN: [u8; 27] = *b"P2 3 3 9\n5 0 0 0 0 0 0 0 0\n";

/// What a reader answers that takes all bytes in one piece.
fn read_whole(alloc: Global, bytes: &[u8]) -> Result<Grid, PgmFault> {
    let mut reader = PgmReader::new(alloc);
    reader.feed(bytes)?;
    reader.finish()
}

/// What a reader answers that takes each byte as a piece.
fn read_by_bytes(alloc: Global, bytes: &[u8]) -> Result<Grid, PgmFault> {
    let mut reader = PgmReader::new(alloc);
    for byte in bytes {
        reader.feed(&[*byte])?;
    }
    reader.finish()
}

/// Whether a grid has side 2, this maxval and these heights.
fn is_nine(grid: &Grid, maxval: u16, heights: [u16; 9]) -> bool {
    grid.n() == 1 && grid.maxval() == maxval && grid.heights() == heights.as_slice()
}

#[test]
fn nine_heights_are_read_from_each_form(rt: HostRuntime) -> Result<(), Fail> {
    let cases: [(&[u8], u16, [u16; 9]); 7] = [
        (&TEXT, 65535, [0, 0, 0, 0, 10, 0, 0, 0, 0]),
        (&PLAIN, 9, [5, 0, 0, 0, 0, 0, 0, 0, 0]),
        (
            b"P5\n# made by hand\n3 3\n255\n\0\0\0\0\x0a\0\0\0\xff",
            255,
            [0, 0, 0, 0, 10, 0, 0, 0, 255],
        ),
        (
            b"P5\n3 # x\n3\n255\n\0\x01\x02\x03\x04\x05\x06\x07\x08",
            255,
            [0, 1, 2, 3, 4, 5, 6, 7, 8],
        ),
        (
            b"P5 3 3 256 \x01\0\0\xff\0\0\0\0\0\0\0\0\0\0\0\0\0\x01",
            256,
            [256, 255, 0, 0, 0, 0, 0, 0, 1],
        ),
        (
            b"P2\r# one\n# two\n\t003 3 # side\n300 0 1\r2\n3 4  5\n\n6\t7 300",
            300,
            [0, 1, 2, 3, 4, 5, 6, 7, 300],
        ),
        (
            b"P2 3 3 9\n\n 000000009 1 2 3 4 5 6 7 8 \n \n",
            9,
            [9, 1, 2, 3, 4, 5, 6, 7, 8],
        ),
    ];
    for (bytes, maxval, heights) in cases {
        let whole = read_whole(rt.alloc(), bytes)?;
        assert!(rt; is_nine(&whole, maxval, heights));
        let parts = read_by_bytes(rt.alloc(), bytes)?;
        assert!(rt; is_nine(&parts, maxval, heights));
    }
    Ok(())
}

#[test]
fn a_file_is_refused_for_its_first_cause(rt: HostRuntime) {
    let cases: [(&[u8], PgmFault); 25] = [
        (b"", PgmFault::Truncated),
        (b"P6", PgmFault::BadMagic),
        (b"p5 3 3 255\n", PgmFault::BadMagic),
        (b"P5x", PgmFault::BadHeader { at: 2 }),
        (b"P5 3 x", PgmFault::BadHeader { at: 5 }),
        (b"P5\n3# x\n3\n255\n", PgmFault::BadHeader { at: 4 }),
        (b"P5 3 3 255# x\n", PgmFault::BadHeader { at: 10 }),
        (b"P5 1234567890", PgmFault::BadHeader { at: 12 }),
        (b"P5 123456789", PgmFault::Truncated),
        (b"P5 3 3 0\n", PgmFault::BadMaxval),
        (b"P5 5 3 65536\n", PgmFault::BadMaxval),
        (b"P5 5 3 255\n", PgmFault::NotSquare),
        (b"P5 2 2 255\n", PgmFault::BadSide),
        (b"P5 4 4 255\n", PgmFault::BadSide),
        (b"P2 4097 4097 9 ", PgmFault::BadSide),
        (b"P5 4 4 255", PgmFault::Truncated),
        (
            b"P5\n3 3\n9\n\0\0\0\0\0\0\0\0\0\0",
            PgmFault::Trailing { at: 18 },
        ),
        (b"P2 3 3 9 0 0 x", PgmFault::BadSample { at: 13 }),
        (
            b"P2 3 3 9 0 0 0 0 0 0 0 0 0x",
            PgmFault::BadSample { at: 26 },
        ),
        (
            b"P2 3 3 9 0 0 0 0 0 0 0 0 0 x",
            PgmFault::Trailing { at: 27 },
        ),
        (
            b"P5\n# made by hand\n3 3\n9\n\0\0\0\0\x0a\0\0\0\0",
            PgmFault::AboveMaxval { index: 4 },
        ),
        (
            b"P5 3 3 300\n\0\x01\x01\x2d\0\x02",
            PgmFault::AboveMaxval { index: 1 },
        ),
        (b"P2 3 3 9 0 0 0 0 10 x", PgmFault::AboveMaxval { index: 4 }),
        (b"P2 3 3 9 0 0 0 0 10", PgmFault::AboveMaxval { index: 4 }),
        (b"P2 3 3 9 0 0 0 0 9", PgmFault::Truncated),
    ];
    for (bytes, fault) in cases {
        assert_eq!(rt; read_whole(rt.alloc(), bytes).err(), Some(fault));
        assert_eq!(rt; read_by_bytes(rt.alloc(), bytes).err(), Some(fault));
    }
}

#[test]
fn each_refusal_has_its_text(rt: HostRuntime) -> Result<(), Fail> {
    let cases = [
        (PgmFault::BadMagic, "bad magic"),
        (PgmFault::BadHeader { at: 7 }, "bad header at 7"),
        (PgmFault::HeaderTooLong, "header too long"),
        (PgmFault::BadMaxval, "bad maxval"),
        (PgmFault::NotSquare, "not square"),
        (PgmFault::BadSide, "bad side"),
        (PgmFault::Truncated, "truncated"),
        (PgmFault::BadSample { at: 8 }, "bad sample at 8"),
        (
            PgmFault::AboveMaxval { index: 9 },
            "above maxval at sample 9",
        ),
        (PgmFault::Trailing { at: 31 }, "trailing byte at 31"),
        (PgmFault::NoMemory, "out of memory"),
        (PgmFault::TooLong, "file too long"),
    ];
    for (fault, text) in cases {
        let told = format!(in rt.alloc(); "{fault}")?;
        assert_eq!(rt; told.as_str(), text);
    }
    Ok(())
}
