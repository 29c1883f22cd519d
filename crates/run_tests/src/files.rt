//! Grids and scripts of the tests, each behind a function, so that no proof carries their bytes.

/// The flat grid of nine points.
pub(crate) fn flat() -> &'static [u8] {
    b"P5\n3 3\n65535\n\0\0\0\0\0\0\0\0\0\0\0\0\0\0\0\0\0\0"
}

/// Nine points, of which the middle is 10 high: triangles 2 and 3 have thickness 20.
pub(crate) fn hill() -> &'static [u8] {
    b"P5\n3 3\n65535\n\0\0\0\0\0\0\0\0\0\n\0\0\0\0\0\0\0\0"
}

/// Twenty-five points, of which the second of the lowest row is 10 high.
pub(crate) fn corner_hill() -> &'static [u8] {
    b"P5\n5 5\n65535\n\0\0\0\0\0\0\0\0\0\0\0\0\0\0\0\0\0\0\0\0\0\0\0\0\0\0\0\0\0\0\0\0\0\0\0\0\0\0\0\0\0\0\0\n\0\0\0\0\0\0"
}

/// As the one before, with height 10 at the fourth point of the uppermost row too.
pub(crate) fn two_peaks() -> &'static [u8] {
    b"P5\n5 5\n65535\n\0\0\0\0\0\0\0\n\0\0\0\0\0\0\0\0\0\0\0\0\0\0\0\0\0\0\0\0\0\0\0\0\0\0\0\0\0\0\0\0\0\0\0\n\0\0\0\0\0\0"
}

/// The finest mesh of the hill.
pub(crate) fn hill_mesh() -> &'static [u8] {
    b"v 0 0 0\nv 2 0 0\nv 1 1 10\nv 0 2 0\nv 2 2 0\nf 3 1 2\nf 3 4 1\nf 3 5 4\nf 3 2 5\n"
}

/// Two frames, and the camera moves between them: 25 bytes.
pub(crate) fn flight() -> &'static [u8] {
    b"frame\ncamera 4 4 0\nframe\n"
}

/// The words of a command that is accepted.
pub(crate) const WORDS: [&str; 6] = ["mesh", "g", "s", "out", "9", "1"];
