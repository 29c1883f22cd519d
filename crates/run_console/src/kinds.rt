//! What kind of file begins with some bytes.

/// The beginnings of kinds of files, each with the name of its kind.
const KINDS: [(&[u8], &str); 22] = [
    (b"\x89PNG", "a PNG image"),
    (b"II*\0", "a TIFF image"),
    (b"MM\0*", "a TIFF image"),
    (b"II+\0", "a TIFF image"),
    (b"MM\0+", "a TIFF image"),
    (b"\xff\xd8\xff", "a JPEG image"),
    (b"\x1f\x8b", "gzip data, which has to be unpacked"),
    (b"PK\x03\x04", "a zip archive, which has to be unpacked"),
    (b"BZh", "bzip2 data, which has to be unpacked"),
    (b"\xfd7zXZ", "xz data, which has to be unpacked"),
    (b"\x93NUMPY", "a NumPy array"),
    (b"\x89HDF", "an HDF5 file"),
    (b"CDF", "a NetCDF file"),
    (b"ncols", "an ASCII grid of Esri's form"),
    (b"NCOLS", "an ASCII grid of Esri's form"),
    (b"P1", "a Netpbm bitmap, and not a PGM file"),
    (b"P4", "a Netpbm bitmap, and not a PGM file"),
    (b"P3", "a Netpbm colour image, and not a PGM file"),
    (b"P6", "a Netpbm colour image, and not a PGM file"),
    (b"P7", "a PAM image, and not a PGM file"),
    (b"\xef\xbb\xbf", "a text with a byte order mark"),
    (b"v ", "an OBJ mesh"),
];

/// The kind of the file that begins so, if it is known; a grid is none of them.
pub(crate) fn kind_of(head: &[u8]) -> Option<&'static str> {
    for (start, name) in &KINDS {
        if head.starts_with(start) {
            return Some(name);
        }
    }
    if is_script(head) {
        Some("a script, whose name stands behind that of the grid")
    } else {
        None
    }
}

/// Whether a file that begins so may be a script: its first word is one of a script's.
fn is_script(head: &[u8]) -> bool {
    let words = [
        b"frame".as_slice(),
        b"camera ".as_slice(),
        b"set ".as_slice(),
        b"plane ".as_slice(),
        b"noplanes".as_slice(),
        b"budget ".as_slice(),
        b"raise ".as_slice(),
        b"#".as_slice(),
    ];
    for word in &words {
        if head.starts_with(word) {
            return true;
        }
    }
    false
}
