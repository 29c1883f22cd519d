//! A file that a shelf in memory owns.

ghost use Rattle.std.specs.Prelude.{◌≡◌, ◌<◌, true, false, IfSome, IsNone, length, map};
ghost use Rattle.roam_edge.specs.Shelf.{bytes_of};
ghost use Rattle.edge_doubles.specs.MemShelf.{has_name};
ghost use Rattle.edge_doubles.specs.StoredFile.{file_of, bytes_at};

/// A file: its name and its bytes.
#[derive(Drop)]
pub(crate) struct StoredFile {
    pub(crate) name: String,
    pub(crate) bytes: Vec<u8>,
}

/// The place of the first file of this name.
pub(crate) fn place_of(files: &[StoredFile], name: &str) -> Option<usize>
    ensures within { IfSome result (λ i. i < length files.now) }
    ensures bytes { IfSome result (λ i. bytes_at files.now i
        ≡ bytes_of (map file_of files.now) name.now) }
    ensures some { IfSome result (λ _. has_name (map file_of files.now) name.now ≡ true) }
    ensures none { IsNone result → has_name (map file_of files.now) name.now ≡ false }
{
    let mut place = 0;
    for file in files {
        if file.name.as_str() == name {
            return Some(place);
        }
        place += 1;
    }
    None
}
