//! A call of a shelf, by its kind and its number.

ghost use Rattle.std.specs.Prelude.{◌≡◌};
ghost use Rattle.edge_doubles.specs.MemShelf.{names_call};

/// A call of a shelf that is to fail, counted from 1 among the calls of its kind.
#[derive(Debug, Clone, Copy, PartialEq, Eq)]
pub enum ShelfCall {
    /// The call of `open_named` with this number.
    Open(u64),
    /// The call of `read` with this number.
    Read(u64),
}

/// Whether the list names this call.
pub(crate) fn is_named(calls: &[ShelfCall], call: ShelfCall) -> bool
    ensures { result ≡ names_call calls.now call }
{
    calls.iter().any(|named| *named == call)
}
