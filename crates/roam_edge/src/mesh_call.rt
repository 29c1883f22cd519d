//! A call of a sink of meshes, by its kind and its number.

ghost use Rattle.std.specs.Prelude.{◌≡◌};
ghost use Rattle.roam_edge.specs.MemMeshes.{names};

/// A call of a sink of meshes that is to fail, counted from 1 among the calls of its kind.
#[derive(Debug, Clone, Copy, PartialEq, Eq)]
pub enum MeshCall {
    /// The call of `begin` with this number.
    Begin(u64),
    /// The call of `write` with this number.
    Write(u64),
    /// The call of `finish` with this number.
    Finish(u64),
}

/// Whether the list names this call.
pub(crate) fn is_named(calls: &[MeshCall], call: MeshCall) -> bool
    ensures { result ≡ names calls.now call }
{
    calls.iter().any(|named| *named == call)
}
