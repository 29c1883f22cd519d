//! A sink over a writer of std.

ghost use Rattle.std.specs.Prelude.{◌≡◌, ◌<◌, ◌≤◌, ℕ, false, IfOk, length};
ghost use Rattle.roam_edge.specs.Fault.{HasCause};
ghost use Rattle.roam_edge.specs.Sink.{Appends, AppendsSome};

use crate::{Failed, Sink};
use std::io::Write;

/// A sink that hands its bytes to a writer, and tells them where the writer does.
#[derive(Drop)]
pub struct StdSink<W: Write> {
    writer: W,
    faults: u64,
    late: bool,
}

impl<W: Write> StdSink<W> {
    /// A sink over this writer.
    pub fn new(writer: W) -> StdSink<W>
        ensures contents { ⟦<StdSink<W> as Sink>⟧.contents result ≡ W.contents writer }
        ensures faults { ⟦<StdSink<W> as Sink>⟧.faults result ≡ 0 }
        ensures late { ⟦<StdSink<W> as Sink>⟧.late result ≡ false }
    {
        StdSink {
            writer,
            faults: 0,
            late: false,
        }
    }
}

impl<W: Write> Sink for StdSink<W> {
    ghost contents = { λ s. W.contents s.writer };

    ghost faults = { λ s. s.faults };

    ghost late = { λ s. s.late };

    fn write(&mut self, piece: &[u8]) -> Result<(), Failed> {
        self.late = self.late || self.faults > 0;
        write_all(&mut self.writer, &mut self.faults, piece)
    }
}

/// Hands the whole piece to the writer, in as many writes as it takes.
///
/// The first error, and a write that takes nothing, counts as a fault and ends the call.
pub(crate) fn write_all<W: Write>(
    writer: &mut W,
    faults: &mut u64,
    piece: &[u8],
) -> Result<(), Failed>
    ensures bytes { Appends (W.contents writer.old) (W.contents writer.new) piece.now result }
    ensures faults { HasCause faults.old faults.new result }
{
    let mut done = 0;
    while done < piece.len() {
        match write_some(writer, &piece[done..]) {
            Ok(count) => done += count,
            Err(failed) => {
                *faults = faults.saturating_add(1);
                return Err(failed);
            }
        }
    }
    Ok(())
}

/// Hands a prefix of the piece to the writer, and answers its length, which is not 0.
fn write_some<W: Write>(writer: &mut W, piece: &[u8]) -> Result<usize, Failed>
    ensures size { IfOk result (λ k. (0 < k) × (k ≤ length piece.now)) }
    ensures bytes { AppendsSome (W.contents writer.old) (W.contents writer.new) piece.now result }
{
    match writer.write(piece) {
        Ok(0) => Err(Failed),
        Ok(count) => Ok(count),
        Err(_) => Err(Failed),
    }
}
