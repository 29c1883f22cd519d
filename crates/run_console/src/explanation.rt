//! What the program says on standard error.

ghost use Rattle.std.specs.Prelude.{◌≡◌};
ghost use Rattle.run_console.specs.Explanation.{topic_of};

use run_laws::Status;

/// What standard error speaks of.
#[derive(Clone, Copy, Debug, PartialEq, Eq)]
pub enum Topic {
    /// Nothing is said.
    Nothing,
    /// Memory that was not there.
    Memory,
    /// Words that are no command.
    Words,
    /// A refused grid.
    Grid,
    /// A script without a frame.
    Frames,
    /// A file that could not be opened or read.
    File,
    /// A mesh or a report that could not be written.
    Output,
}

/// What standard error speaks of, by the status, whether the report has a line, and whether who
/// reads it went away.
pub fn topic_after(status: Status, told: bool, cut: bool) -> Topic
    ensures { result ≡ topic_of status told cut }
{
    match status {
        Status::Done if !told => Topic::Frames,
        Status::NoMemory => Topic::Memory,
        Status::Usage => Topic::Words,
        Status::GridRefused => Topic::Grid,
        Status::ReadFault => Topic::File,
        Status::WriteFault if !cut => Topic::Output,
        Status::Done | Status::ScriptRefused | Status::WriteFault | Status::Rejected => {
            Topic::Nothing
        }
    }
}
