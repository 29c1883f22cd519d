//! Why a line of a script is refused.

ghost use Rattle.std.specs.Prelude.{◌≡◌};
ghost use Rattle.roam_script.specs.FaultNumber.{script_fault_number};

use thiserror::Error;

/// Why a line of a script is refused. Fields are counted from 1 behind the first field, the command.
#[derive(Clone, Copy, Debug, PartialEq, Eq, Error)]
pub enum ScriptFault {
    /// The line has more than 200 bytes, a CR counted and the LF not.
    #[error("line too long")]
    LineTooLong,
    /// The first field is no command.
    #[error("unknown command")]
    UnknownCommand,
    /// There are fewer or more fields behind the command than it has.
    #[error("wrong fields")]
    WrongFields,
    /// This field is the first that fails, and is no number.
    #[error("bad number in field {field}")]
    BadNumber {
        /// The number of the field.
        field: u32,
    },
    /// This field is the first that fails, and is a number out of its range.
    #[error("out of range in field {field}")]
    OutOfRange {
        /// The number of the field.
        field: u32,
    },
    /// Ten million lines stand before this one.
    #[error("too many lines")]
    TooManyLines,
    /// 999,999 frames were made before this one.
    #[error("too many frames")]
    TooManyFrames,
    /// Six planes are in force.
    #[error("too many planes")]
    TooManyPlanes,
}

impl ScriptFault {
    /// The number of this kind of refusal, from 1 to 8.
    pub fn number(self) -> u8
        ensures { result ≡ script_fault_number self }
    {
        match self {
            ScriptFault::LineTooLong => 1,
            ScriptFault::UnknownCommand => 2,
            ScriptFault::WrongFields => 3,
            ScriptFault::BadNumber { .. } => 4,
            ScriptFault::OutOfRange { .. } => 5,
            ScriptFault::TooManyLines => 6,
            ScriptFault::TooManyFrames => 7,
            ScriptFault::TooManyPlanes => 8,
        }
    }
}
