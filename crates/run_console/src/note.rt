//! What the system said of the last call that failed.

ghost use Rattle.std.specs.Prelude.{◌≡◌};

use std::cell::Cell;
use std::io;

/// What was tried of a file.
#[derive(Clone, Copy, Debug, PartialEq, Eq)]
pub enum Step {
    /// It was opened, to be read or to be written.
    Open,
    /// It was read.
    Read,
    /// It was written.
    Write,
}

/// A call of the system that failed.
#[derive(Clone, Copy)]
pub struct Failure {
    /// What was tried.
    pub step: Step,
    /// What the system says.
    pub error: io::Error,
}

/// Keeps what the system said of the last call that failed, and how many files were opened.
///
/// It is shared by the files that are noted here, so it is changed through a shared reference: no
/// clause speaks of it.
#[derive(Drop)]
pub struct Note {
    failure: Cell<Option<Failure>>,
    opened: Cell<u64>,
}

impl Note {
    /// A note of nothing.
    pub fn new() -> Note {
        Note {
            failure: Cell::new(None),
            opened: Cell::new(0),
        }
    }

    /// The last call that failed, if one did.
    pub fn failure(&self) -> Option<Failure> {
        self.failure.get()
    }

    /// How often a file was opened, whatever the answer was.
    pub fn opened(&self) -> u64 {
        self.opened.get()
    }

    /// Counts a file that is opened.
    pub(crate) fn count(&self) {
        self.opened.set(self.opened.get().saturating_add(1));
    }

    /// Hands an answer on, and keeps what the system says of one that failed.
    pub(crate) fn keep<T>(&self, step: Step, answer: io::Result<T>) -> io::Result<T>
        ensures { result ≡ answer }
    {
        if let Err(error) = &answer {
            self.failure.set(Some(Failure {
                step,
                error: *error,
            }));
        }
        answer
    }
}
