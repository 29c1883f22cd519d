//! How a run ends.

ghost use Rattle.std.specs.Prelude.{◌≡◌};
ghost use Rattle.run_laws.specs.Status.{exit_status};

/// How a run ended. Its number is the exit status of the program.
#[derive(Clone, Copy, Debug, PartialEq, Eq)]
pub enum Status {
    /// The command was carried out, and the last of its files, if it has any, was read to its end.
    Done = 0,
    /// Out of memory. Nothing was written, and no script and no points were opened. The words are a command, and where
    /// they name a grid, its header was read and is accepted, as far as the shelf tells its files. A check may also end
    /// so at its later files. A program that ends so after every header, and at every `try`, is not ruled out: no
    /// clause can know how much memory there is.
    NoMemory = 1,
    /// The words are no command. Nothing was opened or written.
    Usage = 2,
    /// The grid is refused; the report says why.
    GridRefused = 3,
    /// A line of the script is refused, or of the points that a mesh keeps; the report says why, after the lines of the
    /// frames before it.
    ScriptRefused = 4,
    /// A file could not be opened or read.
    ReadFault = 5,
    /// A mesh or the report could not be written.
    WriteFault = 6,
    /// The certificate or the mesh of a check is rejected; the report says by which test.
    Rejected = 7,
}

impl Status {
    /// The exit status of the program for a run that ended so.
    pub fn number(self) -> u8
        ensures { result ≡ exit_status self }
    {
        self as u8
    }
}
