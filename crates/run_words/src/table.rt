//! The table of the commands: the words of each, one behind the other.

ghost use Rattle.std.specs.Prelude.{◌≡◌, map, option_map};
ghost use Rattle.run_words.specs.Table.{commands as commands_seen, tasks as tasks_seen, goals as goals_seen};
ghost use Rattle.run_words.specs.Table.{row_of as row_of_seen};
ghost use Rattle.run_words.specs.TableView.{row_seen};

/// What is wanted in a place of a command.
#[derive(Clone, Copy, Debug, PartialEq, Eq)]
pub enum Wanted {
    /// The name of a command.
    Command,
    /// A task of `certify`.
    Task,
    /// What a mesh is fitted to.
    Goal,
    /// The greatest error, in units of height.
    Error,
    /// The name of the grid's file.
    Grid,
    /// The name of the script's file.
    Script,
    /// The name of the file of a mesh that is checked.
    Mesh,
    /// The name of a certificate's file.
    Certificate,
    /// The name of the file with the points that a mesh keeps.
    Points,
    /// What the names of meshes begin with.
    Prefix,
    /// The first coordinate of a camera.
    X,
    /// The second coordinate of a camera.
    Y,
    /// The third coordinate of a camera.
    Z,
    /// The level of a generated grid.
    Level,
    /// The seed of a generated grid.
    Seed,
    /// The greatest number of triangles.
    Budget,
    /// The greatest priority of a triangle.
    Tolerance,
    /// The world units of a grid step.
    Spacing,
    /// `keep`, which may be left out with what stands behind it.
    Keep,
}

/// What is wanted from a place on, to the end of the command.
pub type Stage = &'static [Wanted];

/// A command by its words; those of a fitted mesh with and without points that are kept.
#[derive(Clone, Copy, Debug, PartialEq, Eq)]
pub enum Kind {
    /// `mesh`.
    Mesh,
    /// `strip`.
    Strip,
    /// `least`.
    Least,
    /// `measure`.
    Measure,
    /// `certify make`.
    Make,
    /// `certify check`.
    Check,
    /// `certify make-fit`.
    MakeFit,
    /// `certify check-fit`.
    CheckFit,
    /// `fit`.
    Fit,
    /// `info`.
    Info,
    /// `try`.
    Try,
}

/// A row of the table.
#[derive(Clone, Copy)]
pub struct Row {
    /// A word.
    pub word: &'static str,
    /// The command that it names; None of `certify`, and of what a mesh is fitted to.
    pub kind: Option<Kind>,
    /// What is wanted behind it.
    pub behind: Stage,
}

/// What a mesh for each frame of a script is made of and written to.
const MESHES: Stage = &[
    Wanted::Grid,
    Wanted::Script,
    Wanted::Prefix,
    Wanted::Budget,
    Wanted::Spacing,
];

const COMMANDS: &[Row] = &[
    Row {
        word: "mesh",
        kind: Some(Kind::Mesh),
        behind: MESHES,
    },
    Row {
        word: "strip",
        kind: Some(Kind::Strip),
        behind: MESHES,
    },
    Row {
        word: "least",
        kind: Some(Kind::Least),
        behind: &[
            Wanted::Grid,
            Wanted::Script,
            Wanted::Prefix,
            Wanted::Tolerance,
            Wanted::Spacing,
        ],
    },
    Row {
        word: "measure",
        kind: Some(Kind::Measure),
        behind: &[
            Wanted::Grid,
            Wanted::Script,
            Wanted::Budget,
            Wanted::Spacing,
        ],
    },
    Row {
        word: "certify",
        kind: None,
        behind: &[Wanted::Task],
    },
    Row {
        word: "fit",
        kind: Some(Kind::Fit),
        behind: &[Wanted::Grid, Wanted::Prefix, Wanted::Goal],
    },
    Row {
        word: "info",
        kind: Some(Kind::Info),
        behind: &[Wanted::Grid],
    },
    Row {
        word: "try",
        kind: Some(Kind::Try),
        behind: &[Wanted::Level, Wanted::Seed],
    },
];

const TASKS: &[Row] = &[
    Row {
        word: "make",
        kind: Some(Kind::Make),
        behind: &[
            Wanted::Grid,
            Wanted::X,
            Wanted::Y,
            Wanted::Z,
            Wanted::Budget,
            Wanted::Spacing,
        ],
    },
    Row {
        word: "check",
        kind: Some(Kind::Check),
        behind: &[
            Wanted::Grid,
            Wanted::Mesh,
            Wanted::Certificate,
            Wanted::Budget,
            Wanted::Spacing,
        ],
    },
    Row {
        word: "make-fit",
        kind: Some(Kind::MakeFit),
        behind: &[Wanted::Grid, Wanted::Goal],
    },
    Row {
        word: "check-fit",
        kind: Some(Kind::CheckFit),
        behind: &[
            Wanted::Grid,
            Wanted::Mesh,
            Wanted::Certificate,
            Wanted::Goal,
        ],
    },
];

const GOALS: &[Row] = &[
    Row {
        word: "error",
        kind: None,
        behind: &[Wanted::Error, Wanted::Spacing, Wanted::Keep, Wanted::Points],
    },
    Row {
        word: "budget",
        kind: None,
        behind: &[Wanted::Budget, Wanted::Spacing],
    },
];

/// The commands; `certify` is named by one word more.
pub fn commands() -> &'static [Row]
    ensures { map row_seen result.now ≡ commands_seen }
{
    COMMANDS
}

/// The tasks of `certify`.
pub fn tasks() -> &'static [Row]
    ensures { map row_seen result.now ≡ tasks_seen }
{
    TASKS
}

/// What a mesh is fitted to: an error, behind which points may be kept, or a budget.
pub fn goals() -> &'static [Row]
    ensures { map row_seen result.now ≡ goals_seen }
{
    GOALS
}

/// The row of a word.
pub fn row_of(rows: &'static [Row], word: &str) -> Option<&'static Row>
    ensures { option_map (λ row. row_seen row.now) result ≡ row_of_seen (map row_seen rows.now) word.now }
{
    match rows {
        [] => None,
        [row, rest @ ..] => {
            if row.word == word {
                Some(row)
            } else {
                row_of(rest, word)
            }
        }
    }
}
