//! The forms of the words, for whoever asks for them or gives others.

ghost use Rattle.std.specs.Prelude.{◌≡◌, map, string_bytes};
ghost use Rattle.std.specs.List.{list_any};
ghost use Rattle.run_console.specs.Asked.{is_only, is_help, asked_of};

use crate::forms::{Form, has_goal, has_keep};
use run_words::{Row, Stage, Wanted, commands, goals, tasks};

/// The version of the program: that of `CHANGELOG.md`.
pub const VERSION: &str = "roam 1.0";

/// What stands behind the forms of the words, line by line.
const REMARKS: [&str; 6] = [
    "GRID, SCRIPT, OBJ, CERT and POINTS are names of files; PREFIX has 1 to 200 bytes. The others are whole numbers:",
    "BUDGET 2 to 1048576, TOLERANCE 0 to 999999999999, SPACING 1 to 1024, N 1 to 11, SEED 0 to 4294967295,",
    "X, Y and Z -1073741824 to 1073741824. E is a number of units of height from 0 to 65535.999, as 2.5.",
    "examples:",
    "       roam info grid.pgm",
    "       roam mesh grid.pgm script out 2000 90",
];

/// What is asked for with words that are no command.
#[derive(Clone, Copy, Debug, PartialEq, Eq)]
pub enum Asked {
    /// The forms of the words.
    Usage,
    /// The version.
    Version,
}

/// What words ask for that are no command: `--version` alone, `help` alone, or `--help` or `-h`
/// anywhere.
pub fn asked_for(words: &[String]) -> Option<Asked>
    ensures { result ≡ asked_of (map string_bytes words.now) }
{
    if is_only(words, "--version") {
        return Some(Asked::Version);
    }
    if is_only(words, "help") || has_help(words) {
        return Some(Asked::Usage);
    }
    None
}

/// Whether this is the only word.
fn is_only(words: &[String], text: &str) -> bool
    ensures { result ≡ is_only text.now (map string_bytes words.now) }
{
    match words {
        [word] => word.as_str() == text,
        _ => false,
    }
}

/// Whether a word is `--help` or `-h`.
fn has_help(words: &[String]) -> bool
    ensures { result ≡ list_any is_help (map string_bytes words.now) }
{
    words
        .iter()
        .any(|word| word.as_str() == "--help" || word.as_str() == "-h")
}

/// Tells the forms of the words, by the table, and what its names are.
pub fn tell_usage(rt: &impl Eprint) {
    let mut begin = "usage:";
    for row in commands() {
        match row.behind {
            [Wanted::Task] => {
                for task in tasks() {
                    tell_forms(rt, begin, row.word, task.word, task.behind);
                }
            }
            _ => tell_forms(rt, begin, row.word, "", row.behind),
        }
        begin = "      ";
    }
    for line in &REMARKS {
        let _ = rt.eprintln(*line);
    }
}

/// Tells the forms of a command, each on a line.
fn tell_forms(
    rt: &impl Eprint,
    begin: &str,
    name: &'static str,
    task: &'static str,
    places: Stage,
) {
    let form = Form {
        name,
        task,
        places,
        goal: None,
    };
    if !has_goal(places) {
        let _ = eprintln!(rt; "{begin} roam {form}");
        return;
    }
    for goal in goals() {
        if has_keep(goal.behind) {
            tell_goal(rt, begin, form, goal, false);
        }
        tell_goal(rt, begin, form, goal, true);
    }
}

/// Tells the form of a command with this goal.
fn tell_goal(rt: &impl Eprint, begin: &str, form: Form, goal: &'static Row, keeps: bool) {
    let form = Form {
        goal: Some((goal, keeps)),
        ..form
    };
    let _ = eprintln!(rt; "{begin} roam {form}");
}
