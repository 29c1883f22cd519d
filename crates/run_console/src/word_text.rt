//! What is said of words that are no command.

use crate::forms::{has_goal, has_keep, label, write_goal_form, write_labels};
use crate::quoted::Quoted;
use roam_edge::LONGEST_PREFIX;
use run_words::{
    GREATEST_BUDGET, GREATEST_FILE_LEVEL, GREATEST_SEED, GREATEST_SPACING, GREATEST_TOLERANCE,
    LEAST_BUDGET, REACH, Row, Stage, Wanted, WordFault, commands, goals, row_of, tasks,
};
use std::fmt;

/// What is said of words that are no command, in one line.
#[derive(Clone, Copy)]
pub struct WordText<'a> {
    /// What is wrong with them.
    pub fault: WordFault<'a>,
}

impl<'a> fmt::Display for WordText<'a> {
    fn fmt<W: fmt::Write>(&self, f: &mut fmt::Formatter<W>) -> fmt::Result {
        let fault = self.fault;
        match (fault.wanted, fault.words.get(fault.place)) {
            (Some(Wanted::Command), None) => {
                f.write_str("no word is given, and a command is wanted")
            }
            (Some(Wanted::Task), None) => {
                f.write_str("certify wants ")?;
                write_choice(f, tasks())?;
                f.write_str(" behind it")
            }
            (Some(wanted), Some(word)) => write_wrong(f, wanted, word.as_str(), fault.words),
            (_, _) => match form_of(fault.words) {
                Some(form) => write_count(f, &form),
                None => f.write_str("the words are no command"),
            },
        }
    }
}

/// Writes which word is wrong, and what is wanted in its place.
fn write_wrong<W: fmt::Write>(
    f: &mut fmt::Formatter<W>,
    wanted: Wanted,
    word: &str,
    words: &[String],
) -> fmt::Result {
    let word = Quoted(word);
    match wanted {
        Wanted::Command => write!(
            f,
            "no command {word}; the commands are info, try, mesh, strip, least, measure, fit and certify"
        ),
        Wanted::Task => {
            f.write_str("certify wants ")?;
            write_choice(f, tasks())?;
            write!(f, " behind it, and not {word}")
        }
        Wanted::Goal | Wanted::Keep => write_fitting(f, wanted, word, words),
        _ => {
            write!(f, "{} is {word}: ", label(wanted))?;
            write_wanted(f, wanted)?;
            write_other_count(f, words)
        }
    }
}

/// Writes the words of these rows, of which one is wanted.
fn write_choice<W: fmt::Write>(f: &mut fmt::Formatter<W>, rows: &[Row]) -> fmt::Result {
    let mut left = rows.len();
    for row in rows {
        write!(f, "'{}'", row.word)?;
        left = left.saturating_sub(1);
        match left {
            0 => {}
            1 => f.write_str(" or ")?,
            _ => f.write_str(", ")?,
        }
    }
    Ok(())
}

/// Writes what is wanted in the place of this word: what a mesh is fitted to, or points that are kept and nothing else.
fn write_fitting<W: fmt::Write>(
    f: &mut fmt::Formatter<W>,
    wanted: Wanted,
    word: Quoted<'_>,
    words: &[String],
) -> fmt::Result {
    if let Some(form) = form_of(words) {
        write_name(f, &form)?;
        f.write_str(" wants ")?;
        if wanted == Wanted::Goal {
            write_choice(f, goals())?;
            f.write_str(" behind")?;
            write_labels(f, form.behind)?;
        } else {
            f.write_str("'keep' and POINTS behind SPACING, or nothing")?;
        }
    }
    write!(f, ", and not {word}")
}

/// Writes how many words the command wants, where another number of them is given.
fn write_other_count<W: fmt::Write>(f: &mut fmt::Formatter<W>, words: &[String]) -> fmt::Result {
    match form_of(words) {
        Some(form) if !is_asked(&form) => {
            f.write_str("; ")?;
            write_count(f, &form)
        }
        _ => Ok(()),
    }
}

/// The places of the command that some words name, and how many words stand behind its name.
#[derive(Clone, Copy)]
struct Given {
    name: &'static str,
    /// The task of `certify`; of other commands it is empty.
    task: &'static str,
    behind: Stage,
    given: usize,
}

/// The places of the command that the first words name.
fn form_of(words: &[String]) -> Option<Given> {
    let [name, rest @ ..] = words else {
        return None;
    };
    let row = row_of(commands(), name.as_str())?;
    match (row.behind, rest) {
        ([Wanted::Task], [task, rest @ ..]) => {
            let task = row_of(tasks(), task.as_str())?;
            Some(given_words(row.word, task.word, task.behind, rest.len()))
        }
        _ => Some(given_words(row.word, "", row.behind, rest.len())),
    }
}

/// The places with these parts.
fn given_words(name: &'static str, task: &'static str, behind: Stage, given: usize) -> Given {
    Given {
        name,
        task,
        behind,
        given,
    }
}

/// How many words are wanted in these places: a goal is its name, a number and the spacing.
fn count_of(behind: Stage) -> usize {
    if has_goal(behind) {
        behind.len().saturating_add(2)
    } else {
        behind.len()
    }
}

/// Whether as many words are given as the command wants.
fn is_asked(form: &Given) -> bool {
    let count = count_of(form.behind);
    form.given == count || (has_goal(form.behind) && form.given == count.saturating_add(2))
}

/// Writes how many words the command wants behind its name, how many are there, and which they are.
fn write_count<W: fmt::Write>(f: &mut fmt::Formatter<W>, form: &Given) -> fmt::Result {
    write_asked(f, form)?;
    match form.given {
        1 => f.write_str("1 was given:")?,
        count => write!(f, "{count} were given:")?,
    }
    write_places(f, form.behind)
}

/// Writes the command, and how many words it wants behind its name.
fn write_asked<W: fmt::Write>(f: &mut fmt::Formatter<W>, form: &Given) -> fmt::Result {
    write_name(f, form)?;
    match count_of(form.behind) {
        1 => f.write_str(" wants 1 word behind it, "),
        count if has_goal(form.behind) => {
            let more = count.saturating_add(2);
            write!(f, " wants {count} or {more} words behind it, ")
        }
        count => write!(f, " wants {count} words behind it, "),
    }
}

/// Writes the name of the command, and of `certify` its task.
fn write_name<W: fmt::Write>(f: &mut fmt::Formatter<W>, form: &Given) -> fmt::Result {
    f.write_str(form.name)?;
    if form.task.is_empty() {
        Ok(())
    } else {
        write!(f, " {}", form.task)
    }
}

/// Writes which words a command wants behind its name, in each of its forms.
fn write_places<W: fmt::Write>(f: &mut fmt::Formatter<W>, behind: Stage) -> fmt::Result {
    if !has_goal(behind) {
        return write_labels(f, behind);
    }
    let mut between = "";
    for goal in goals() {
        if has_keep(goal.behind) {
            f.write_str(between)?;
            write_goal_form(f, behind, goal, false)?;
            between = ",";
        }
        f.write_str(between)?;
        write_goal_form(f, behind, goal, true)?;
        between = ", or";
    }
    Ok(())
}

/// Writes what is wanted in a place.
fn write_wanted<W: fmt::Write>(f: &mut fmt::Formatter<W>, wanted: Wanted) -> fmt::Result {
    match wanted {
        Wanted::Prefix => write!(f, "1 to {LONGEST_PREFIX} bytes are wanted"),
        Wanted::X | Wanted::Y | Wanted::Z => {
            write!(f, "a whole number from -{REACH} to {REACH} is wanted")
        }
        Wanted::Error => f.write_str(
            "a number from 0 to 65535.999 with at most three places behind a point is wanted",
        ),
        Wanted::Level => write_range(f, 1, u64::from(GREATEST_FILE_LEVEL)),
        Wanted::Seed => write_range(f, 0, u64::from(GREATEST_SEED)),
        Wanted::Budget => write_range(f, u64::from(LEAST_BUDGET), u64::from(GREATEST_BUDGET)),
        Wanted::Tolerance => write_range(f, 0, GREATEST_TOLERANCE),
        Wanted::Spacing => write_range(f, 1, u64::from(GREATEST_SPACING)),
        _ => f.write_str("another word is wanted"),
    }
}

/// Writes that a whole number within these bounds is wanted.
fn write_range<W: fmt::Write>(f: &mut fmt::Formatter<W>, low: u64, high: u64) -> fmt::Result {
    write!(f, "a whole number from {low} to {high} is wanted")
}
