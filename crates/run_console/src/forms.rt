//! The forms of the words of a command, by the table.

use run_words::{Row, Stage, Wanted};
use std::fmt;

/// One form of the words of a command.
#[derive(Clone, Copy)]
pub(crate) struct Form {
    pub(crate) name: &'static str,
    /// The task of `certify`; of other commands it is empty.
    pub(crate) task: &'static str,
    pub(crate) places: Stage,
    /// What a mesh is fitted to, and whether points are kept.
    pub(crate) goal: Option<(&'static Row, bool)>,
}

impl fmt::Display for Form {
    fn fmt<W: fmt::Write>(&self, f: &mut fmt::Formatter<W>) -> fmt::Result {
        f.write_str(self.name)?;
        if !self.task.is_empty() {
            write!(f, " {}", self.task)?;
        }
        match self.goal {
            Some((goal, keeps)) => write_goal_form(f, self.places, goal, keeps),
            None => write_labels(f, self.places),
        }
    }
}

/// Whether the last place is what a mesh is fitted to.
pub(crate) fn has_goal(places: Stage) -> bool {
    match places.last() {
        Some(Wanted::Goal) => true,
        _ => false,
    }
}

/// Whether points may be kept.
pub(crate) fn has_keep(places: Stage) -> bool {
    places.iter().any(|wanted| *wanted == Wanted::Keep)
}

/// Writes the names of these places, with those of what a mesh is fitted to in place of the last one.
pub(crate) fn write_goal_form<W: fmt::Write>(
    f: &mut fmt::Formatter<W>,
    places: Stage,
    goal: &Row,
    keeps: bool,
) -> fmt::Result {
    write_labels(f, places)?;
    write!(f, " {}", goal.word)?;
    for wanted in goal.behind {
        if *wanted == Wanted::Keep && !keeps {
            break;
        }
        write!(f, " {}", label(*wanted))?;
    }
    Ok(())
}

/// Writes the names of these places, but for that of a goal.
pub(crate) fn write_labels<W: fmt::Write>(f: &mut fmt::Formatter<W>, places: Stage) -> fmt::Result {
    for wanted in places {
        if *wanted != Wanted::Goal {
            write!(f, " {}", label(*wanted))?;
        }
    }
    Ok(())
}

/// The name of a place of a command, as the usage has it.
pub(crate) fn label(wanted: Wanted) -> &'static str {
    match wanted {
        Wanted::Command => "COMMAND",
        Wanted::Task => "TASK",
        Wanted::Goal => "GOAL",
        Wanted::Error => "E",
        Wanted::Grid => "GRID",
        Wanted::Script => "SCRIPT",
        Wanted::Mesh => "OBJ",
        Wanted::Certificate => "CERT",
        Wanted::Points => "POINTS",
        Wanted::Prefix => "PREFIX",
        Wanted::X => "X",
        Wanted::Y => "Y",
        Wanted::Z => "Z",
        Wanted::Level => "N",
        Wanted::Seed => "SEED",
        Wanted::Budget => "BUDGET",
        Wanted::Tolerance => "TOLERANCE",
        Wanted::Spacing => "SPACING",
        Wanted::Keep => "keep",
    }
}
