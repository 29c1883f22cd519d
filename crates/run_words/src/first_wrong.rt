//! The first word that is wrong, and what is wanted in its place.

ghost use Rattle.std.specs.Prelude.{◌≡◌, Some, IfSome};
ghost use Rattle.run_words.specs.Words.{first_wanted, first_needed};

use crate::table::{Stage, Wanted};

/// What is wrong with words that are no command.
#[derive(Clone, Copy)]
pub struct WordFault<'a> {
    /// The place of the first word that is wrong, counted from 0; the number of the words where one
    /// more is wanted.
    pub place: usize,
    /// What is wanted in that place; None where the command is whole before it, and nothing may follow.
    pub wanted: Option<Wanted>,
    /// All the words.
    pub words: &'a [String],
}

/// What is wanted next; None where nothing may follow.
pub(crate) fn first_of(stage: Stage) -> Option<Wanted>
    ensures { result ≡ first_wanted stage.now }
{
    match stage {
        [] => None,
        [wanted, ..] => Some(*wanted),
    }
}

/// What has to stand next; None where the command is whole, though it may go on.
pub(crate) fn needed_of(stage: Stage) -> Option<Wanted>
    ensures needed { result ≡ first_needed stage.now }
    ensures wanted { IfSome result (λ wanted. first_wanted stage.now ≡ Some wanted) }
{
    match first_of(stage) {
        Some(Wanted::Keep) => None,
        first => first,
    }
}
