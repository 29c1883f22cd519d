//! Words of the command line and names of files in a line of text.

use std::fmt;

/// How many characters of a text are shown.
const MOST_SHOWN: usize = 100;

/// A text between two marks, in one line: a control character is shown as a question mark, and what
/// comes behind 100 characters as two points.
#[derive(Clone, Copy)]
pub struct Quoted<'a>(pub &'a str);

impl<'a> fmt::Display for Quoted<'a> {
    fn fmt<W: fmt::Write>(&self, f: &mut fmt::Formatter<W>) -> fmt::Result {
        f.write_str("'")?;
        for (place, letter) in self.0.chars().enumerate() {
            if place == MOST_SHOWN {
                f.write_str("..")?;
                break;
            }
            f.write_char(if letter.is_control() { '?' } else { letter })?;
        }
        f.write_str("'")
    }
}
