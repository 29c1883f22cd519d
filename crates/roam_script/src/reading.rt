//! From the bytes of a line to what it says.

ghost use Rattle.std.specs.Prelude.{◌≡◌, ◌≤◌};
ghost use Rattle.mesh_defs.specs.declared.level.TheConstants.{GREATEST_LEVEL};
ghost use Rattle.text_laws.specs.Fields.{fields_of};
ghost use Rattle.roam_script.specs.LineText.{line_in, fields_line, counted_line};

use crate::command::Command;
use crate::fields::{Fields, first_field, without_cr};
use crate::limits::{Limits, MOST_FRAMES, MOST_LINE_BYTES, MOST_LINES, MOST_PLANES};
use crate::line::Line;
use crate::script_fault::ScriptFault;

/// The line that these bytes are, or its first refusal. The LF is none of them.
///
/// Of a line of more than 200 bytes the first 201 are enough: what follows changes no answer.
/// Cost (not proved): a few steps a byte. Takes no memory.
pub fn read_line(bytes: &[u8], limits: &Limits) -> Result<Line, ScriptFault>
    requires level { limits.now.n ≤ GREATEST_LEVEL }
    ensures same { result ≡ line_in limits.now bytes.now }
{
    if limits.line > MOST_LINES {
        return Err(ScriptFault::TooManyLines);
    }
    if bytes.len() > MOST_LINE_BYTES {
        return Err(ScriptFault::LineTooLong);
    }
    line_of_fields(without_cr(bytes), limits)
}

/// The line of the fields of these bytes.
fn line_of_fields(bytes: &[u8], limits: &Limits) -> Result<Line, ScriptFault>
    requires level { limits.now.n ≤ GREATEST_LEVEL }
    ensures { result ≡ fields_line limits.now (fields_of bytes.now) }
{
    let Some((word, rest)) = first_field(bytes) else {
        return Ok(Line::Blank);
    };
    if word.starts_with(b"#") {
        return Ok(Line::Blank);
    }
    let Some(command) = Command::named(word) else {
        return Err(ScriptFault::UnknownCommand);
    };
    let mut fields = Fields { rest, next: 1 };
    if fields.count() != command.fields() {
        return Err(ScriptFault::WrongFields);
    }
    counted(command.line(&mut fields, limits)?, limits)
}

/// The line, unless it is one plane or one frame too many.
fn counted(line: Line, limits: &Limits) -> Result<Line, ScriptFault>
    ensures { result ≡ counted_line limits.now (Ok line) }
{
    match line {
        Line::Plane { .. } if limits.planes >= MOST_PLANES => Err(ScriptFault::TooManyPlanes),
        Line::Frame if limits.frames >= MOST_FRAMES => Err(ScriptFault::TooManyFrames),
        _ => Ok(line),
    }
}
