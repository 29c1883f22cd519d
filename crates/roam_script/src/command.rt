//! The commands of a script, and the numbers that stand behind each.

ghost use Rattle.std.specs.Prelude.{◌≡◌, ◌≤◌, ℕ, List, length};
ghost use Rattle.mesh_defs.specs.declared.level.TheConstants.{GREATEST_LEVEL};
ghost use Rattle.text_laws.specs.Fields.{fields_of};
ghost use Rattle.roam_script.specs.LineText.{command_in, ranges_of, line_of};

use crate::fields::Fields;
use crate::limits::{
    CAMERA_REACH, GREATEST_OFFSET, GREATEST_RAISE, GREATEST_SLOPE, LEAST_BUDGET, Limits,
};
use crate::line::Line;
use crate::script_fault::ScriptFault;

/// The first field of a line that is neither blank nor a comment.
#[derive(Clone, Copy)]
pub(crate) enum Command {
    /// `frame`
    Frame,
    /// `camera X Y Z`
    Camera,
    /// `set X Y H`
    Set,
    /// `plane A B C D`
    Plane,
    /// `noplanes`
    NoPlanes,
    /// `budget N`
    Budget,
    /// `raise X0 Y0 X1 Y1 DZ`
    Raise,
}

impl Command {
    /// The command that this word is.
    pub(crate) fn named(word: &[u8]) -> Option<Command>
        ensures { result ≡ command_in word.now }
    {
        if word == b"frame".as_slice() {
            Some(Command::Frame)
        } else if word == b"camera".as_slice() {
            Some(Command::Camera)
        } else if word == b"set".as_slice() {
            Some(Command::Set)
        } else if word == b"plane".as_slice() {
            Some(Command::Plane)
        } else if word == b"noplanes".as_slice() {
            Some(Command::NoPlanes)
        } else if word == b"budget".as_slice() {
            Some(Command::Budget)
        } else if word == b"raise".as_slice() {
            Some(Command::Raise)
        } else {
            None
        }
    }

    /// How many fields stand behind the command.
    pub(crate) fn fields(self) -> usize
        ensures count { (limits : Limits) (fields : List (List ℕ))
            → result ≡ length (ranges_of limits self fields) }
    {
        match self {
            Command::Frame | Command::NoPlanes => 0,
            Command::Budget => 1,
            Command::Camera | Command::Set => 3,
            Command::Plane => 4,
            Command::Raise => 5,
        }
    }

    /// The line of this command and these fields, or the first fault of a field.
    pub(crate) fn line(self, fields: &mut Fields<'_>, limits: &Limits) -> Result<Line, ScriptFault>
        requires level { limits.now.n ≤ GREATEST_LEVEL }
        requires first { fields.old.next ≡ 1 }
        requires count { length (fields_of fields.old.rest.now)
            ≡ length (ranges_of limits.now self (fields_of fields.old.rest.now)) }
        ensures { result ≡ line_of limits.now self (fields_of fields.old.rest.now) }
    {
        match self {
            Command::Frame => Ok(Line::Frame),
            Command::Camera => camera(fields),
            Command::Set => set(fields, limits),
            Command::Plane => plane(fields),
            Command::NoPlanes => Ok(Line::NoPlanes),
            Command::Budget => budget(fields, limits),
            Command::Raise => raise(fields, limits),
        }
    }
}

/// The line `camera X Y Z`.
fn camera(fields: &mut Fields<'_>) -> Result<Line, ScriptFault>
    requires first { fields.old.next ≡ 1 }
    requires count { length (fields_of fields.old.rest.now) ≡ 3 }
    ensures { (limits : Limits)
        → result ≡ line_of limits Command.Camera (fields_of fields.old.rest.now) }
{
    let x = fields.number(-CAMERA_REACH, CAMERA_REACH)?;
    let y = fields.number(-CAMERA_REACH, CAMERA_REACH)?;
    let z = fields.number(-CAMERA_REACH, CAMERA_REACH)?;
    Ok(Line::Camera { x, y, z })
}

/// The line `set X Y H`.
fn set(fields: &mut Fields<'_>, limits: &Limits) -> Result<Line, ScriptFault>
    requires level { limits.now.n ≤ GREATEST_LEVEL }
    requires first { fields.old.next ≡ 1 }
    requires count { length (fields_of fields.old.rest.now) ≡ 3 }
    ensures { result ≡ line_of limits.now Command.Set (fields_of fields.old.rest.now) }
{
    let last = 1 << limits.n;
    let x = fields.size(0, last)?;
    let y = fields.size(0, last)?;
    let h = fields.size(0, u32::from(limits.maxval))? as u16;
    Ok(Line::Set { x, y, h })
}

/// The line `plane A B C D`.
fn plane(fields: &mut Fields<'_>) -> Result<Line, ScriptFault>
    requires first { fields.old.next ≡ 1 }
    requires count { length (fields_of fields.old.rest.now) ≡ 4 }
    ensures { (limits : Limits)
        → result ≡ line_of limits Command.Plane (fields_of fields.old.rest.now) }
{
    let a = fields.number(-GREATEST_SLOPE, GREATEST_SLOPE)?;
    let b = fields.number(-GREATEST_SLOPE, GREATEST_SLOPE)?;
    let c = fields.number(-GREATEST_SLOPE, GREATEST_SLOPE)?;
    let d = fields.number(-GREATEST_OFFSET, GREATEST_OFFSET)?;
    Ok(Line::Plane { a, b, c, d })
}

/// The line `budget N`.
fn budget(fields: &mut Fields<'_>, limits: &Limits) -> Result<Line, ScriptFault>
    requires first { fields.old.next ≡ 1 }
    requires count { length (fields_of fields.old.rest.now) ≡ 1 }
    ensures { result ≡ line_of limits.now Command.Budget (fields_of fields.old.rest.now) }
{
    let n = fields.size(LEAST_BUDGET, limits.budget)?;
    Ok(Line::Budget { n })
}

/// The line `raise X0 Y0 X1 Y1 DZ`.
fn raise(fields: &mut Fields<'_>, limits: &Limits) -> Result<Line, ScriptFault>
    requires level { limits.now.n ≤ GREATEST_LEVEL }
    requires first { fields.old.next ≡ 1 }
    requires count { length (fields_of fields.old.rest.now) ≡ 5 }
    ensures { result ≡ line_of limits.now Command.Raise (fields_of fields.old.rest.now) }
{
    let last = 1 << limits.n;
    let x0 = fields.size(0, last)?;
    let y0 = fields.size(0, last)?;
    let x1 = fields.size(x0, last)?;
    let y1 = fields.size(y0, last)?;
    let dz = fields.number(-GREATEST_RAISE, GREATEST_RAISE)? as i32;
    Ok(Line::Raise { x0, y0, x1, y1, dz })
}
