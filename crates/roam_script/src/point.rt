//! A line of a file of points.

ghost use Rattle.std.specs.Prelude.{◌≡◌, ◌≤◌, ◌^◌, length, IfOk, IfSome};
ghost use Rattle.mesh_defs.specs.declared.level.TheConstants.{GREATEST_LEVEL};
ghost use Rattle.text_laws.specs.Fields.{fields_of};
ghost use Rattle.roam_script.specs.PointText.{point_in, point_of, point_fields, most_points};

use crate::fields::{Fields, first_field, without_cr};
use crate::limits::MOST_LINE_BYTES;
use crate::script_fault::ScriptFault;
use mesh_defs::Point;

/// The most lines of a file of points of the grid of side 2^n: as many as the grid has points.
pub fn most_points(n: u32) -> u32
    requires level { n ≤ GREATEST_LEVEL }
    ensures value { result ≡ most_points n }
    ensures some { 1 ≤ result }
    ensures few { result ≤ 2 ^ 29 }
{
    let side = (1u32 << n) + 1;
    side * side
}

/// The point of the grid of side 2^n that these bytes are, as the line with this number, counted from 1; None where
/// they are blank or a comment; or the line's first refusal, in the order of a script's. The LF is none of them.
///
/// Of a line of more than 200 bytes the first 201 are enough: what follows changes no answer.
/// Cost (not proved): a few steps a byte. Takes no memory.
pub fn read_point(bytes: &[u8], n: u32, line: u32) -> Result<Option<Point>, ScriptFault>
    requires level { n ≤ GREATEST_LEVEL }
    ensures same { result ≡ point_in n line bytes.now }
    ensures in_grid { IfOk result (λ at. IfSome at (λ p. (p.x ≤ 2 ^ n) × (p.y ≤ 2 ^ n))) }
{
    if line > most_points(n) {
        return Err(ScriptFault::TooManyLines);
    }
    if bytes.len() > MOST_LINE_BYTES {
        return Err(ScriptFault::LineTooLong);
    }
    point_of_fields(without_cr(bytes), n)
}

/// The point of the fields of these bytes.
fn point_of_fields(bytes: &[u8], n: u32) -> Result<Option<Point>, ScriptFault>
    requires level { n ≤ GREATEST_LEVEL }
    ensures same { result ≡ point_fields n (fields_of bytes.now) }
    ensures in_grid { IfOk result (λ at. IfSome at (λ p. (p.x ≤ 2 ^ n) × (p.y ≤ 2 ^ n))) }
{
    let Some((word, _)) = first_field(bytes) else {
        return Ok(None);
    };
    if word.starts_with(b"#") {
        return Ok(None);
    }
    let mut fields = Fields {
        rest: bytes,
        next: 1,
    };
    if fields.count() != 2 {
        return Err(ScriptFault::WrongFields);
    }
    Ok(Some(point(&mut fields, n)?))
}

/// The point of two fields.
fn point(fields: &mut Fields<'_>, n: u32) -> Result<Point, ScriptFault>
    requires level { n ≤ GREATEST_LEVEL }
    requires first { fields.old.next ≡ 1 }
    requires count { length (fields_of fields.old.rest.now) ≡ 2 }
    ensures same { result ≡ point_of n (fields_of fields.old.rest.now) }
    ensures in_grid { IfOk result (λ p. (p.x ≤ 2 ^ n) × (p.y ≤ 2 ^ n)) }
{
    let last = 1 << n;
    let x = fields.size(0, last)?;
    let y = fields.size(0, last)?;
    Ok(Point { x, y })
}
