//! The generated grid and script as files.

ghost use Rattle.std.specs.Prelude.{◌≡◌, ◌+◌, ◌≤◌, ◌++◌, ◌∷◌, [], length};
ghost use Rattle.std.specs.List.{flat_map};
ghost use Rattle.std.specs.Fmt.{signed_decimal};
ghost use Rattle.arrayvec.specs.ArrayVec.{array_vec_len};
ghost use Rattle.roam_edge.specs.Fault.{HasCause, IsInTime};
ghost use Rattle.roam_edge.specs.Sink.{Appends};
ghost use Rattle.mesh_defs.specs.HeightField.{side_of};
ghost use Rattle.mesh_defs.specs.declared.level.TheConstants.{GREATEST_FILE_LEVEL};
ghost use Rattle.text_laws.specs.Words.{two_bytes};
ghost use Rattle.roam_gen.specs.Generated.{made_grid};
ghost use Rattle.roam_gen.specs.Written.{line_text, spaced_number, script_text, header_text, grid_text};

use crate::heights::{GREATEST_HEIGHT, fill_row};
use crate::octave::last_of;
use crate::script::{LINES, gen_line};
use arrayvec::ArrayVec;
use pgm_grid::MOST_SIDE;
use roam_edge::{Failed, Sink};
use roam_num::dec;
use roam_script::Line;

/// The longest line: eight bytes, five numbers of at most 21 bytes with their blanks, and an LF.
const LONGEST_LINE: usize = 128;

/// The longest row: two bytes a sample.
const LONGEST_ROW: usize = 2 * MOST_SIDE;

/// Writes the script of this level and seed, a line at a time.
///
/// Takes no memory.
pub fn write_script<S: Sink>(n: u32, seed: u32, out: &mut S) -> Result<(), Failed>
    requires n_low { 1 ≤ n }
    requires n_high { n ≤ GREATEST_FILE_LEVEL }
    ensures bytes { Appends (S.contents out.old) (S.contents out.new) (script_text n seed) result }
    ensures faults { HasCause (S.faults out.old) (S.faults out.new) result }
    ensures in_time { IsInTime (S.late out.old) (S.faults out.old) (S.late out.new) }
{
    for i in 1..LINES + 1 {
        out.write(bytes_of(gen_line(n, seed, i)).as_slice())?;
    }
    Ok(())
}

/// The text of a line.
fn bytes_of(line: Line) -> ArrayVec<u8, LONGEST_LINE>
    ensures { result.items ≡ line_text line }
{
    match line {
        Line::Blank => text_of(b"", &[]),
        Line::Camera { x, y, z } => text_of(b"camera", &[x, y, z]),
        Line::Set { x, y, h } => text_of(b"set", &[i64::from(x), i64::from(y), i64::from(h)]),
        Line::Frame => text_of(b"frame", &[]),
        Line::Plane { a, b, c, d } => text_of(b"plane", &[a, b, c, d]),
        Line::NoPlanes => text_of(b"noplanes", &[]),
        Line::Budget { n } => text_of(b"budget", &[i64::from(n)]),
        Line::Raise { x0, y0, x1, y1, dz } => text_of(
            b"raise",
            &[
                i64::from(x0),
                i64::from(y0),
                i64::from(x1),
                i64::from(y1),
                i64::from(dz),
            ],
        ),
    }
}

/// A command and numbers, with one blank before each of these, and an LF.
fn text_of(word: &[u8], numbers: &[i64]) -> ArrayVec<u8, LONGEST_LINE>
    requires word { length word.now ≤ 8 }
    requires few { length numbers.now ≤ 5 }
    ensures { result.items ≡ word.now ++ flat_map spaced_number numbers.now ++ 10 ∷ [] }
{
    let mut text = ArrayVec::new();
    text.try_extend_from_slice(word).unwrap();
    for number in numbers {
        text.push(b' ');
        text.try_extend_from_slice(dec(*number).as_slice()).unwrap();
    }
    text.push(b'\n');
    text
}

/// Writes the grid of this level and seed as a raw PGM file of two bytes a sample, a row at a time.
///
/// Takes no memory.
pub fn write_grid<S: Sink>(n: u32, seed: u32, out: &mut S) -> Result<(), Failed>
    requires n_low { 1 ≤ n }
    requires n_high { n ≤ GREATEST_FILE_LEVEL }
    ensures bytes { Appends (S.contents out.old) (S.contents out.new) (grid_text n seed) result }
    ensures faults { HasCause (S.faults out.old) (S.faults out.new) result }
    ensures in_time { IsInTime (S.late out.old) (S.faults out.old) (S.late out.new) }
{
    out.write(header_bytes(n).as_slice())?;
    let mut room = [0u16; MOST_SIDE];
    let side = last_of(n) as usize + 1;
    write_rows(n, seed, &mut room[..side], out)
}

/// Writes the raster, each row from the same room.
fn write_rows<S: Sink>(n: u32, seed: u32, row: &mut [u16], out: &mut S) -> Result<(), Failed>
    requires n_high { n ≤ GREATEST_FILE_LEVEL }
    requires length { length row.old ≡ side_of n }
    ensures bytes { Appends (S.contents out.old) (S.contents out.new)
        (flat_map two_bytes (made_grid n seed).heights) result }
    ensures faults { HasCause (S.faults out.old) (S.faults out.new) result }
    ensures in_time { IsInTime (S.late out.old) (S.faults out.old) (S.late out.new) }
{
    let last = last_of(n);
    for above in 0..last + 1 {
        fill_row(row, n, seed, last - above);
        out.write(row_bytes(row).as_slice())?;
    }
    Ok(())
}

/// The header of a grid of this level.
fn header_bytes(n: u32) -> ArrayVec<u8, LONGEST_LINE>
    requires n_high { n ≤ GREATEST_FILE_LEVEL }
    ensures { result.items ≡ header_text n }
{
    let side = i64::from(last_of(n) + 1);
    let mut text = ArrayVec::new();
    text.try_extend_from_slice(b"P5\n").unwrap();
    push_number(&mut text, side, b' ');
    push_number(&mut text, side, b'\n');
    push_number(&mut text, i64::from(GREATEST_HEIGHT), b'\n');
    text
}

/// Appends a number and one byte more.
fn push_number(text: &mut ArrayVec<u8, LONGEST_LINE>, number: i64, last: u8)
    requires { array_vec_len text.old ≤ 100 }
    ensures text { text.new.items ≡ text.old.items ++ (signed_decimal number ++ last ∷ []) }
    ensures short { array_vec_len text.new ≤ array_vec_len text.old + 21 }
{
    text.try_extend_from_slice(dec(number).as_slice()).unwrap();
    text.push(last);
}

/// The samples of a row, two bytes each, the most significant first.
fn row_bytes(row: &[u16]) -> ArrayVec<u8, LONGEST_ROW>
    requires { length row.now ≤ 2049 }
    ensures { result.items ≡ flat_map two_bytes row.now }
{
    let mut bytes = ArrayVec::new();
    for sample in row {
        bytes.push((*sample / 256) as u8);
        bytes.push((*sample % 256) as u8);
    }
    bytes
}
