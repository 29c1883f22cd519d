//! A blank and the digits of a number, as a field of a line.

ghost use Rattle.std.specs.Prelude.{◌≡◌, ◌+◌, ◌*◌, ◌<◌, ◌≤◌, [], ◌∷◌, length};
ghost use Rattle.obj_write.specs.Field.{IsFieldOf, IsWrittenAt, field_bytes, letter_line};
ghost use Rattle.obj_write.specs.declared.field.TheConstants.{FIELD_ROOM, LONGEST_FIELD};

use itoa::write_digits;
use std::simd::Simd;

/// How many bytes a field has room for: all of them are copied at once.
pub(crate) const FIELD_ROOM: usize = 16;

/// The longest field: a blank and the ten digits of the greatest number of 32 bits.
pub(crate) const LONGEST_FIELD: usize = 11;

/// A blank and the digits of a number in the first bytes.
///
/// It is made once and copied wherever the number stands again.
#[derive(Clone, Copy, Debug)]
pub(crate) struct Field {
    bytes: [u8; FIELD_ROOM],
    len: usize,
}

/// The field of a number.
#[inline(always)]
pub(crate) fn field_of(number: u32) -> Field
    ensures { IsFieldOf result number }
{
    let mut digits = [b' '; FIELD_ROOM + FIELD_ROOM];
    let start = write_digits(u64::from(number), &mut digits, FIELD_ROOM) - 1;
    Field {
        bytes: Simd::<u8, FIELD_ROOM>::from_slice(&digits[start..]).to_array(),
        len: FIELD_ROOM - start,
    }
}

/// Puts a line of three fields behind a letter to a place of a text, and answers where it ends.
///
/// Up to `FIELD_ROOM` bytes behind a field are written with it, so what stood behind the line may change.
#[inline(always)]
pub(crate) fn place_line(
    text: &mut [u8],
    at: usize,
    letter: u8,
    first: &Field,
    second: &Field,
    third: &Field,
) -> usize
    requires room { at + 2 * LONGEST_FIELD + FIELD_ROOM + 2 ≤ length text.old }
    requires first_short { first.now.len ≤ LONGEST_FIELD }
    requires second_short { second.now.len ≤ LONGEST_FIELD }
    requires third_short { third.now.len ≤ LONGEST_FIELD }
    ensures placed { IsWrittenAt text.old text.new at (letter_line letter first.now second.now third.now) result }
    ensures near { result ≤ at + 3 * LONGEST_FIELD + 2 }
{
    let at = place_byte(text, at, letter);
    let at = place_field(text, at, first);
    let at = place_field(text, at, second);
    let at = place_field(text, at, third);
    place_byte(text, at, b'\n')
}

/// Puts a byte to a place of a text, and answers where it ends.
#[inline(always)]
fn place_byte(text: &mut [u8], at: usize, byte: u8) -> usize
    requires { at < length text.old }
    ensures { IsWrittenAt text.old text.new at (byte ∷ []) result }
{
    text[at] = byte;
    at + 1
}

/// Copies a field to a place of a text, and answers where it ends.
#[inline(always)]
fn place_field(text: &mut [u8], at: usize, field: &Field) -> usize
    requires room { at + FIELD_ROOM ≤ length text.old }
    requires short { field.now.len ≤ LONGEST_FIELD }
    ensures placed { IsWrittenAt text.old text.new at (field_bytes field.now) result }
    ensures near { result ≤ at + LONGEST_FIELD }
{
    Simd::<u8, FIELD_ROOM>::from_slice(&field.bytes).copy_to_slice(&mut text[at..]);
    at + field.len
}

/// Copies bytes to a place of a text, and answers where they end.
pub(crate) fn place_bytes(text: &mut [u8], at: usize, bytes: &[u8]) -> usize
    requires { at + length bytes.now ≤ length text.old }
    ensures { IsWrittenAt text.old text.new at bytes.now result }
{
    let end = at + bytes.len();
    text[at..end].copy_from_slice(bytes);
    end
}
