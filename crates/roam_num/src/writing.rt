//! From a number to the bytes of its text.

ghost use Rattle.std.specs.Prelude.{◌≡◌, ◌+◌, ◌≤◌, ◌++◌, length, decimal};
ghost use Rattle.std.specs.Fmt.{signed_decimal};
ghost use Rattle.arrayvec.specs.ArrayVec.{array_vec_len};
ghost use Rattle.roam_edge.specs.Fault.{HasCause, IsInTime};
ghost use Rattle.roam_edge.specs.Sink.{Appends};
ghost use Rattle.roam_num.specs.declared.writing.TheConstants.{LONGEST_TEXT};

use arrayvec::ArrayVec;
use itoa::Buffer;
use roam_edge::{Failed, Sink};

/// The length of the longest text of a number of 64 bits, with a sign or without.
pub const LONGEST_TEXT: usize = 20;

/// The decimal text of a number: a `-` if it is below 0, and its digits without leading zeros.
///
/// Cost (not proved): one step a digit. Takes no memory.
pub fn dec(v: i64) -> ArrayVec<u8, LONGEST_TEXT>
    ensures text { result.items ≡ signed_decimal v }
    ensures short { array_vec_len result ≤ LONGEST_TEXT }
{
    let mut digits = Buffer::new();
    let mut text = ArrayVec::new();
    push_bytes(&mut text, digits.format(v).as_bytes());
    text
}

/// Writes the decimal text of a number, in one piece.
pub fn put_dec<S: Sink>(sink: &mut S, v: i64) -> Result<(), Failed>
    ensures bytes { Appends (S.contents sink.old) (S.contents sink.new) (signed_decimal v) result }
    ensures faults { HasCause (S.faults sink.old) (S.faults sink.new) result }
    ensures in_time { IsInTime (S.late sink.old) (S.faults sink.old) (S.late sink.new) }
{
    sink.write(dec(v).as_slice())
}

/// Appends the decimal text of a number without a sign to a text that has room for the longest.
///
/// Cost (not proved): one step a digit. Takes no memory.
pub fn push_number<const ROOM: usize>(text: &mut ArrayVec<u8, ROOM>, number: u64)
    requires room { array_vec_len text.old + LONGEST_TEXT ≤ ROOM }
    ensures items { text.new.items ≡ text.old.items ++ decimal number }
    ensures len { array_vec_len text.new ≤ array_vec_len text.old + LONGEST_TEXT }
{
    let mut digits = Buffer::new();
    push_bytes(text, digits.format(number).as_bytes());
}

/// Appends bytes to a text that has room for them. Takes no memory.
pub fn push_bytes<const ROOM: usize>(text: &mut ArrayVec<u8, ROOM>, bytes: &[u8])
    requires room { array_vec_len text.old + length bytes.now ≤ ROOM }
    ensures items { text.new.items ≡ text.old.items ++ bytes.now }
    ensures len { array_vec_len text.new ≡ array_vec_len text.old + length bytes.now }
{
    text.try_extend_from_slice(bytes).unwrap()
}
