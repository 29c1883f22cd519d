//! Numbers with a decimal point.

ghost use Rattle.std.specs.Prelude.{◌≡◌, ℕ, ◌+◌, ◌-◌, ◌*◌, ◌^◌, ◌<◌, ◌≤◌, ◌++◌, ◌↔◌, Some, IfSome, length};
ghost use Rattle.std.specs.Option.{option_map};
ghost use Rattle.arrayvec.specs.ArrayVec.{array_vec_len};
ghost use Rattle.text_laws.specs.Numbers.{number_in};
ghost use Rattle.roam_num.specs.Places.{until_point, thousandths_in, IsThousandthsOf, fraction_digits, behind_point};
ghost use Rattle.roam_num.specs.Places.{exact_decimal};
ghost use Rattle.roam_num.specs.declared.places.TheConstants.{LONGEST_DECIMAL, MOST_PLACES};

use crate::reading::number_of_digits;
use crate::writing::{push_bytes, push_number};
use arrayvec::ArrayVec;

/// The most digits before the point of a number that is read in thousandths: so many thousandths are a number of 64
/// bits.
const WHOLE_DIGITS: usize = 16;

/// The most digits behind it.
const THOUSANDTH_DIGITS: usize = 3;

/// The most digits behind the point of a number that is written.
pub const MOST_PLACES: u32 = 19;

/// The length of the longest exact decimal: a number of 64 bits, a point, and digits behind it.
pub const LONGEST_DECIMAL: usize = 40;

/// How many thousandths a number is: 1 to 16 digits, or these, a point and 1 to 3 digits. Zeros may lead.
///
/// Cost (not proved): one step a byte. Takes no memory.
pub fn read_thousandths(bytes: &[u8]) -> Option<u64>
    ensures reads { (count : ℕ) → (result ≡ Some count) ↔ IsThousandthsOf bytes.now count }
    ensures same { result ≡ thousandths_in bytes.now }
{
    let at = point_at(bytes);
    let whole = number_of_digits(&bytes[..at], WHOLE_DIGITS)?;
    if at == bytes.len() {
        return Some(1000 * whole);
    }
    let part = thousandths_behind(&bytes[at + 1..])?;
    Some(1000 * whole + part)
}

/// How many bytes stand before the first point.
fn point_at(bytes: &[u8]) -> usize
    ensures value { result ≡ length (until_point bytes.now) }
    ensures within { result ≤ length bytes.now }
{
    let mut before = 0;
    for byte in bytes {
        if *byte == b'.' {
            return before;
        }
        before += 1;
    }
    before
}

/// How many thousandths 1 to 3 digits behind a point are.
fn thousandths_behind(digits: &[u8]) -> Option<u64>
    ensures value { result ≡ option_map (λ part. part * 10 ^ (3 - length digits.now)) (number_in 3 digits.now) }
    ensures bound { IfSome result (λ part. part < 100000) }
{
    let part = number_of_digits(digits, THOUSANDTH_DIGITS)?;
    match digits.len() {
        1 => Some(100 * part),
        2 => Some(10 * part),
        _ => Some(part),
    }
}

/// Appends the decimal text of `count` / 2^n, exact, without a zero at its end, and without a point where none is
/// needed.
///
/// Cost (not proved): one step a digit. Takes no memory.
pub fn push_decimal<const ROOM: usize>(text: &mut ArrayVec<u8, ROOM>, count: u32, n: u32)
    requires places { n ≤ MOST_PLACES }
    requires room { array_vec_len text.old + LONGEST_DECIMAL ≤ ROOM }
    ensures items { text.new.items ≡ text.old.items ++ exact_decimal count n }
    ensures len { array_vec_len text.new ≤ array_vec_len text.old + LONGEST_DECIMAL }
{
    let over = power(n);
    let count = u64::from(count);
    push_number(text, count / over);
    push_fraction(text, count % over, over, n);
}

/// 2^n.
fn power(n: u32) -> u64
    requires { n ≤ MOST_PLACES }
    ensures value { result ≡ 2 ^ n }
    ensures some { 0 < result }
    ensures small { result ≤ 2 ^ MOST_PLACES }
{
    2u64.pow(n)
}

/// Appends a point and the digits of `rest` / `over`, a fraction below 1, or nothing where it is 0.
fn push_fraction<const ROOM: usize>(text: &mut ArrayVec<u8, ROOM>, rest: u64, over: u64, most: u32)
    requires below { rest < over }
    requires small { over ≤ 2 ^ MOST_PLACES }
    requires places { most ≤ MOST_PLACES }
    requires room { array_vec_len text.old + most + 1 ≤ ROOM }
    ensures items { text.new.items ≡ text.old.items ++ behind_point (fraction_digits most rest over) }
    ensures len { array_vec_len text.new ≤ array_vec_len text.old + most + 1 }
{
    if rest == 0 || most == 0 {
        return;
    }
    push_bytes(text, b".");
    push_digits(text, rest, over, most);
}

/// Appends the digits of `rest` / `over` behind the point, until nothing is left.
fn push_digits<const ROOM: usize>(text: &mut ArrayVec<u8, ROOM>, rest: u64, over: u64, most: u32)
    requires below { rest < over }
    requires small { over ≤ 2 ^ MOST_PLACES }
    requires room { array_vec_len text.old + most ≤ ROOM }
    ensures items { text.new.items ≡ text.old.items ++ fraction_digits most rest over }
    ensures len { array_vec_len text.new ≤ array_vec_len text.old + most }
{
    let mut left = rest;
    for _place in 0..most {
        if left > 0 {
            let tenths = 10 * left;
            push_bytes(text, &[b'0' + (tenths / over) as u8]);
            left = tenths % over;
        }
    }
}
