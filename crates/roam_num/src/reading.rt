//! From the bytes of a text to its number.

ghost use Rattle.std.specs.Prelude.{◌≡◌, ◌^◌, ◌<◌, ◌≤◌, ◌↔◌, ◌≤ℤ◌, ℤ, pos, neg_ℤ, Some, IsSome, IfSome, IsTrue, length};
ghost use Rattle.std.specs.Prelude.{unsigned_abs};
ghost use Rattle.std.specs.Option.{SomeIff, option_map};
ghost use Rattle.std.specs.Str.{all_ascii_digits};
ghost use Rattle.text_laws.specs.Digits.{value_of};
ghost use Rattle.text_laws.specs.Numbers.{IsDecText, number_in, IsSignedTextOf, signed_in};

/// The most digits of an unsigned number: each such number is below 2^64.
const UNSIGNED_DIGITS: usize = 19;

/// The most digits of a signed number: each such number, with a `-` or without, is a number of 64 bits.
const SIGNED_DIGITS: usize = 18;

/// The number that 1 to 19 digits are. Zeros may lead.
///
/// Cost (not proved): one step a digit. Takes no memory.
pub fn read_dec(bytes: &[u8]) -> Option<u64>
    ensures valid { IsSome result ↔ IsDecText 19 bytes.now }
    ensures value { IfSome result (λ n. n ≡ value_of bytes.now) }
    ensures bound { IfSome result (λ n. n < 10 ^ 19) }
    ensures same { result ≡ number_in 19 bytes.now }
{
    number_of_digits(bytes, UNSIGNED_DIGITS)
}

/// The number that an optional `-` and 1 to 18 digits are. Zeros may lead, and `-0` is 0.
///
/// Cost (not proved): one step a digit. Takes no memory.
pub fn read_signed(bytes: &[u8]) -> Option<i64>
    ensures reads { (v : ℤ) → (result ≡ Some v) ↔ IsSignedTextOf bytes.now v }
    ensures bound { IfSome result (λ v. unsigned_abs v < 10 ^ 18) }
    ensures same { result ≡ signed_in bytes.now }
{
    match bytes.strip_prefix(b"-") {
        Some(digits) => number_behind_minus(digits),
        None => number_without_sign(bytes),
    }
}

/// The opposite of the number that 1 to 18 digits are.
fn number_behind_minus(digits: &[u8]) -> Option<i64>
    ensures same { result ≡ option_map (λ n. neg_ℤ (pos n)) (number_in 18 digits.now) }
    ensures bound { IfSome result (λ v. unsigned_abs v < 10 ^ 18) }
{
    let size = number_without_sign(digits)?;
    Some(-size)
}

/// The number that 1 to 18 digits are.
fn number_without_sign(digits: &[u8]) -> Option<i64>
    ensures same { result ≡ option_map (λ n. pos n) (number_in 18 digits.now) }
    ensures low { IfSome result (λ v. pos 0 ≤ℤ v) }
    ensures bound { IfSome result (λ v. unsigned_abs v < 10 ^ 18) }
{
    let size = number_of_digits(digits, SIGNED_DIGITS)?;
    Some(size as i64)
}

/// The number that 1 to `longest` digits are.
pub(crate) fn number_of_digits(bytes: &[u8], longest: usize) -> Option<u64>
    requires { longest ≤ 19 }
    ensures same { result ≡ number_in longest bytes.now }
    ensures bound { IfSome result (λ n. n < 10 ^ longest) }
{
    if bytes.is_empty() || bytes.len() > longest {
        return None;
    }
    value_of_digits(bytes)
}

/// The number that digits are, and None where a byte is no digit.
fn value_of_digits(bytes: &[u8]) -> Option<u64>
    requires { length bytes.now ≤ 19 }
    ensures value { SomeIff result (IsTrue (all_ascii_digits bytes.now)) (value_of bytes.now) }
    ensures bound { IfSome result (λ n. n < 10 ^ length bytes.now) }
{
    let mut value = 0;
    for byte in bytes {
        if !byte.is_ascii_digit() {
            return None;
        }
        value = 10 * value + u64::from(*byte - b'0');
    }
    Some(value)
}
