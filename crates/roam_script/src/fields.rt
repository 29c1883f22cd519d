//! The fields of a line, one after the other.

ghost use Rattle.std.specs.Prelude.{◌≡◌, ◌+◌, ◌<◌, ◌≤◌, ◌^◌, ◌≤ℤ◌, false, [], ◌∷◌, length, take, drop, pos, IfSome};
ghost use Rattle.std.specs.Prelude.{IfOk, MatchOption};
ghost use Rattle.text_laws.specs.Fields.{fields_of, is_gap, begins_with_gap, without_last_cr};
ghost use Rattle.roam_script.specs.LineText.{from_to};
ghost use Rattle.roam_script.specs.Taking.{TakesNumber, signed_answer};

use crate::script_fault::ScriptFault;
use roam_num::read_signed;

/// The fields that are left of a line.
#[derive(Clone, Copy)]
pub(crate) struct Fields<'a> {
    /// The bytes that are left.
    pub(crate) rest: &'a [u8],
    /// The number of the next field, counted from 1 behind the command.
    pub(crate) next: u32,
}

impl<'a> Fields<'a> {
    /// How many fields are left.
    pub(crate) fn count(&self) -> usize
        ensures { result ≡ length (fields_of self.now.rest.now) }
    {
        let mut count = 0;
        let mut rest = self.rest;
        while let Some((_, behind)) = first_field(rest) {
            rest = behind;
            count += 1;
        }
        count
    }

    /// Takes the next field, which is a number from `low` to `high`.
    pub(crate) fn number(&mut self, low: i64, high: i64) -> Result<i64, ScriptFault>
        requires left { 0 < length (fields_of self.old.rest.now) }
        requires few { self.old.next < 2 ^ 16 }
        ensures takes { TakesNumber (fields_of self.old.rest.now) self.old.next (from_to low high)
            (fields_of self.new.rest.now) result }
        ensures next { self.new.next ≡ self.old.next + 1 }
        ensures within { IfOk result (λ v. (low ≤ℤ v) × (v ≤ℤ high)) }
    {
        let field = self.next;
        let (text, behind) = first_field(self.rest).unwrap();
        self.rest = behind;
        self.next += 1;
        match read_signed(text) {
            Some(number) if low <= number && number <= high => Ok(number),
            Some(_) => Err(ScriptFault::OutOfRange { field }),
            None => Err(ScriptFault::BadNumber { field }),
        }
    }

    /// Takes the next field, which is a number from `low` to `high`.
    pub(crate) fn size(&mut self, low: u32, high: u32) -> Result<u32, ScriptFault>
        requires left { 0 < length (fields_of self.old.rest.now) }
        requires few { self.old.next < 2 ^ 16 }
        ensures takes { TakesNumber (fields_of self.old.rest.now) self.old.next
            (from_to (pos low) (pos high)) (fields_of self.new.rest.now)
            (signed_answer result) }
        ensures next { self.new.next ≡ self.old.next + 1 }
        ensures high { IfOk result (λ v. v ≤ high) }
    {
        let number = self.number(i64::from(low), i64::from(high))?;
        Ok(number as u32)
    }
}

/// The bytes without the CR that is their last one, or as they are. Takes no memory.
pub fn without_cr(bytes: &[u8]) -> &[u8]
    ensures { result.now ≡ without_last_cr bytes.now }
{
    match bytes {
        [before @ .., b'\r'] => before,
        _ => bytes,
    }
}

/// The first field of the bytes, and what stands behind it; None where they have no field.
///
/// Cost (not proved): one step a byte up to the end of the field. Takes no memory.
pub fn first_field(bytes: &[u8]) -> Option<(&[u8], &[u8])>
    ensures cut { MatchOption result (fields_of bytes.now ≡ [])
        (λ p. fields_of bytes.now ≡ p.0.now ∷ fields_of p.1.now) }
    ensures shorter { IfSome result (λ p. length p.1.now < length bytes.now) }
{
    let line = without_gaps(bytes);
    if line.is_empty() {
        return None;
    }
    Some(line.split_at(first_gap(line)))
}

/// The bytes from the first on that separates no fields.
fn without_gaps(bytes: &[u8]) -> &[u8]
    ensures same { fields_of result.now ≡ fields_of bytes.now }
    ensures begins { 0 < length result.now → begins_with_gap result.now ≡ false }
    ensures shorter { length result.now ≤ length bytes.now }
{
    for (i, byte) in bytes.iter().enumerate() {
        if !separates(*byte) {
            return &bytes[i..];
        }
    }
    &[]
}

/// How many bytes the field has with which these begin.
fn first_gap(bytes: &[u8]) -> usize
    requires begins { begins_with_gap bytes.now ≡ false }
    ensures cut { fields_of bytes.now ≡ take result bytes.now ∷ fields_of (drop result bytes.now) }
    ensures positive { 0 < result }
    ensures within { result ≤ length bytes.now }
{
    for (i, byte) in bytes.iter().enumerate() {
        if separates(*byte) {
            return i;
        }
    }
    bytes.len()
}

/// Whether a byte separates fields: a blank or a TAB.
fn separates(byte: u8) -> bool
    ensures { result ≡ is_gap byte }
{
    byte == b' ' || byte == b'\t'
}
