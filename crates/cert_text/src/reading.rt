//! From the bytes of a line to what it says.

ghost use Rattle.std.specs.Prelude.{◌≡◌, ℕ, ◌+◌, ◌*◌, ◌^◌, ◌<◌, ◌≤◌, List, Option, IfSome, IfOk, IfErr, None, Some};
ghost use Rattle.std.specs.Prelude.{Err};
ghost use Rattle.mesh_defs.specs.declared.level.TheConstants.{GREATEST_LEVEL};
ghost use Rattle.text_laws.specs.Fields.{fields_of};
ghost use Rattle.cert_text.specs.Lines.{line_of, number_below, address_in};
ghost use Rattle.cert_text.specs.declared.fault.CertFault.{CertFault as CertFaultSeen};

use crate::fault::CertFault;
use bintree_addr::Tri;
use roam_num::read_dec;
use roam_script::{MOST_LINE_BYTES, without_cr};

/// What a line of a text can say.
pub(crate) trait FromFields: Copy {
    // What these bytes say, in a text of the grid with this n.
    ghost read: { ℕ → List ℕ → Option Self };

    // What these fields say.
    ghost of_fields: { ℕ → List (List ℕ) → Option Self };

    // What it says is of the grid with this n.
    ghost IsOf: { ℕ → Self → Type 0 };

    /// What the fields of these bytes say, in a text of the grid of side 2^n.
    fn from_fields(bytes: &[u8], n: u32) -> Option<Self>
        requires in_grid { (1 ≤ n) × (n ≤ GREATEST_LEVEL) }
        ensures value { result ≡ of_fields n (fields_of bytes.now) }
        ensures of_grid { IfSome result (IsOf n) };

    // A line says what its fields say.
    ghost reads: { (n : ℕ) (bytes : List ℕ) → read n bytes ≡ line_of (of_fields n) bytes };
}

/// What the line says that these bytes are, in a text of the grid of side 2^n. The LF is none of them.
///
/// Cost (not proved): a few steps a byte. Takes no memory.
pub(crate) fn read_line<L: FromFields>(bytes: &[u8], n: u32) -> Option<L>
    requires in_grid { (1 ≤ n) × (n ≤ GREATEST_LEVEL) }
    ensures value { result ≡ L.read n bytes.now }
    ensures of_grid { IfSome result (L.IsOf n) }
{
    if bytes.len() > MOST_LINE_BYTES {
        return None;
    }
    L::from_fields(without_cr(bytes), n)
}

/// What one line more says, in a text of the grid of side 2^n of which no line was refused; or why it is refused.
pub(crate) fn next_line<L: FromFields>(
    refusal: Option<CertFault>,
    bytes: &[u8],
    n: u32,
) -> Result<L, CertFault>
    requires in_grid { (1 ≤ n) × (n ≤ GREATEST_LEVEL) }
    ensures sticky { (fault : CertFaultSeen) → refusal ≡ Some fault → result ≡ Err fault }
    ensures no_refusal { IfOk result (λ _. refusal ≡ None) }
    ensures value { IfOk result (λ line. L.read n bytes.now ≡ Some line) }
    ensures of_grid { IfOk result (L.IsOf n) }
    ensures bad_line { refusal ≡ None → IfErr result
        (λ fault. (fault ≡ CertFaultSeen.BadLine) × (L.read n bytes.now ≡ None)) }
{
    match refusal {
        Some(fault) => Err(fault),
        None => read_line(bytes, n).ok_or(CertFault::BadLine),
    }
}

/// The triangle whose address the field is, if it is less than `end`.
pub(crate) fn read_address(field: &[u8], end: u32) -> Option<Tri>
    requires in_grid { end ≤ 2 ^ 30 }
    ensures value { result ≡ address_in end field.now }
    ensures low { IfSome result (λ t. 2 ≤ t) }
    ensures high { IfSome result (λ t. t < end) }
{
    match read_dec(field) {
        Some(number) if number < u64::from(end) => Tri::at(number as u32),
        _ => None,
    }
}

/// The number that the field is, if it is less than `end`.
pub(crate) fn read_below(field: &[u8], end: u64) -> Option<u32>
    requires small { end ≤ 2 ^ 32 }
    ensures { result ≡ number_below end field.now }
{
    match read_dec(field) {
        Some(number) if number < end => Some(number as u32),
        _ => None,
    }
}

/// The first address past those of the triangles that may be split.
pub(crate) fn split_end(n: u32) -> u32
    requires in_grid { (1 ≤ n) × (n ≤ GREATEST_LEVEL) }
    ensures value { result ≡ 2 ^ (2 * n + 1) }
    ensures high { result ≤ 2 ^ 30 }
{
    1 << (2 * n + 1)
}

/// The number of columns and of rows.
pub(crate) fn side(n: u32) -> u64
    requires in_grid { (1 ≤ n) × (n ≤ GREATEST_LEVEL) }
    ensures value { result ≡ 2 ^ n + 1 }
    ensures high { result ≤ 2 ^ 32 }
{
    (1 << n) + 1
}
