//! The name of the file of a mesh.

ghost use Rattle.std.specs.Prelude.{◌≡◌, ◌+◌, ◌/◌, ◌%◌, ◌<◌, ◌≤◌, ◌∷◌, [], ◌++◌, length};
ghost use Rattle.roam_edge.specs.MeshName.{digit, file_name};
ghost use Rattle.roam_edge.specs.declared.mesh_name.TheConstants.{LONGEST_NAME};
ghost use Rattle.roam_edge.specs.declared.mesh_sink.TheConstants.{LONGEST_PREFIX};

use crate::LONGEST_PREFIX;
use arrayvec::ArrayString;

/// The greatest length of a name: a prefix, six digits, and four bytes of ending.
pub(crate) const LONGEST_NAME: usize = LONGEST_PREFIX + 10;

/// The prefix, the number in six digits with leading zeros, and `.obj`.
pub(crate) fn mesh_name(prefix: &str, number: u32) -> ArrayString<LONGEST_NAME>
    requires { length prefix.now ≤ LONGEST_PREFIX }
    ensures { result.bytes ≡ file_name prefix.now number }
{
    let mut name = ArrayString::new();
    name.push_str(prefix);
    push_digit(&mut name, number, 100_000);
    push_digit(&mut name, number, 10_000);
    push_digit(&mut name, number, 1_000);
    push_digit(&mut name, number, 100);
    push_digit(&mut name, number, 10);
    push_digit(&mut name, number, 1);
    name.push_str(".obj");
    name
}

/// Appends the decimal digit of the number at this power of ten.
fn push_digit(name: &mut ArrayString<LONGEST_NAME>, number: u32, power: u32)
    requires room { length name.old.bytes < LONGEST_NAME }
    requires power { 0 < power }
    ensures { name.new.bytes ≡ name.old.bytes ++ digit number power ∷ [] }
{
    let digit = b'0' + (number / power % 10) as u8;
    name.push(char::from(digit));
}
