//! A line of a certificate, read and put on a page.

ghost use Rattle.std.specs.Prelude.{◌≡◌, ℕ, ◌+◌, ◌*◌, ◌^◌, ◌<◌, ◌≤◌, ◌++◌, IfSome, length, codes};
ghost use Rattle.arrayvec.specs.ArrayVec.{array_vec_len};
ghost use Rattle.mesh_defs.specs.declared.level.TheConstants.{GREATEST_LEVEL};
ghost use Rattle.text_laws.specs.Fields.{fields_of};
ghost use Rattle.certificate_laws.specs.declared.reason.Kind.{Kind};
ghost use Rattle.cert_text.specs.CertLine.{line_word, camera_of, camera_fields, leaf_fields, reason_fields};
ghost use Rattle.cert_text.specs.CertLine.{cert_fields_line, read_cert_line, cert_line_is, IsLineOf};
ghost use Rattle.cert_text.specs.CertText.{number_text, kind_text, address_text, cert_line_text};
ghost use Rattle.cert_text.specs.declared.cert_line.CertLine.{CertLine};
ghost use Rattle.cert_text.specs.declared.cert_line.CertLine.TheVariants.{LeafLine, ReasonLine};
ghost use Rattle.cert_text.specs.declared.page.TheConstants.{PAGE_ROOM, LONGEST_LINE};

use crate::page::{Page, PageLine};
use crate::reading::{FromFields, read_address, split_end};
use bintree_addr::Tri;
use certificate_laws::{Kind, Reason};
use roam_num::{dec, push_bytes, push_number, read_signed};
use roam_script::first_field;
use view_priority::Camera;

/// What a line of a certificate says.
#[derive(Clone, Copy)]
pub(crate) enum CertLine {
    /// `camera X Y Z`: where the mesh is seen from.
    CameraLine(Camera),
    /// `leaf A`: a triangle of the mesh.
    LeafLine(Tri),
    /// `want A`, `parent A` or `mate A`: a triangle that has to be split, and why.
    ReasonLine(Reason),
}

/// The first field of a line.
#[derive(Clone, Copy)]
pub(crate) enum Word {
    /// `camera`
    Camera,
    /// `leaf`
    Leaf,
    /// `want`, `parent` or `mate`
    Because(Kind),
}

impl FromFields for CertLine {
    ghost read = { read_cert_line };

    ghost of_fields = { cert_fields_line };

    ghost IsOf = { IsLineOf };

    ghost reads = { cert_line_is };

    fn from_fields(bytes: &[u8], n: u32) -> Option<CertLine> {
        let Some((first, rest)) = first_field(bytes) else {
            return None;
        };
        match named(first) {
            None => None,
            Some(Word::Camera) => camera_line(rest),
            Some(Word::Leaf) => leaf_line(rest, n),
            Some(Word::Because(kind)) => reason_line(rest, n, kind),
        }
    }
}

impl PageLine for CertLine {
    ghost text = { cert_line_text };

    fn push(self, page: &mut Page) {
        match self {
            CertLine::CameraLine(camera) => push_camera(page, camera.x(), camera.y(), camera.z()),
            CertLine::LeafLine(leaf) => push_address(page, b"leaf", leaf.number()),
            CertLine::ReasonLine(reason) => {
                push_address(page, kind_text(reason.kind), reason.triangle.number())
            }
        }
    }
}

impl PageLine for Tri {
    ghost text = { λ leaf. cert_line_text (LeafLine leaf) };

    fn push(self, page: &mut Page) {
        CertLine::LeafLine(self).push(page)
    }
}

impl PageLine for Reason {
    ghost text = { λ reason. cert_line_text (ReasonLine reason) };

    fn push(self, page: &mut Page) {
        CertLine::ReasonLine(self).push(page)
    }
}

/// The word that a field is.
fn named(field: &[u8]) -> Option<Word>
    ensures { result ≡ line_word field.now }
{
    match field {
        b"camera" => Some(Word::Camera),
        b"leaf" => Some(Word::Leaf),
        b"want" => Some(Word::Because(Kind::Want)),
        b"parent" => Some(Word::Because(Kind::Parent)),
        b"mate" => Some(Word::Because(Kind::Mate)),
        _ => None,
    }
}

/// The line of a camera: three numbers.
fn camera_line(bytes: &[u8]) -> Option<CertLine>
    ensures value { result ≡ camera_fields (fields_of bytes.now) }
    ensures of_grid { (n : ℕ) → IfSome result (IsLineOf n) }
{
    let Some((x, rest)) = first_field(bytes) else {
        return None;
    };
    let Some((y, rest)) = first_field(rest) else {
        return None;
    };
    let Some((z, rest)) = first_field(rest) else {
        return None;
    };
    if first_field(rest).is_some() {
        return None;
    }
    camera_of(read_signed(x), read_signed(y), read_signed(z))
}

/// The line of a camera with these coordinates, where all three are numbers.
fn camera_of(x: Option<i64>, y: Option<i64>, z: Option<i64>) -> Option<CertLine>
    ensures value { result ≡ camera_of x y z }
    ensures of_grid { (n : ℕ) → IfSome result (IsLineOf n) }
{
    let (Some(x), Some(y), Some(z)) = (x, y, z) else {
        return None;
    };
    match Camera::new(x, y, z) {
        None => None,
        Some(camera) => Some(CertLine::CameraLine(camera)),
    }
}

/// The line of a leaf: one address.
fn leaf_line(bytes: &[u8], n: u32) -> Option<CertLine>
    requires in_grid { (1 ≤ n) × (n ≤ GREATEST_LEVEL) }
    ensures value { result ≡ leaf_fields n (fields_of bytes.now) }
    ensures of_grid { IfSome result (IsLineOf n) }
{
    let Some((field, rest)) = first_field(bytes) else {
        return None;
    };
    if first_field(rest).is_some() {
        return None;
    }
    match read_address(field, leaf_end(n)) {
        None => None,
        Some(leaf) => Some(CertLine::LeafLine(leaf)),
    }
}

/// The line of a reason: one address.
fn reason_line(bytes: &[u8], n: u32, kind: Kind) -> Option<CertLine>
    requires in_grid { (1 ≤ n) × (n ≤ GREATEST_LEVEL) }
    ensures value { result ≡ reason_fields n kind (fields_of bytes.now) }
    ensures of_grid { IfSome result (IsLineOf n) }
{
    let Some((field, rest)) = first_field(bytes) else {
        return None;
    };
    if first_field(rest).is_some() {
        return None;
    }
    match read_address(field, split_end(n)) {
        None => None,
        Some(triangle) => Some(CertLine::ReasonLine(Reason { kind, triangle })),
    }
}

/// The first address past those of the grid.
fn leaf_end(n: u32) -> u32
    requires in_grid { (1 ≤ n) × (n ≤ GREATEST_LEVEL) }
    ensures value { result ≡ 2 ^ (2 * n + 2) }
    ensures high { result ≤ 2 ^ 30 }
{
    1 << (2 * n + 2)
}

/// Appends the word of a camera and its coordinates.
fn push_camera(page: &mut Page, x: i64, y: i64, z: i64)
    requires room { array_vec_len page.old + LONGEST_LINE ≤ PAGE_ROOM }
    ensures items { page.new.items
        ≡ page.old.items ++ (codes "camera" ++ number_text x ++ number_text y ++ number_text z) }
    ensures len { array_vec_len page.new ≤ array_vec_len page.old + 69 }
{
    push_bytes(page, b"camera");
    push_signed(page, x);
    push_signed(page, y);
    push_signed(page, z);
}

/// Appends a blank and a number.
fn push_signed(page: &mut Page, number: i64)
    requires room { array_vec_len page.old + 21 ≤ PAGE_ROOM }
    ensures items { page.new.items ≡ page.old.items ++ number_text number }
    ensures len { array_vec_len page.new ≤ array_vec_len page.old + 21 }
{
    push_bytes(page, b" ");
    push_bytes(page, dec(number).as_slice());
}

/// Appends a word, a blank and an address.
fn push_address(page: &mut Page, first: &[u8], address: u32)
    requires room { array_vec_len page.old + LONGEST_LINE ≤ PAGE_ROOM }
    requires short { length first.now ≤ 6 }
    ensures items { page.new.items ≡ page.old.items ++ address_text first.now address }
    ensures len { array_vec_len page.new ≤ array_vec_len page.old + 27 }
{
    push_bytes(page, first);
    push_bytes(page, b" ");
    push_number(page, u64::from(address));
}

/// The first field of a reason's line.
fn kind_text(kind: Kind) -> &'static [u8]
    ensures value { result.now ≡ kind_text kind }
    ensures short { length result.now ≤ 6 }
{
    match kind {
        Kind::Want => b"want",
        Kind::Parent => b"parent",
        Kind::Mate => b"mate",
    }
}
