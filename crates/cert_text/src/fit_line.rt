//! A line of a certificate of a fitted mesh, read and put on a page.

ghost use Rattle.std.specs.Prelude.{◌≡◌, ◌+◌, ◌*◌, ◌^◌, ◌≤◌, ◌++◌, codes};
ghost use Rattle.arrayvec.specs.ArrayVec.{array_vec_len};
ghost use Rattle.mesh_defs.specs.declared.level.TheConstants.{GREATEST_LEVEL};
ghost use Rattle.text_laws.specs.Fields.{fields_of};
ghost use Rattle.cert_text.specs.Lines.{field_text};
ghost use Rattle.cert_text.specs.FitLine.{fit_line_word, off_of, tolerance_line, tolerance_fields, off_fields};
ghost use Rattle.cert_text.specs.FitLine.{mesh_fields, fit_fields_line, read_fit_line, fit_line_is};
ghost use Rattle.cert_text.specs.FitCertText.{fit_line_text};
ghost use Rattle.cert_text.specs.declared.fit_line.FitLine.TheVariants.{OffLine};
ghost use Rattle.cert_text.specs.declared.page.TheConstants.{PAGE_ROOM, LONGEST_LINE};

use crate::page::{Page, PageLine, push_field};
use crate::reading::{FromFields, read_address, read_below, side, split_end};
use bintree_addr::Tri;
use certificate_laws::Witness;
use roam_num::push_bytes;
use roam_script::first_field;

/// What a line of a certificate says.
#[derive(Clone, Copy)]
pub(crate) enum FitLine {
    /// `tolerance D`: no triangle of the mesh is off by more, in units of height, times 2^n.
    ToleranceLine(u32),
    /// `off A X Y`: a triangle that has to be split, and a point where it is off.
    OffLine(Witness),
    /// `mesh`: the reasons so far make the mesh.
    MeshLine,
}

/// The first field of a line.
#[derive(Clone, Copy)]
pub(crate) enum FitWord {
    /// `tolerance`
    ToleranceWord,
    /// `off`
    OffWord,
    /// `mesh`
    MeshWord,
}

impl FromFields for FitLine {
    ghost read = { read_fit_line };

    ghost of_fields = { fit_fields_line };

    ghost IsOf = { λ _ _. Unit {0} };

    ghost reads = { fit_line_is };

    fn from_fields(bytes: &[u8], n: u32) -> Option<FitLine> {
        let Some((first, rest)) = first_field(bytes) else {
            return None;
        };
        match named(first) {
            None => None,
            Some(FitWord::ToleranceWord) => tolerance_line(rest),
            Some(FitWord::OffWord) => off_line(rest, n),
            Some(FitWord::MeshWord) => mesh_line(rest),
        }
    }
}

impl PageLine for FitLine {
    ghost text = { fit_line_text };

    fn push(self, page: &mut Page) {
        match self {
            FitLine::ToleranceLine(tolerance) => push_tolerance(page, tolerance),
            FitLine::OffLine(off) => push_off(page, off.triangle.number(), off.x, off.y),
            FitLine::MeshLine => push_bytes(page, b"mesh"),
        }
    }
}

impl PageLine for Witness {
    ghost text = { λ off. fit_line_text (OffLine off) };

    fn push(self, page: &mut Page) {
        FitLine::OffLine(self).push(page)
    }
}

/// The word that a field is.
fn named(field: &[u8]) -> Option<FitWord>
    ensures { result ≡ fit_line_word field.now }
{
    match field {
        b"tolerance" => Some(FitWord::ToleranceWord),
        b"off" => Some(FitWord::OffWord),
        b"mesh" => Some(FitWord::MeshWord),
        _ => None,
    }
}

/// The line of a tolerance: one number below 2^32.
fn tolerance_line(bytes: &[u8]) -> Option<FitLine>
    ensures { result ≡ tolerance_fields (fields_of bytes.now) }
{
    let Some((field, rest)) = first_field(bytes) else {
        return None;
    };
    if first_field(rest).is_some() {
        return None;
    }
    tolerance_of(read_below(field, 1 << 32))
}

/// The line of a tolerance that is this number, if it is one.
fn tolerance_of(number: Option<u32>) -> Option<FitLine>
    ensures { result ≡ tolerance_line number }
{
    match number {
        None => None,
        Some(tolerance) => Some(FitLine::ToleranceLine(tolerance)),
    }
}

/// The line of the mesh: no field.
fn mesh_line(bytes: &[u8]) -> Option<FitLine>
    ensures { result ≡ mesh_fields (fields_of bytes.now) }
{
    if first_field(bytes).is_some() {
        return None;
    }
    Some(FitLine::MeshLine)
}

/// The line of a reason: an address, a column and a row.
fn off_line(bytes: &[u8], n: u32) -> Option<FitLine>
    requires in_grid { (1 ≤ n) × (n ≤ GREATEST_LEVEL) }
    ensures { result ≡ off_fields n (fields_of bytes.now) }
{
    let Some((triangle, rest)) = first_field(bytes) else {
        return None;
    };
    let Some((x, rest)) = first_field(rest) else {
        return None;
    };
    let Some((y, rest)) = first_field(rest) else {
        return None;
    };
    if first_field(rest).is_some() {
        return None;
    }
    let end = side(n);
    off_of(
        read_address(triangle, split_end(n)),
        read_below(x, end),
        read_below(y, end),
    )
}

/// The line of a reason of these parts, where all three are there.
fn off_of(triangle: Option<Tri>, x: Option<u32>, y: Option<u32>) -> Option<FitLine>
    ensures { result ≡ off_of triangle x y }
{
    let (Some(triangle), Some(x), Some(y)) = (triangle, x, y) else {
        return None;
    };
    Some(FitLine::OffLine(Witness { triangle, x, y }))
}

/// Appends the word of a tolerance and its number.
fn push_tolerance(page: &mut Page, tolerance: u32)
    requires room { array_vec_len page.old + LONGEST_LINE ≤ PAGE_ROOM }
    ensures items { page.new.items ≡ page.old.items ++ (codes "tolerance" ++ field_text tolerance) }
    ensures len { array_vec_len page.new ≤ array_vec_len page.old + 30 }
{
    push_bytes(page, b"tolerance");
    push_field(page, tolerance);
}

/// Appends the word of a reason, its address, its column and its row.
fn push_off(page: &mut Page, address: u32, x: u32, y: u32)
    requires room { array_vec_len page.old + LONGEST_LINE ≤ PAGE_ROOM }
    ensures items { page.new.items
        ≡ page.old.items ++ (codes "off" ++ field_text address ++ field_text x ++ field_text y) }
    ensures len { array_vec_len page.new ≤ array_vec_len page.old + 66 }
{
    push_bytes(page, b"off");
    push_field(page, address);
    push_field(page, x);
    push_field(page, y);
}
