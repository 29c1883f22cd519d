//! Comparing a file with the text of a mesh.

ghost use Rattle.std.specs.Prelude.{◌≡◌, ℕ, ◌+◌, ◌*◌, ◌^◌, ◌<◌, ◌≤◌, [], List, None, Some, Err, true, false, All};
ghost use Rattle.std.specs.Prelude.{length, IfOk, OnErr};
ghost use Rattle.mesh_defs.specs.HeightField.{side_of};
ghost use Rattle.mesh_defs.specs.Triangle.{level_of};
ghost use Rattle.mesh_defs.specs.MeshText.{mesh_text};
ghost use Rattle.roam_edge.specs.Fault.{HasCause, Rose, IsInTime};
ghost use Rattle.mesh_defs.specs.declared.level.TheConstants.{GREATEST_LEVEL};
ghost use Rattle.roam_edge.specs.Told.{StaysTold};
ghost use Rattle.wedgie_tree.specs.declared.wedges.TheConstants.{GREATEST_SPACING};
ghost use Rattle.mesh_compare.specs.Differs.{FindsDifference, IsReadInPart, left_of};
ghost use Rattle.mesh_compare.specs.declared.comparing.CompareFault.{CompareFault};

use crate::piece::match_piece;
use crate::window::Window;
use arrayvec::ArrayVec;
use bintree_addr::Tri;
use obj_write::{LONGEST_PIECE, MeshLines, SparseView, VertexTable};
use pgm_grid::Grid;
use roam_edge::{Failed, NoMemory, Shelf};
use std::alloc::Global;
use thiserror::Error;
use wedgie_tree::Wedges;

/// Why a comparison came to no end.
#[derive(Clone, Copy, Debug, PartialEq, Eq, Error)]
pub enum CompareFault {
    /// There is no room for the numbers of the vertices or for the bytes that are read at once.
    #[error("out of memory")]
    NoMemory,
    /// The file could not be read further.
    #[error("failed")]
    Failed,
}

/// Compares what is left of a file with the text of the mesh of these triangles, without view planes.
///
/// The answer is the first place, counted from 0, where they differ or where only one goes on, and none where they
/// are equal. The file is read in pieces of 64 KiB at most, to its end or to the end of the piece with that place.
/// It is `compare_heights` of the heights.
pub fn compare<F: Shelf>(
    alloc: Global,
    w: &Wedges,
    leaves: &[Tri],
    spacing: u32,
    shelf: &mut F,
) -> Result<Option<u64>, CompareFault>
    requires levels { All (λ a. level_of a ≤ 2 * w.now.n) leaves.now }
    requires few { length leaves.now < 2 ^ 31 }
    requires spacing_low { 1 ≤ spacing }
    requires spacing_high { spacing ≤ GREATEST_SPACING }
    requires not_ended { F.ended shelf.old ≡ false }
    ensures place { IfOk result (λ found. FindsDifference
        (mesh_text w.now.n w.now.heights spacing [] leaves.now) (F.rest shelf.old) found) }
    ensures ended { IfOk result (λ found. found ≡ None → F.ended shelf.new ≡ true) }
    ensures all_read { IfOk result (λ found. found ≡ None → (rest : List ℕ) → F.rest shelf.old ≡ Some rest →
        F.rest shelf.new ≡ Some []) }
    ensures calm { IfOk result (λ _. F.faults shelf.new ≡ F.faults shelf.old) }
    ensures failed { result ≡ Err CompareFault.Failed → Rose (F.faults shelf.old) (F.faults shelf.new) }
    // What was read before a failed read is a prefix of the text.
    ensures cut { result ≡ Err CompareFault.Failed → IsReadInPart
        (mesh_text w.now.n w.now.heights spacing [] leaves.now) (F.rest shelf.old) (F.rest shelf.new) }
    ensures goes_on { result ≡ Err CompareFault.Failed → F.ended shelf.new ≡ false }
    ensures no_memory { result ≡ Err CompareFault.NoMemory → shelf.new ≡ shelf.old }
    ensures told { StaysTold (F.rest shelf.old) (F.rest shelf.new) }
    ensures files { F.files shelf.new ≡ F.files shelf.old }
    ensures opens { F.opens shelf.new ≡ F.opens shelf.old }
    ensures in_time { IsInTime (F.late shelf.old) (F.faults shelf.old) (F.late shelf.new) }
{
    compare_heights(alloc, w.grid(), leaves, spacing, shelf)
}

/// The same over heights alone.
///
/// Cost (not proved): that of `VertexTable::number`, and a few steps a byte; 64 KiB, and a little more than four
/// bytes for each grid point.
pub fn compare_heights<F: Shelf>(
    alloc: Global,
    grid: &Grid,
    leaves: &[Tri],
    spacing: u32,
    shelf: &mut F,
) -> Result<Option<u64>, CompareFault>
    requires levels { All (λ a. level_of a ≤ 2 * grid.now.n) leaves.now }
    requires few { length leaves.now < 2 ^ 31 }
    requires spacing_low { 1 ≤ spacing }
    requires spacing_high { spacing ≤ GREATEST_SPACING }
    requires not_ended { F.ended shelf.old ≡ false }
    ensures place { IfOk result (λ found. FindsDifference
        (mesh_text grid.now.n grid.now.heights spacing [] leaves.now) (F.rest shelf.old) found) }
    ensures ended { IfOk result (λ found. found ≡ None → F.ended shelf.new ≡ true) }
    ensures all_read { IfOk result (λ found. found ≡ None → (rest : List ℕ) → F.rest shelf.old ≡ Some rest →
        F.rest shelf.new ≡ Some []) }
    ensures calm { IfOk result (λ _. F.faults shelf.new ≡ F.faults shelf.old) }
    ensures failed { result ≡ Err CompareFault.Failed → Rose (F.faults shelf.old) (F.faults shelf.new) }
    // What was read before a failed read is a prefix of the text.
    ensures cut { result ≡ Err CompareFault.Failed → IsReadInPart
        (mesh_text grid.now.n grid.now.heights spacing [] leaves.now) (F.rest shelf.old) (F.rest shelf.new) }
    ensures goes_on { result ≡ Err CompareFault.Failed → F.ended shelf.new ≡ false }
    ensures no_memory { result ≡ Err CompareFault.NoMemory → shelf.new ≡ shelf.old }
    ensures told { StaysTold (F.rest shelf.old) (F.rest shelf.new) }
    ensures files { F.files shelf.new ≡ F.files shelf.old }
    ensures opens { F.opens shelf.new ≡ F.opens shelf.old }
    ensures in_time { IsInTime (F.late shelf.old) (F.faults shelf.old) (F.late shelf.new) }
{
    let n = grid.n();
    let Ok((mut window, mut table)) = room(alloc, n) else {
        return Err(CompareFault::NoMemory);
    };
    table.number(leaves, n);
    let lines = MeshLines::new(SparseView::of_heights(grid, leaves, &table, spacing));
    match compare_lines(lines, &mut window, shelf) {
        Ok(found) => Ok(found),
        Err(Failed) => Err(CompareFault::Failed),
    }
}

/// A window on a file, and a number for each grid point.
fn room(alloc: Global, n: u32) -> Result<(Window, VertexTable), NoMemory>
    requires in_grid { (1 ≤ n) × (n ≤ GREATEST_LEVEL) }
    ensures window { IfOk result (λ r. r.0 ≡ []) }
    ensures numbers { IfOk result (λ r. length r.1 ≡ side_of n * side_of n) }
    ensures few { IfOk result (λ r. length r.1 < 2 ^ 31) }
{
    let window = Window::new(alloc)?;
    let numbers = VertexTable::new(alloc, n)?;
    Ok((window, numbers))
}

/// Compares what is left of a file with these lines.
fn compare_lines<F: Shelf>(
    mut lines: MeshLines<'_>,
    window: &mut Window,
    shelf: &mut F,
) -> Result<Option<u64>, Failed>
    requires few { lines.most < 2 ^ 32 }
    requires not_ended { F.ended shelf.old ≡ false }
    ensures place { IfOk result
        (λ found. FindsDifference lines.entry.text (left_of window.old (F.rest shelf.old)) found) }
    ensures ended { IfOk result (λ found. found ≡ None → F.ended shelf.new ≡ true) }
    ensures all_read { IfOk result (λ found. found ≡ None → (bytes : List ℕ) →
        left_of window.old (F.rest shelf.old) ≡ Some bytes → F.rest shelf.new ≡ Some []) }
    ensures cut { OnErr result
        (IsReadInPart lines.entry.text (left_of window.old (F.rest shelf.old)) (F.rest shelf.new)) }
    ensures goes_on { OnErr result (F.ended shelf.new ≡ false) }
    ensures told { StaysTold (F.rest shelf.old) (F.rest shelf.new) }
    ensures files { F.files shelf.new ≡ F.files shelf.old }
    ensures opens { F.opens shelf.new ≡ F.opens shelf.old }
    ensures faults { HasCause (F.faults shelf.old) (F.faults shelf.new) result }
    ensures in_time { IsInTime (F.late shelf.old) (F.faults shelf.old) (F.late shelf.new) }
{
    let mut piece: ArrayVec<u8, LONGEST_PIECE> = ArrayVec::new();
    let mut at = 0;
    'lines: while lines.push_next(&mut piece) {
        if let Some(k) = match_piece(window, shelf, piece.as_slice())? {
            return Ok(Some(at + k as u64));
        }
        at += piece.len() as u64;
        piece.clear();
    }
    match window.next(shelf)? {
        Some(_) => Ok(Some(at)),
        None => Ok(None),
    }
}
