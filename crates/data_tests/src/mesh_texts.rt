//! Texts of small meshes by `obj_write`, worked by hand, and one of many lines that comes in pieces.

ghost use Rattle.std.specs.Prelude.{◌≡◌, false};

use crate::leaves::{finest, leaves_of};
use cull_marks::{Plane, Planes};
use obj_write::{MeshView, SparseView, VertexTable, number_vertices, write_mesh, write_sparse};
use pgm_grid::{Grid, side_for};
use roam_edge::{MemMeshes, MeshCall, MeshSink};
use std::alloc::Global;
use std::test::Fail;
use wedgie_tree::{GREATEST_SPACING, Wedges};

/// How many bytes the text of the finest triangles of a flat grid of 33 points a side has, as another
/// program counts them.
const WHOLE: usize = 38824;

/// The halves of the square.
const HALVES: [u32; 2] = [2, 3];

/// Their children.
const QUARTERS: [u32; 4] = [4, 5, 6, 7];

/// All finest triangles of a square of side 2, depth first.
const EIGHTHS: [u32; 8] = [8, 9, 10, 11, 12, 13, 14, 15];

/// Triangles of several levels, in no order.
const MIXED: [u32; 4] = [15, 2, 8, 3];

const HALVES_TEXT: &str = "v 0 0 0\nv 2 0 0\nv 0 2 0\nv 2 2 0\nf 1 2 3\nf 4 3 2\n";

const QUARTERS_TEXT: &str =
    "v 0 0 0\nv 2 0 0\nv 1 1 10\nv 0 2 0\nv 2 2 0\nf 3 1 2\nf 3 4 1\nf 3 5 4\nf 3 2 5\n";

const QUARTERS_AT_3: &str =
    "v 0 0 0\nv 6 0 0\nv 3 3 10\nv 0 6 0\nv 6 6 0\nf 3 1 2\nf 3 4 1\nf 3 5 4\nf 3 2 5\n";

const ALL_INSIDE: &str =
    "v 0 0 0\nv 2 0 0\nv 1 1 10\nv 0 2 0\nv 2 2 0\ng inside\nf 3 1 2\nf 3 4 1\nf 3 5 4\nf 3 2 5\n";

const LAST_INSIDE: &str =
    "v 0 0 0\nv 2 0 0\nv 1 1 10\nv 0 2 0\nv 2 2 0\ng cut\nf 3 1 2\nf 3 4 1\nf 3 5 4\ng inside\nf 3 2 5\n";

const SECOND_OUTSIDE: &str =
    "v 0 0 0\nv 2 0 0\nv 1 1 10\nv 0 2 0\nv 2 2 0\ng cut\nf 3 1 2\ng outside\nf 3 4 1\ng cut\nf 3 5 4\nf 3 2 5\n";

/// Three vertices a row, and a plane that cuts, whose group lines stand before the faces.
const EIGHTHS_AT_50: &str =
    "v 0 0 0\nv 50 0 0\nv 100 0 0\nv 0 50 0\nv 50 50 10\nv 100 50 0\nv 0 100 0\nv 50 100 0\nv 100 100 0\n\
g cut\nf 2 5 1\ng inside\nf 2 3 5\ng cut\nf 4 5 7\nf 4 1 5\ng inside\nf 8 5 9\ng cut\nf 8 7 5\ng inside\nf 6 5 3\nf 6 9 5\n";

const MIXED_TEXT: &str =
    "v 0 0 0\nv 1 0 0\nv 2 0 0\nv 1 1 10\nv 2 1 0\nv 0 2 0\nv 2 2 0\nf 5 7 4\nf 1 3 6\nf 2 4 1\nf 7 6 3\n";

/// Writes the mesh of these triangles with the numbers of a slice, and answers whether that ended well.
fn write_by_slice<M: MeshSink>(
    alloc: Global,
    wedges: &Wedges,
    numbers: &[u32],
    spacing: u32,
    planes: &Planes,
    out: &mut M,
) -> Result<bool, Fail>
    requires { M.under_way out.old ≡ false }
{
    if spacing == 0 || spacing > GREATEST_SPACING {
        return Err("a spacing".into());
    }
    let n = wedges.grid().n();
    let leaves = leaves_of(alloc, n, numbers)?;
    let mut vertex_numbers = vec![in alloc; 0; side_for(n) * side_for(n)]?;
    number_vertices(leaves.as_slice(), n, vertex_numbers.as_mut_slice());
    let view = MeshView {
        wedges,
        leaves: leaves.as_slice(),
        numbers: vertex_numbers.as_slice(),
        spacing,
        planes,
    };
    Ok(write_mesh(&view, "out", 7, out).is_ok())
}

/// Writes it with the numbers of a table.
fn write_to<M: MeshSink>(
    alloc: Global,
    wedges: &Wedges,
    numbers: &[u32],
    spacing: u32,
    planes: &Planes,
    out: &mut M,
) -> Result<bool, Fail>
    requires { M.under_way out.old ≡ false }
{
    if spacing == 0 || spacing > GREATEST_SPACING {
        return Err("a spacing".into());
    }
    let n = wedges.grid().n();
    let leaves = leaves_of(alloc, n, numbers)?;
    let mut vertex_numbers = VertexTable::new(alloc, n)?;
    vertex_numbers.number(leaves.as_slice(), n);
    let mesh = MeshView {
        wedges,
        leaves: leaves.as_slice(),
        numbers: vertex_numbers.numbers(),
        spacing,
        planes,
    };
    let view = SparseView::by_table(mesh, &vertex_numbers);
    Ok(write_sparse(&view, "out", 7, out).is_ok())
}

/// Whether a sink has one mesh, which has its name and this text, and is finished.
fn has_mesh(out: &MemMeshes, want: &str) -> bool {
    if out.count() != 1 {
        return false;
    }
    let is_named = out.prefix(0) == "out" && out.number(0) == 7;
    is_named && out.finished(0) && out.bytes(0) == want.as_bytes()
}

/// Whether these triangles of the hill in the middle are written as this text, under the plane with this offset, with
/// the numbers of a table and with those of a slice.
fn is_written_as(
    alloc: Global,
    wedges: &Wedges,
    numbers: &[u32],
    spacing: u32,
    offset: Option<i64>,
    want: &str,
) -> Result<bool, Fail> {
    let mut planes = Planes::none();
    if let Some(offset) = offset {
        planes.add(Plane::new(1, 0, 0, offset).ok_or("a plane")?);
    }
    let mut by_table = MemMeshes::new(alloc, &[], 1, 1024)?;
    let mut by_slice = MemMeshes::new(alloc, &[], 1, 1024)?;
    let first = write_to(alloc, wedges, numbers, spacing, &planes, &mut by_table)?;
    let second = write_by_slice(alloc, wedges, numbers, spacing, &planes, &mut by_slice)?;
    Ok(first && second && has_mesh(&by_table, want) && has_mesh(&by_slice, want))
}

#[test]
fn a_mesh_is_written_as_its_text(rt: HostRuntime) -> Result<(), Fail> {
    let cases: [(&[u32], u32, Option<i64>, &str); 8] = [
        (&HALVES, 1, None, HALVES_TEXT),
        (&QUARTERS, 1, None, QUARTERS_TEXT),
        (&QUARTERS, 3, None, QUARTERS_AT_3),
        (&QUARTERS, 1, Some(0), ALL_INSIDE),
        (&QUARTERS, 1, Some(-1), LAST_INSIDE),
        (&QUARTERS, 1, Some(-2), SECOND_OUTSIDE),
        (&EIGHTHS, 50, Some(-50), EIGHTHS_AT_50),
        (&MIXED, 1, None, MIXED_TEXT),
    ];
    let mut grid = Grid::flat(rt.alloc(), 1, 65535)?;
    grid.put(1, 1, 10);
    let wedges = Wedges::build(rt.alloc(), grid)?;
    for (numbers, spacing, offset, want) in cases {
        let is_it = is_written_as(rt.alloc(), &wedges, numbers, spacing, offset, want)?;
        assert!(rt; is_it, "{want}");
    }
    Ok(())
}

/// Writes the finest triangles of the flat grid of 33 points a side where the piece of this number fails: whether that
/// ended well, and how many bytes are there.
fn write_finest(alloc: Global, fails: u64) -> Result<(bool, usize), Fail> {
    let wedges = Wedges::build(alloc, Grid::flat(alloc, 5, 1)?)?;
    let numbers = finest(alloc)?;
    let mut out = MemMeshes::new(alloc, &[MeshCall::Write(fails)], 1, 65536)?;
    let planes = Planes::none();
    let done = write_to(alloc, &wedges, numbers.as_slice(), 1, &planes, &mut out)?;
    if out.count() != 1 {
        return Ok((done, 0));
    }
    Ok((done, out.bytes(0).len()))
}

#[test]
fn text_comes_in_pieces_of_8_kib_at_least_but_for_the_last(rt: HostRuntime) -> Result<(), Fail> {
    let (first, second) = (write_finest(rt.alloc(), 2)?, write_finest(rt.alloc(), 3)?);
    assert_eq!(rt; (first.0, second.0), (false, false));
    assert!(rt; first.1 >= 8192 && second.1 >= first.1.saturating_add(8192));
    assert_eq!(rt; write_finest(rt.alloc(), 1)?, (false, 0));
    assert_eq!(rt; write_finest(rt.alloc(), 4)?, (true, WHOLE));
    Ok(())
}
