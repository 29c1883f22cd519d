//! A mesh view, and where its numbers stand.

ghost use Rattle.std.specs.Prelude.{◌≡◌, []};
ghost use Rattle.obj_write.specs.LineView.{mesh_seen, AreBoxesOf};

use crate::line_view::{LineView, Marking};
use crate::mesh::MeshView;
use crate::table::VertexTable;
use bintree_addr::Tri;
use pgm_grid::Grid;
use std::marker::Model;

/// A mesh as it is to be written, and which blocks of 64 places are known to have none of its numbers.
///
/// A contract sees the mesh alone. With a table what is done for a mesh of few triangles on a large grid is bounded by
/// the triangles, but for a look at one flag in 64 places.
#[derive(Drop)]
pub struct SparseView<'a> {
    pub(crate) mesh: LineView<'a>,
    /// For each block of places whether a number may stand there; absent where nothing is known of any.
    pub(crate) used: Option<&'a [bool]>,
}

impl<'a> Model for SparseView<'a> {
    ghost use Rattle.std.specs.Prelude.{IfSome};
    ghost use Rattle.obj_write.specs.declared.mesh.MeshView.{MeshView};
    ghost use Rattle.obj_write.specs.LineView.{mesh_seen, AreBoxesOf};
    ghost use Rattle.obj_write.specs.Table.{AreFlagged};

    ghost Value = { MeshView };

    ghost view = { λ v. mesh_seen v.mesh };

    ghost invariant = { λ v. AreBoxesOf v.mesh.grid.now v.mesh.marking
        × IfSome v.used (λ used. AreFlagged v.mesh.numbers.now used.now) };
}

impl<'a> SparseView<'a> {
    /// A mesh of which nothing is known: each place is looked at.
    pub fn new(mesh: MeshView<'a>) -> SparseView<'a>
        ensures { result ≡ mesh.entry }
    {
        SparseView {
            mesh: line_view(mesh),
            used: None,
        }
    }

    /// A mesh whose numbers are those of a table.
    pub fn by_table(mesh: MeshView<'a>, table: &'a VertexTable) -> SparseView<'a>
        requires numbers { mesh.numbers.now ≡ table.now }
        ensures { result ≡ mesh.entry }
    {
        SparseView {
            mesh: line_view(mesh),
            used: Some(&table.used),
        }
    }

    /// The mesh of these triangles over heights alone, whose numbers are those of a table; no plane is in force.
    pub fn of_heights(
        grid: &'a Grid,
        leaves: &'a [Tri],
        table: &'a VertexTable,
        spacing: u32,
    ) -> SparseView<'a>
        ensures heights { result.wedges.now ≡ grid.now }
        ensures leaves { result.leaves.now ≡ leaves.now }
        ensures numbers { result.numbers.now ≡ table.now }
        ensures spacing { result.spacing ≡ spacing }
        ensures planes { result.planes.now ≡ [] }
    {
        let mesh = LineView {
            grid,
            leaves,
            numbers: table.numbers(),
            spacing,
            marking: None,
        };
        SparseView {
            mesh,
            used: Some(&table.used),
        }
    }

    /// The same view once more.
    pub(crate) fn copy(&self) -> SparseView<'a>
        ensures { result ≡ self.now }
    {
        SparseView {
            mesh: self.mesh,
            used: self.used,
        }
    }
}

/// What the lines of a mesh are made of.
fn line_view<'a>(mesh: MeshView<'a>) -> LineView<'a>
    ensures seen { mesh_seen result ≡ mesh.entry }
    ensures numbers { result.numbers.now ≡ mesh.entry.numbers.now }
    ensures boxes { AreBoxesOf result.grid.now result.marking }
{
    LineView {
        grid: mesh.wedges.grid(),
        leaves: mesh.leaves,
        numbers: mesh.numbers,
        spacing: mesh.spacing,
        marking: Some(Marking {
            wedges: mesh.wedges,
            planes: mesh.planes,
        }),
    }
}
