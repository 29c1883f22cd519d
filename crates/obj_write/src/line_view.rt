//! What the lines of a mesh are made of.

use bintree_addr::Tri;
use cull_marks::Planes;
use pgm_grid::Grid;
use wedgie_tree::Wedges;

/// The view planes in force, and the boxes that marks are decided by.
#[derive(Clone, Copy)]
pub(crate) struct Marking<'a> {
    pub(crate) wedges: &'a Wedges,
    pub(crate) planes: &'a Planes,
}

/// A mesh as its lines are made: of heights alone, but for the marks.
#[derive(Clone, Copy)]
pub(crate) struct LineView<'a> {
    pub(crate) grid: &'a Grid,
    /// The triangles, in the order of their faces.
    pub(crate) leaves: &'a [Tri],
    /// The numbers of their vertices.
    pub(crate) numbers: &'a [u32],
    /// How many world units a grid step has.
    pub(crate) spacing: u32,
    /// Absent where no plane is in force.
    pub(crate) marking: Option<Marking<'a>>,
}
