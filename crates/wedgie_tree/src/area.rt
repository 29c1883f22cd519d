//! An area of grid points.

ghost use Rattle.std.specs.Prelude.{IsTrue, ◌↔◌, ◌≡◌};
ghost use Rattle.bintree_laws.specs.Areas.{MeetsArea, overlaps};
ghost use Rattle.wedgie_tree.specs.Edits.{area_between};

use crate::shape::{greatest, least};
use bintree_addr::Corners;
use std::marker::Model;

/// A rectangle of grid points: the columns `x0` to `x1` and the rows `y0` to `y1`, both ends included.
#[derive(Clone, Copy, Debug, PartialEq, Eq)]
pub struct Area {
    pub(crate) x0: u32,
    pub(crate) y0: u32,
    pub(crate) x1: u32,
    pub(crate) y1: u32,
}

impl Model for Area {
    ghost use Rattle.std.specs.Prelude.{◌≤◌};
    ghost use Rattle.mesh_defs.specs.State as state;

    ghost Value = { state.Area };

    ghost view = { λ a. record { x0 = a.x0; y0 = a.y0; x1 = a.x1; y1 = a.y1 } };

    ghost invariant = { λ a. (a.x0 ≤ a.x1) × (a.y0 ≤ a.y1) };

    ghost inverse = { λ a. record { x0 = a.x0; y0 = a.y0; x1 = a.x1; y1 = a.y1 } };
}

impl Area {
    ghost use Rattle.std.specs.Prelude.{◌≤◌};

    /// The area of these columns and rows.
    pub fn new(x0: u32, y0: u32, x1: u32, y1: u32) -> Self
        requires columns { x0 ≤ x1 }
        requires rows { y0 ≤ y1 }
        ensures { result ≡ area_between x0 y0 x1 y1 }
    {
        Area { x0, y0, x1, y1 }
    }

    /// Whether the bounding rectangle of the corners shares a grid point with the area.
    pub fn meets(self, corners: Corners) -> bool
        ensures { IsTrue result ↔ MeetsArea corners self }
    {
        self.overlaps(corners)
    }

    // Whether the columns and the rows overlap.
    fn overlaps(self, corners: Corners) -> bool
        ensures value { result ≡ overlaps corners self }
        ensures columns { self.x0 ≤ self.x1 }
        ensures rows { self.y0 ≤ self.y1 }
    {
        let Corners { apex, v0, v1 } = corners;
        self.x0 <= greatest(apex.x, v0.x, v1.x)
            && least(apex.x, v0.x, v1.x) <= self.x1
            && self.y0 <= greatest(apex.y, v0.y, v1.y)
            && least(apex.y, v0.y, v1.y) <= self.y1
    }
}
