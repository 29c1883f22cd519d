//! The reasons of a certificate, what it is to prove, and what a checker says of it.

use bintree_addr::Tri;

/// A triangle that has to be split, and a grid point where the surface is too far from its plane.
#[derive(Clone, Copy, Debug, PartialEq, Eq)]
pub struct Witness {
    /// The triangle.
    pub triangle: Tri,
    /// The column of the point, from the left.
    pub x: u32,
    /// The row of the point, from the bottom.
    pub y: u32,
}

/// What a mesh is the best for.
#[derive(Clone, Copy, Debug, PartialEq, Eq)]
pub enum Target {
    /// The fewest triangles that are nowhere off by more than the tolerance.
    Error {
        /// In units of height, times 2^n.
        tolerance: u32,
    },
    /// The least greatest error of so many triangles.
    Budget {
        /// The most triangles.
        triangles: u32,
    },
}

/// Why a certificate is rejected: the first test that fails.
#[derive(Clone, Copy, Debug, PartialEq, Eq)]
pub enum FitReject {
    /// It is for another tolerance.
    OtherTolerance,
    /// This reason, counted from 1 over those before the mesh and behind it, is the first that is none.
    BadReason {
        /// The number of the reason.
        index: u32,
    },
    /// A triangle of the mesh is off by more than the tolerance.
    OverTolerance,
    /// The mesh has more triangles than the budget.
    OverBudget,
    /// The reasons behind the mesh do not need more triangles than the budget; or, where the mesh has to keep points, one of
    /// them is none of its vertices.
    TooFewReasons,
}

/// What a checker says of a certificate: that it is sound, or the first test that fails.
#[derive(Clone, Copy, Debug, PartialEq, Eq)]
pub enum FitVerdict {
    /// It is sound, so its mesh is the best.
    Certified {
        /// How many triangles the mesh has.
        triangles: u32,
        /// How far the surface is from the mesh at a grid point, at most, in units of height, times 2^n.
        deviation: u32,
    },
    /// It is not sound.
    Rejected {
        /// The first test that fails.
        why: FitReject,
    },
}
