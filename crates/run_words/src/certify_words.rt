//! The words of `certify`.

use crate::fit_words::Goal;
use view_priority::Camera;

/// The words of `certify make GRID X Y Z BUDGET SPACING`.
#[derive(Clone, Copy)]
pub struct MakeWords<'a> {
    /// The name of the grid's file.
    pub grid: &'a str,
    /// Where the mesh is seen from.
    pub camera: Camera,
    /// The greatest number of triangles of the mesh.
    pub budget: u32,
    /// The world units of a grid step.
    pub spacing: u32,
}

/// The words of `certify check GRID OBJ CERT BUDGET SPACING`.
#[derive(Clone, Copy)]
pub struct CheckWords<'a> {
    /// The name of the grid's file.
    pub grid: &'a str,
    /// The name of the mesh's file.
    pub mesh: &'a str,
    /// The name of the certificate's file.
    pub certificate: &'a str,
    /// The greatest number of triangles of the mesh.
    pub budget: u32,
    /// The world units of a grid step.
    pub spacing: u32,
}

/// The words of `certify make-fit GRID error E SPACING` and of `certify make-fit GRID budget BUDGET SPACING`.
#[derive(Clone, Copy)]
pub struct FitMakeWords<'a> {
    /// The name of the grid's file.
    pub grid: &'a str,
    /// What the mesh is fitted to.
    pub goal: Goal,
    /// The world units of a grid step, on which no certificate depends.
    pub spacing: u32,
}

/// The words of `certify check-fit GRID OBJ CERT error E SPACING` and of
/// `certify check-fit GRID OBJ CERT budget BUDGET SPACING`.
#[derive(Clone, Copy)]
pub struct FitCheckWords<'a> {
    /// The name of the grid's file.
    pub grid: &'a str,
    /// The name of the mesh's file.
    pub mesh: &'a str,
    /// The name of the certificate's file.
    pub certificate: &'a str,
    /// What the mesh is fitted to.
    pub goal: Goal,
    /// The world units of a grid step.
    pub spacing: u32,
}
