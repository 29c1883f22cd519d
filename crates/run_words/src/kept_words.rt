//! The words of `certify make-fit` and `certify check-fit` where the mesh keeps points.

/// The words of `certify make-fit GRID error E SPACING keep POINTS`.
#[derive(Clone, Copy)]
pub struct KeptMakeWords<'a> {
    /// The name of the grid's file.
    pub grid: &'a str,
    /// The greatest error, in thousandths of a unit of height.
    pub thousandths: u32,
    /// The world units of a grid step, on which no certificate depends.
    pub spacing: u32,
    /// The name of the file with the points that the mesh keeps.
    pub points: &'a str,
}

/// The words of `certify check-fit GRID OBJ CERT error E SPACING keep POINTS`.
#[derive(Clone, Copy)]
pub struct KeptCheckWords<'a> {
    /// The name of the grid's file.
    pub grid: &'a str,
    /// The name of the mesh's file.
    pub mesh: &'a str,
    /// The name of the certificate's file.
    pub certificate: &'a str,
    /// The greatest error, in thousandths of a unit of height.
    pub thousandths: u32,
    /// The world units of a grid step.
    pub spacing: u32,
    /// The name of the file with the points that the mesh keeps.
    pub points: &'a str,
}
