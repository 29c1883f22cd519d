//! The words of `fit`.

/// The words of `fit GRID PREFIX error E SPACING` and of `fit GRID PREFIX budget BUDGET SPACING`.
#[derive(Clone, Copy)]
pub struct FitWords<'a> {
    /// The name of the grid's file.
    pub grid: &'a str,
    /// What the name of the mesh begins with.
    pub prefix: &'a str,
    /// What the mesh is fitted to.
    pub goal: Goal,
    /// The world units of a grid step.
    pub spacing: u32,
}

/// The words of `fit GRID PREFIX error E SPACING keep POINTS`.
#[derive(Clone, Copy)]
pub struct KeepWords<'a> {
    /// The name of the grid's file.
    pub grid: &'a str,
    /// What the name of the mesh begins with.
    pub prefix: &'a str,
    /// The greatest error, in thousandths of a unit of height.
    pub thousandths: u32,
    /// The world units of a grid step.
    pub spacing: u32,
    /// The name of the file with the points that the mesh keeps.
    pub points: &'a str,
}

/// What a mesh is fitted to.
#[derive(Clone, Copy)]
pub enum Goal {
    /// An error of at most so many thousandths of a unit of height.
    AtError(u32),
    /// So many triangles.
    InBudget(u32),
}
