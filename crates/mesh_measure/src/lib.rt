//! How far a mesh is from the surface that it stands for, in whole numbers: triangle by triangle, and as a whole.
//!
//! Each grid point is held against the plane of the triangle that holds it, row by row. Where the row meets the edges
//! tells which columns the triangle holds, by a sum an edge; along them the plane runs by sums alone. What a deviation
//! is, and that thickness bounds it, stands in `fit_laws`.

#![tactic(auto)]

mod areas;
mod at_point;
mod columns;
mod edges;
mod facet;
mod line;
mod mesh;
mod own;
mod points;
mod shape;
mod slope;

pub use at_point::{off_point, point_above};
pub use facet::{corners_in, plane_height};
pub use mesh::{deviation, thickest};
pub use own::{exceeds_own, exceeds_own_at};
pub use points::{exceeds, exceeds_at, off_triangle, off_triangle_at};
