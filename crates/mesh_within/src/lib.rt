//! How far a mesh of triangles of any shape is from a surface at most, exactly, over all grid points that a triangle holds.
//!
//! Row by row, the columns that a triangle holds lie between where the row meets the edges: a division an edge. The deviation is
//! a fraction, the gap over twice the triangle's area, and fractions are compared by products. `judge` has it all: partners of
//! edges, found by sorting, the rule of partners of `mesh_cover`, and the deviation.

#![tactic(auto)]

mod columns;
mod deviation;
mod edges;
mod farthest;
mod shape;
mod verdict;

pub use deviation::{Deviation, greatest_deviation};
pub use edges::partners;
pub use verdict::{is_within, judge};
