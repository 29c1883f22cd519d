//! The numbers of the vertices.

ghost use Rattle.std.specs.Prelude.{◌≡◌, ℕ, ◌+◌, ◌*◌, ◌^◌, ◌<◌, ◌≤◌, All, length, replicate, slice_set};
ghost use Rattle.mesh_defs.specs.HeightField.{side_of};
ghost use Rattle.mesh_defs.specs.Triangle.{level_of};
ghost use Rattle.mesh_defs.specs.MeshText.{vertices_of};
ghost use Rattle.bintree_laws.specs.Corners.{IsInSquare};
ghost use Rattle.mesh_defs.specs.declared.level.TheConstants.{GREATEST_LEVEL};
ghost use Rattle.obj_write.specs.Numbers.{numbers_of};
ghost use Rattle.obj_write.specs.VertexMarks.{grid_place, vertex_marks, numbered, marked};

use bintree_addr::{Point, Tri};
use pgm_grid::side_for;

/// Gives each vertex of the leaves its number, counted from 1, and answers how many there are.
///
/// The numbers stand by y and then by x: that of point (x, y) at place `y * (2^n + 1) + x`, and 0 for a
/// point that is no corner of a leaf. What stood there before does not count.
/// Cost (not proved): three passes over the places, and a step a level for each leaf.
pub fn number_vertices(leaves: &[Tri], n: u32, numbers: &mut [u32]) -> u32
    requires in_grid { (1 ≤ n) × (n ≤ GREATEST_LEVEL) }
    requires levels { All (λ a. level_of a ≤ 2 * n) leaves.now }
    requires room { length numbers.old ≡ side_of n * side_of n }
    ensures numbers { numbers.new ≡ numbers_of n leaves.now }
    ensures count { result ≡ length (vertices_of n leaves.now) }
{
    numbers.fill(0);
    mark_corners(leaves, n, numbers);
    number_marked(numbers)
}

/// Marks the place of each corner by 1.
fn mark_corners(leaves: &[Tri], n: u32, numbers: &mut [u32])
    requires in_grid { (1 ≤ n) × (n ≤ GREATEST_LEVEL) }
    requires levels { All (λ a. level_of a ≤ 2 * n) leaves.now }
    requires clear { numbers.old ≡ replicate (side_of n * side_of n) 0 }
    ensures { numbers.new ≡ vertex_marks n leaves.now }
{
    for leaf in leaves {
        let corners = leaf.corners(n);
        mark_point(n, numbers, corners.apex);
        mark_point(n, numbers, corners.v0);
        mark_point(n, numbers, corners.v1);
    }
}

/// Marks the place of a point.
fn mark_point(n: u32, numbers: &mut [u32], point: Point)
    requires in_grid { n ≤ GREATEST_LEVEL }
    requires within { IsInSquare (2 ^ n) point }
    requires room { length numbers.old ≡ side_of n * side_of n }
    ensures { numbers.new ≡ slice_set numbers.old (grid_place n point) 1 }
{
    numbers[place(n, point)] = 1;
}

/// The place of a point, by y and then by x.
pub(crate) fn place(n: u32, point: Point) -> usize
    requires in_grid { n ≤ GREATEST_LEVEL }
    requires within { IsInSquare (2 ^ n) point }
    ensures value { result ≡ grid_place n point }
    ensures below { result < side_of n * side_of n }
{
    point.y as usize * side_for(n) + point.x as usize
}

/// Puts in place of each mark how many marks there are up to it, and answers how many there are.
fn number_marked(marks: &mut [u32]) -> u32
    requires { length marks.old < 2 ^ 32 }
    ensures numbers { marks.new ≡ numbered 0 marks.old }
    ensures count { result ≡ marked marks.old }
{
    let mut count = 0;
    for mark in marks.iter_mut() {
        if *mark != 0 {
            count += 1;
            *mark = count;
        }
    }
    count
}
