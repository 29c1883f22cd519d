//! The corners of triangles that follow one another depth first, with the fields of their vertex numbers.

ghost use Rattle.std.specs.Prelude.{◌≡◌, ℕ, List, ◌+◌, ◌*◌, ◌/◌, ◌^◌, ◌<◌, ◌≤◌, length, slice_index};
ghost use Rattle.mesh_defs.specs.HeightField.{side_of};
ghost use Rattle.mesh_defs.specs.Triangle.{level_of, corners_of, midpoint};
ghost use Rattle.mesh_defs.specs.declared.level.TheConstants.{GREATEST_LEVEL};
ghost use Rattle.bintree_laws.specs.Corners.{IsInSquare};
ghost use Rattle.obj_write.specs.Field.{IsFieldOf};
ghost use Rattle.obj_write.specs.VertexMarks.{grid_place};
ghost use Rattle.obj_write.specs.Faces.{IsCornerAt, IsFace, AreFaces, IsKnown};
ghost use Rattle.obj_write.specs.declared.faces.TheConstants.{LEVELS};

use crate::field::{Field, field_of};
use crate::vertices::place;
use bintree_addr::{Point, Tri};

/// How many levels triangles have.
pub(crate) const LEVELS: usize = 29;

/// The field of the number at a place of the grid, and the place.
#[derive(Clone, Copy, Debug)]
pub(crate) struct Corner {
    pub(crate) field: Field,
    place: usize,
}

/// A triangle that is split: its corners, and the midpoint of its base, which is the apex of its children.
#[derive(Clone, Copy, Debug)]
pub(crate) struct Face {
    pub(crate) apex: Corner,
    pub(crate) v0: Corner,
    pub(crate) v1: Corner,
    pub(crate) middle: Corner,
    pub(crate) tri: Tri,
}

/// Faces before any triangle was asked for: each is a half of the square.
pub(crate) fn first_faces(numbers: &[u32], n: u32) -> [Face; LEVELS]
    requires in_grid { (1 ≤ n) × (n ≤ GREATEST_LEVEL) }
    requires places { length numbers.now ≡ side_of n * side_of n }
    ensures count { length result ≡ LEVELS }
    ensures known { AreFaces n numbers.now result }
{
    let half = half_face(numbers, n, Tri::default());
    [half; LEVELS]
}

/// The face of a half of the square.
pub(crate) fn half_face(numbers: &[u32], n: u32, half: Tri) -> Face
    requires in_grid { (1 ≤ n) × (n ≤ GREATEST_LEVEL) }
    requires half { half < 4 }
    requires places { length numbers.now ≡ side_of n * side_of n }
    ensures face { IsFace n numbers.now result }
    ensures tri { result.tri ≡ half }
{
    let corners = half.corners(n);
    let v0 = corner_at(numbers, n, corners.v0);
    let v1 = corner_at(numbers, n, corners.v1);
    Face {
        apex: corner_at(numbers, n, corners.apex),
        v0,
        v1,
        middle: corner_between(numbers, n, half, &v0, &v1),
        tri: half,
    }
}

/// The place of a point, and the field of its number.
fn corner_at(numbers: &[u32], n: u32, point: Point) -> Corner
    requires in_grid { n ≤ GREATEST_LEVEL }
    requires within { IsInSquare (2 ^ n) point }
    requires places { length numbers.now ≡ side_of n * side_of n }
    ensures { IsCornerAt n numbers.now point result }
{
    corner_of(numbers, place(n, point))
}

/// A place, and the field of its number.
#[inline(always)]
fn corner_of(numbers: &[u32], place: usize) -> Corner
    requires below { place < length numbers.now }
    ensures place { result.place ≡ place }
    ensures field { IsFieldOf result.field (slice_index numbers.now place) }
{
    Corner {
        field: field_of(numbers[place]),
        place,
    }
}

/// The midpoint of the base of a triangle, whose ends these are: its place is half the sum of theirs.
#[inline(always)]
fn corner_between(numbers: &[u32], n: u32, t: Tri, v0: &Corner, v1: &Corner) -> Corner
    requires in_grid { (1 ≤ n) × (n ≤ GREATEST_LEVEL) }
    requires splittable { level_of t < 2 * n }
    requires places { length numbers.now ≡ side_of n * side_of n }
    requires v0 { v0.now.place ≡ grid_place n (corners_of n t).v0 }
    requires v1 { v1.now.place ≡ grid_place n (corners_of n t).v1 }
    ensures { IsCornerAt n numbers.now (midpoint (corners_of n t).v0 (corners_of n t).v1) result }
{
    corner_of(numbers, (v0.place + v1.place) / 2)
}

/// Makes the face of a triangle known, from those of the triangles that were asked for before: there is the last one
/// of each level.
///
/// So the field of a vertex is made once for each triangle whose base it halves, and else handed on from parent to
/// child.
/// Cost (not proved): a step for each level at which the way down is another than the last one that was asked for.
/// For the parents of triangles in depth-first order these are one for each of them, by and large.
#[cycle(known)]
#[inline(always)]
pub(crate) fn make_known(faces: &mut [Face], numbers: &[u32], n: u32, t: Tri)
    requires in_grid { (1 ≤ n) × (n ≤ GREATEST_LEVEL) }
    requires splittable { level_of t < 2 * n }
    requires places { length numbers.now ≡ side_of n * side_of n }
    requires count { length faces.old ≡ LEVELS }
    requires known { AreFaces n numbers.now faces.old }
    ensures count { length faces.new ≡ LEVELS }
    ensures known { AreFaces n numbers.now faces.new }
    ensures there { IsKnown faces.new t }
{
    if faces[t.level() as usize].tri != t {
        renew_face(faces, numbers, n, t);
    }
}

/// Puts the face of a triangle to its level, in the place of another one's.
#[cycle(known)]
fn renew_face(faces: &mut [Face], numbers: &[u32], n: u32, t: Tri)
    requires in_grid { (1 ≤ n) × (n ≤ GREATEST_LEVEL) }
    requires splittable { level_of t < 2 * n }
    requires places { length numbers.now ≡ side_of n * side_of n }
    requires count { length faces.old ≡ LEVELS }
    requires known { AreFaces n numbers.now faces.old }
    ensures count { length faces.new ≡ LEVELS }
    ensures known { AreFaces n numbers.now faces.new }
    ensures there { IsKnown faces.new t }
{
    let level = t.level() as usize;
    match t.parent() {
        None => renew_half(faces, numbers, n, t),
        Some(above) => {
            make_known(faces, numbers, n, above);
            let (coarse, fine) = faces.split_at_mut(level);
            put_child(&mut fine[0], numbers, n, &coarse[level - 1], t);
        }
    }
}

/// Puts the face of a half of the square to its level.
#[cold]
#[inline(never)]
fn renew_half(faces: &mut [Face], numbers: &[u32], n: u32, half: Tri)
    requires in_grid { (1 ≤ n) × (n ≤ GREATEST_LEVEL) }
    requires half { half < 4 }
    requires places { length numbers.now ≡ side_of n * side_of n }
    requires count { length faces.old ≡ LEVELS }
    requires known { AreFaces n numbers.now faces.old }
    ensures count { length faces.new ≡ LEVELS }
    ensures known { AreFaces n numbers.now faces.new }
    ensures there { IsKnown faces.new half }
{
    faces[0] = half_face(numbers, n, half);
}

/// Makes a face that of a child: of its corners only the midpoint of its base is new.
///
/// It is written in its place, since a copy of it waits for the writes before.
#[inline(always)]
fn put_child(face: &mut Face, numbers: &[u32], n: u32, parent: &Face, t: Tri)
    requires in_grid { (1 ≤ n) × (n ≤ GREATEST_LEVEL) }
    requires splittable { level_of t < 2 * n }
    requires child { 4 ≤ t }
    requires of { parent.now.tri ≡ t / 2 }
    requires places { length numbers.now ≡ side_of n * side_of n }
    requires of_parent { IsFace n numbers.now parent.now }
    ensures face { IsFace n numbers.now face.new }
    ensures tri { face.new.tri ≡ t }
{
    let (v0, v1) = base_of(parent, t);
    face.apex = parent.middle;
    face.v0 = *v0;
    face.v1 = *v1;
    face.middle = corner_between(numbers, n, t, v0, v1);
    face.tri = t;
}

/// The ends of a child's base, which is a leg of its parent.
#[inline(always)]
pub(crate) fn base_of(parent: &Face, t: Tri) -> (&Corner, &Corner)
    requires child { 4 ≤ t }
    requires of { parent.now.tri ≡ t / 2 }
    ensures v0 { (n : ℕ) (numbers : List ℕ) → IsFace n numbers parent.now →
        IsCornerAt n numbers (corners_of n t).v0 result.0.now }
    ensures v1 { (n : ℕ) (numbers : List ℕ) → IsFace n numbers parent.now →
        IsCornerAt n numbers (corners_of n t).v1 result.1.now }
{
    if t.number() % 2 == 0 {
        (&parent.apex, &parent.v0)
    } else {
        (&parent.v1, &parent.apex)
    }
}
