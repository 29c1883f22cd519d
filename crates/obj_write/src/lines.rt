//! The lines of a mesh, one after another.

ghost use Rattle.std.specs.Prelude.{◌≡◌, ℕ, ◌+◌, ◌*◌, ◌^◌, ◌<◌, ◌≤◌, ◌++◌, [], Some, true, false, All, length, IfSome};
ghost use Rattle.arrayvec.specs.ArrayVec.{array_vec_len};
ghost use Rattle.mesh_defs.specs.Triangle.{level_of, corners_of};
ghost use Rattle.mesh_defs.specs.MeshText.{face_line, group_line, is_mark_before, triangle_mark, vertices_of};
ghost use Rattle.wedgie_tree.specs.declared.wedges.TheConstants.{GREATEST_SPACING};
ghost use Rattle.obj_write.specs.Numbers.{numbers_of};
ghost use Rattle.obj_write.specs.MeshView.{view_text, IsView, IsShown, group_text};
ghost use Rattle.obj_write.specs.LineView.{mesh_seen, AreBoxesOf};
ghost use Rattle.obj_write.specs.LinesLeft.{face_text};
ghost use Rattle.obj_write.specs.Faces.{AreFaces};
ghost use Rattle.obj_write.specs.Table.{AreFlagged};
ghost use Rattle.obj_write.specs.declared.faces.TheConstants.{LEVELS};
ghost use Rattle.obj_write.specs.declared.lines.TheConstants.{LONGEST_LINE, LONGEST_GROUP, LONGEST_PIECE};

use crate::faces::{Face, LEVELS, base_of, first_faces, half_face, make_known};
use crate::line_view::{LineView, Marking};
use crate::page::Page;
use crate::row::{Row, first_row, put_vertex};
use crate::scan::first_from;
use crate::sparse::SparseView;
use arrayvec::ArrayVec;
use bintree_addr::Tri;
use mesh_defs::Mark;
use roam_num::push_bytes;
use std::marker::Model;

/// No line is longer: a letter, three blanks, three numbers of at most 20 digits, and the line's end.
pub(crate) const LONGEST_LINE: usize = 65;

/// The longest group line.
const LONGEST_GROUP: usize = 10;

/// The most bytes that `MeshLines` gives at once: a group line and a face line.
pub const LONGEST_PIECE: usize = LONGEST_GROUP + LONGEST_LINE;

/// The lines of a mesh that are still to come.
///
/// They are made one after another, and never stand all together.
#[derive(Drop)]
pub struct MeshLines<'a> {
    view: LineView<'a>,
    /// For each block of places whether a number may stand there, where it is known.
    used: Option<&'a [bool]>,
    /// The place from which on vertices are to come.
    place: usize,
    /// The row of the vertex that came last.
    row: Row,
    /// How many triangles have come.
    face: usize,
    /// The mark of the triangle that came last, where a plane is in force.
    before: Option<Mark>,
    /// The last triangles on the way to those that came.
    faces: [Face; LEVELS],
}

impl<'a> Model for MeshLines<'a> {
    ghost use Rattle.std.specs.Prelude.{◌+◌, ◌-◌, ◌≤◌, ◌++◌, length, IfSome};
    ghost use Rattle.obj_write.specs.MeshView.{IsView};
    ghost use Rattle.obj_write.specs.LineView.{mesh_seen, AreBoxesOf};
    ghost use Rattle.obj_write.specs.LinesLeft.{LinesLeft, vertex_text, face_text};
    ghost use Rattle.obj_write.specs.Faces.{AreFaces};
    ghost use Rattle.obj_write.specs.Row.{IsRow};
    ghost use Rattle.obj_write.specs.Table.{AreFlagged};

    ghost Value = { LinesLeft };

    ghost view = { λ l. record {
      text = vertex_text (mesh_seen l.view) l.place ++ face_text (mesh_seen l.view) l.face l.before;
      most = (length l.view.numbers.now - l.place) + (length l.view.leaves.now - l.face);
    } };

    ghost invariant = { λ l. IsView (mesh_seen l.view)
        × (l.place ≤ length l.view.numbers.now) × (l.face ≤ length l.view.leaves.now)
        × IsRow l.view.grid.now.n l.view.spacing l.row × (l.row.start ≤ l.place)
        × AreFaces l.view.grid.now.n l.view.numbers.now l.faces
        × IfSome l.used (λ used. AreFlagged l.view.numbers.now used.now)
        × AreBoxesOf l.view.grid.now l.view.marking };
}

impl<'a> MeshLines<'a> {
    /// All lines of a mesh.
    pub fn new(view: SparseView<'a>) -> MeshLines<'a>
        requires levels { All (λ a. level_of a ≤ 2 * view.wedges.now.n) view.leaves.now }
        requires numbers { view.numbers.now ≡ numbers_of view.wedges.now.n view.leaves.now }
        requires spacing_low { 1 ≤ view.spacing }
        requires spacing_high { view.spacing ≤ GREATEST_SPACING }
        ensures text { result.text ≡ view_text view.entry }
        ensures most { result.most ≡ length view.entry.numbers.now + length view.entry.leaves.now }
    {
        let SparseView { mesh, used } = view;
        MeshLines::of(mesh, used)
    }

    /// The same of the parts of a view.
    fn of(view: LineView<'a>, used: Option<&'a [bool]>) -> MeshLines<'a>
        requires view { IsView (mesh_seen view) }
        requires boxes { AreBoxesOf view.grid.now view.marking }
        requires flagged { IfSome used (λ used. AreFlagged view.numbers.now used.now) }
        ensures text { result.text ≡ view_text (mesh_seen view.entry) }
        ensures most { result.most ≡ length view.entry.numbers.now + length view.entry.leaves.now }
    {
        let faces = first_faces(view.numbers, view.grid.n());
        MeshLines {
            view,
            used,
            place: 0,
            row: first_row(),
            face: 0,
            before: None,
            faces,
        }
    }

    /// Appends the next line to a text that has room for the longest, a face line with the group line before it.
    ///
    /// The answer is whether there was one. Takes no memory.
    /// Cost (not proved): for the vertices altogether a look at the flag of each block that is passed, where there is
    /// a table, and a step for each sixteen places of the others; for a triangle a step a level and a plane.
    pub fn push_next<const ROOM: usize>(&mut self, page: &mut ArrayVec<u8, ROOM>) -> bool
        requires room { array_vec_len page.old + LONGEST_PIECE ≤ ROOM }
        ensures text { page.new.items ++ self.new.text ≡ page.old.items ++ self.old.text }
        ensures short { array_vec_len page.new ≤ array_vec_len page.old + LONGEST_PIECE }
        ensures fewer { result ≡ true → self.new.most < self.old.most }
        ensures ended { result ≡ false → (self.old.text ≡ []) × (self.new.text ≡ []) }
    {
        let mut piece: Page<LONGEST_PIECE> = Page::new();
        let more = self.put_next(&mut piece);
        push_bytes(page, piece.text());
        more
    }

    /// Puts the next line, a face line with the group line before it, on a page that has room for the longest.
    #[inline(always)]
    pub(crate) fn put_next<const ROOM: usize>(&mut self, page: &mut Page<ROOM>) -> bool
        requires room { length page.old + LONGEST_PIECE ≤ ROOM }
        ensures text { page.new ++ self.new.text ≡ page.old ++ self.old.text }
        ensures short { length page.new ≤ length page.old + LONGEST_PIECE }
        ensures fewer { result ≡ true → self.new.most < self.old.most }
        ensures ended { result ≡ false → (self.old.text ≡ []) × (self.new.text ≡ []) }
    {
        self.place = first_from(self.view.numbers, self.used, self.place);
        let places = self.view.numbers.len();
        if self.place < places {
            put_vertex(&self.view, &mut self.row, self.place, page);
            self.place += 1;
            return true;
        }
        if self.face == self.view.leaves.len() {
            return false;
        }
        let leaf = self.view.leaves[self.face];
        self.before = put_group(&self.view, self.before, leaf, page);
        put_face(&self.view, &mut self.faces, leaf, page);
        self.face += 1;
        true
    }
}

/// Puts a group line on a page where a plane is in force and the triangle's mark differs from the one before; answers
/// its mark then.
///
/// Without a plane no mark is asked for.
#[inline(always)]
fn put_group<const ROOM: usize>(
    view: &LineView<'_>,
    before: Option<Mark>,
    leaf: Tri,
    page: &mut Page<ROOM>,
) -> Option<Mark>
    requires view { IsView (mesh_seen view.now) }
    requires boxes { AreBoxesOf view.now.grid.now view.now.marking }
    requires level { level_of leaf ≤ 2 * view.now.grid.now.n }
    requires room { length page.old + LONGEST_GROUP ≤ ROOM }
    ensures text { let v = mesh_seen view.now in page.new ≡ page.old ++ group_line v.planes.now before
        (triangle_mark v.wedges.now.n v.wedges.now.heights v.spacing v.planes.now leaf) }
    ensures short { length page.new ≤ length page.old + LONGEST_GROUP }
    // The text behind is that behind the triangle's mark.
    ensures before { let v = mesh_seen view.now in (i : ℕ) → face_text v i result ≡ face_text v i
        (Some (triangle_mark v.wedges.now.n v.wedges.now.heights v.spacing v.planes.now leaf)) }
{
    let Some(marking) = view.marking else {
        return before;
    };
    if marking.planes.len() == 0 {
        return before;
    }
    let mark = leaf_mark(marking, view.spacing, leaf);
    if !is_before(before, mark) {
        page.push_bytes(group_text(mark));
    }
    Some(mark)
}

/// The mark of a triangle under the planes in force.
fn leaf_mark(marking: Marking<'_>, spacing: u32, leaf: Tri) -> Mark
    requires level { level_of leaf ≤ 2 * marking.wedges.now.n }
    requires spacing_low { 1 ≤ spacing }
    requires spacing_high { spacing ≤ GREATEST_SPACING }
    ensures { let grid = marking.entry.wedges.now in
        result ≡ triangle_mark grid.n grid.heights spacing marking.entry.planes.now leaf }
{
    marking.planes.mark(&marking.wedges.cuboid(leaf, spacing))
}

/// Whether the mark is the one before.
fn is_before(before: Option<Mark>, mark: Mark) -> bool
    ensures { result ≡ is_mark_before before mark }
{
    match before {
        Some(before) => before == mark,
        None => false,
    }
}

/// The group line of a mark.
fn group_text(mark: Mark) -> &'static [u8]
    ensures value { result.now ≡ group_text mark }
    ensures short { length result.now ≤ LONGEST_GROUP }
{
    match mark {
        Mark::Inside => b"g inside\n",
        Mark::Cut => b"g cut\n",
        Mark::Outside => b"g outside\n",
    }
}

/// Puts the line of a face on a page: the vertex numbers of apex, `v0` and `v1`, which are corners of its parent and
/// the midpoint of the parent's base.
#[inline(always)]
fn put_face<const ROOM: usize>(
    view: &LineView<'_>,
    faces: &mut [Face],
    leaf: Tri,
    page: &mut Page<ROOM>,
)
    requires view { IsView (mesh_seen view.now) }
    requires level { level_of leaf ≤ 2 * view.now.grid.now.n }
    requires shown { IsShown view.now.grid.now.n view.now.leaves.now leaf }
    requires count { length faces.old ≡ LEVELS }
    requires known { AreFaces view.now.grid.now.n view.now.numbers.now faces.old }
    requires room { length page.old + LONGEST_LINE ≤ ROOM }
    ensures text { let n = view.now.grid.now.n in page.new ≡ page.old
        ++ face_line (vertices_of n view.now.leaves.now) (corners_of n leaf) }
    ensures short { length page.new ≤ length page.old + LONGEST_LINE }
    ensures count { length faces.new ≡ LEVELS }
    ensures known { AreFaces view.now.grid.now.n view.now.numbers.now faces.new }
{
    let n = view.grid.n();
    let Some(above) = leaf.parent() else {
        let half = half_face(view.numbers, n, leaf);
        page.push_line(b'f', &half.apex.field, &half.v0.field, &half.v1.field);
        return;
    };
    make_known(faces, view.numbers, n, above);
    let parent = &faces[above.level() as usize];
    let (v0, v1) = base_of(parent, leaf);
    page.push_line(b'f', &parent.middle.field, &v0.field, &v1.field);
}
