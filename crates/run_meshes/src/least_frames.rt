//! The least meshes of a tolerance.

ghost use Rattle.std.specs.Prelude.{◌≡◌, ◌≢◌, ◌+◌, ◌<◌, ◌≤◌, IfOk, false, [], length};
ghost use Rattle.mesh_defs.specs.Priority.{worst_of};
ghost use Rattle.mesh_defs.specs.State.{start_state, priority_in, text_in};
ghost use Rattle.roam_edge.specs.declared.mesh_sink.TheConstants.{LONGEST_PREFIX, GREATEST_NUMBER};
ghost use Rattle.roam_script.specs.Laws.{LiesInRange};
ghost use Rattle.roam_script.specs.declared.limits.Limits.{Limits as LimitsSeen};
ghost use Rattle.roam_script.specs.declared.limits.TheConstants.{MOST_FRAMES};
ghost use Rattle.wedgie_tree.specs.declared.wedges.TheConstants.{GREATEST_SPACING};
ghost use Rattle.obj_write.specs.MeshView.{view_text, IsView};
ghost use Rattle.mesh_laws.specs.Least.{IsLeastList};
ghost use Rattle.run_laws.specs.Moment.{Does};
ghost use Rattle.run_laws.specs.Walk.{start_walk, state_after};
ghost use Rattle.run_words.specs.Words.{as_least};
ghost use Rattle.run_words.specs.ShowView.{IsPrefixLength};
ghost use Rattle.run_meshes.specs.LeastSeen.{state_seen, IsUnderLeast, LeastFollows, IsLeastReady, IsLeastNoted};
ghost use Rattle.run_meshes.specs.LeastSeen.{least_numbers, least_acts};

use arrayvec::ArrayVec;
use cull_marks::Plane;
use height_edit::raise_area;
use least_mesh::{Least, LeastNote};
use obj_write::{MeshView, SparseView};
use pgm_grid::Grid;
use roam_edge::{Failed, NoMemory};
use roam_num::push_bytes;
use roam_script::{Limits, Line};
use run_files::{FrameMaker, Outside, Text, push_placed, show_mesh};
use std::alloc::Global;
use view_priority::{Camera, Meter, Outlook};
use wedgie_tree::Wedges;

/// Terrain, a view of it, and the least mesh of a tolerance. No mesh depends on the one before it.
#[derive(Drop)]
pub(crate) struct LeastFrames<'a> {
    /// The heights as they are, and the view.
    pub(crate) outlook: Outlook,
    /// The budget that a script has put in force, on which no mesh depends.
    pub(crate) budget: u32,
    /// The greatest budget that it may put in force.
    pub(crate) most: u32,
    pub(crate) least: Least,
    /// What the names of the meshes begin with.
    pub(crate) prefix: &'a str,
    /// No triangle of a mesh has a greater priority.
    pub(crate) tolerance: u64,
    pub(crate) frames: u32,
}

impl<'a> LeastFrames<'a> {
    /// Before the first line: seen from (0, 0, 0), no plane. All memory is taken here.
    pub(crate) fn make(
        alloc: Global,
        grid: Grid,
        prefix: &'a str,
        tolerance: u64,
        budget: u32,
        spacing: u32,
    ) -> Result<LeastFrames<'a>, NoMemory>
        requires prefix { IsPrefixLength prefix.now }
        requires spacing_low { 1 ≤ spacing }
        requires spacing_high { spacing ≤ GREATEST_SPACING }
        ensures begins { IfOk result (λ f. LeastFollows f (as_least prefix.now tolerance)
            (start_walk budget (start_state grid spacing budget)) []) }
        ensures ready { IfOk result IsLeastReady }
    {
        let n = grid.n();
        let wedges = Wedges::build(alloc, grid)?;
        let least = Least::make(alloc, n)?;
        Ok(LeastFrames {
            outlook: Outlook::start(wedges, spacing),
            budget,
            most: budget,
            least,
            prefix,
            tolerance,
            frames: 0,
        })
    }

    /// Carries out a line that makes no frame, and lies in its ranges.
    fn change(&mut self, line: Line)
        requires other { line ≢ Line.Frame }
        requires ranges { (limits : LimitsSeen) × IsUnderLeast self.old limits × LiesInRange limits line }
        ensures next { state_seen self.new ≡ state_after line (state_seen self.old) }
        ensures least { self.new.least ≡ self.old.least }
        ensures most { self.new.most ≡ self.old.most }
        ensures prefix { self.new.prefix.now ≡ self.old.prefix.now }
        ensures tolerance { self.new.tolerance ≡ self.old.tolerance }
        ensures frames { self.new.frames ≡ self.old.frames }
    {
        match line {
            Line::Blank | Line::Frame => {}
            Line::Camera { x, y, z } => self.outlook.camera = Camera::new(x, y, z).unwrap(),
            Line::Set { x, y, h } => self.outlook.wedges.set(x, y, h),
            Line::Plane { a, b, c, d } => self.outlook.add_plane(Plane::new(a, b, c, d).unwrap()),
            Line::NoPlanes => self.outlook.clear_planes(),
            Line::Budget { n } => self.budget = n,
            Line::Raise { x0, y0, x1, y1, dz } => {
                raise_area(&mut self.outlook.wedges, x0, y0, x1, y1, dz)
            }
        }
    }

    /// Makes the least mesh of what is seen.
    fn make_mesh(&mut self) -> LeastNote
        requires level { self.old.least.n ≡ self.old.outlook.grid.n }
        requires few { self.old.frames < MOST_FRAMES }
        ensures state { state_seen self.new ≡ state_seen self.old }
        ensures level { self.new.least.n ≡ self.old.least.n }
        ensures list { IsLeastList self.old.outlook.grid.n self.old.tolerance
            (priority_in (state_seen self.old)) self.new.least.leaves }
        ensures worst { result.worst ≡ worst_of (priority_in (state_seen self.old)) self.new.least.leaves }
        ensures noted { IsLeastNoted self.new result }
        ensures most { self.new.most ≡ self.old.most }
        ensures prefix { self.new.prefix.now ≡ self.old.prefix.now }
        ensures tolerance { self.new.tolerance ≡ self.old.tolerance }
        ensures frames { self.new.frames ≡ self.old.frames + 1 }
    {
        self.frames += 1;
        self.least
            .frame_of(&self.outlook.scene(), self.tolerance, &mut Meter::new())
    }

    /// The mesh, as it is to be written.
    fn view(&self) -> SparseView<'_>
        requires level { self.now.least.n ≡ self.now.outlook.grid.n }
        ensures valid { IsView result }
        ensures text { view_text result ≡ text_in (state_seen self.now) self.now.least.leaves }
    {
        let scene = self.outlook.scene();
        let mesh = MeshView {
            wedges: scene.wedges,
            leaves: self.least.leaves(),
            numbers: self.least.numbers(),
            spacing: scene.spacing,
            planes: scene.planes,
        };
        SparseView::by_table(mesh, self.least.table())
    }

    /// Writes the mesh, and then the line of its frame, of which this is the note. The line comes only after the mesh
    /// was finished.
    fn show<O: Outside>(&self, note: &LeastNote, outside: &mut O) -> Result<(), Failed>
        requires idle { (O.moment outside.old).under_way ≡ false }
        requires prefix_some { 0 < length self.now.prefix.now }
        requires prefix_short { length self.now.prefix.now ≤ LONGEST_PREFIX }
        requires number_low { 1 ≤ self.now.frames }
        requires number_high { self.now.frames ≤ GREATEST_NUMBER }
        requires level { self.now.least.n ≡ self.now.outlook.grid.n }
        ensures same { O.is_same outside.old outside.new }
        ensures does { Does (O.moment outside.old) (O.moment outside.new) (least_acts self.now note.now) result }
    {
        let line = least_report(self.frames, note);
        show_mesh(
            &self.view(),
            self.prefix,
            self.frames,
            line.as_slice(),
            outside,
        )
    }
}

impl<'a> FrameMaker for LeastFrames<'a> {
    ghost follows = { λ f. LeastFollows f };

    ghost is_ready = { λ f lines. IsLeastReady f };

    ghost is_under = { λ f. IsUnderLeast f };

    fn limits(&self, lines: u32) -> Limits {
        let grid = self.outlook.wedges.grid();
        Limits {
            n: grid.n(),
            maxval: grid.maxval(),
            planes: self.outlook.planes.len(),
            line: lines + 1,
            frames: self.frames,
            budget: self.most,
        }
    }

    fn apply_line(&mut self, line: Line) {
        self.change(line);
    }

    fn take_frame<O: Outside>(&mut self, outside: &mut O) -> Result<(), Failed> {
        let note = self.make_mesh();
        self.show(&note, outside)
    }
}

/// The line of a frame of this number, whose mesh is the least of a tolerance.
fn least_report(number: u32, note: &LeastNote) -> Text
    ensures { result.items ≡ least_numbers number note.now.triangles note.now.vertices note.now.worst }
{
    let LeastNote {
        triangles,
        vertices,
        worst,
    } = *note;
    let mut text = ArrayVec::new();
    push_placed(&mut text, b"frame ", u64::from(number));
    push_placed(&mut text, b" least ", u64::from(triangles));
    push_placed(&mut text, b" vertices ", u64::from(vertices));
    push_placed(&mut text, b" worst ", worst);
    push_bytes(&mut text, b"\n");
    text
}
