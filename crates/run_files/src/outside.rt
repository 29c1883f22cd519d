//! The outside of a run: all that it reads and writes.

ghost use Rattle.std.specs.Prelude.{◌≡◌, ℕ, ◌*◌, ◌^◌, ◌<◌, ◌≤◌, ◌∷◌, [], List, Some, Err, true, false, All, IfOk};
ghost use Rattle.std.specs.Prelude.{is_err, length};
ghost use Rattle.mesh_defs.specs.Triangle.{level_of};
ghost use Rattle.mesh_defs.specs.MeshText.{mesh_text};
ghost use Rattle.roam_edge.specs.Fault.{HasCause, Rose, IsInTime, next_count, late_after};
ghost use Rattle.roam_edge.specs.Shelf.{Opens, Reads, Ends};
ghost use Rattle.roam_edge.specs.Told.{StaysTold};
ghost use Rattle.roam_edge.specs.declared.mesh_sink.TheConstants.{LONGEST_PREFIX, GREATEST_NUMBER};
ghost use Rattle.wedgie_tree.specs.declared.wedges.TheConstants.{GREATEST_SPACING};
ghost use Rattle.obj_write.specs.MeshView.{view_text, IsView};
ghost use Rattle.cert_text.specs.CertText.{cert_text};
ghost use Rattle.cert_text.specs.FitCertText.{fit_cert_text};
ghost use Rattle.cert_text.specs.KeptCert.{kept_cert_text};
ghost use Rattle.mesh_compare.specs.Differs.{FindsDifference, IsReadInPart};
ghost use Rattle.mesh_compare.specs.declared.comparing.CompareFault.{CompareFault as CompareFaultSeen};
ghost use Rattle.run_laws.specs.Act.{WholeMesh, ReportText};
ghost use Rattle.run_laws.specs.Moment.{Moment, moment, OnlyReads, Does};

use bintree_addr::Tri;
use cert_text::{Cert, write_cert, write_fit_cert, write_kept_cert};
use certificate_laws::{FitCert, KeptCert};
use mesh_compare::{CompareFault, compare_heights};
use obj_write::{SparseView, write_sparse};
use pgm_grid::Grid;
use roam_edge::{Failed, MeshSink, Shelf, Sink};
use std::alloc::Global;

/// The outside of a run: files are read from it, and meshes and a report are written to it.
///
/// Everything that carries a command out gets its outside as this, so that one clause says what all three objects
/// tell before and after a call.
pub trait Outside {
    // What the outside tells at one moment.
    ghost moment: { Self → Moment };

    // It is lent the same objects.
    ghost is_same: { Self → Self → Type 0 };

    /// Chooses the first file of this name, and leaves all its bytes unread.
    fn open_named(&mut self, name: &str) -> Result<(), Failed>
        ensures same { is_same self.old self.new }
        ensures only { OnlyReads (moment self.old) (moment self.new) }
        ensures opened { Opens (moment self.old).shelf.files (moment self.old).shelf.rest (moment self.new).shelf.rest
            name.now result }
        ensures ends { (moment self.new).shelf.ended ≡ is_err result }
        ensures count { (moment self.new).shelf.opens ≡ next_count (moment self.old).shelf.opens }
        ensures faults { HasCause (moment self.old).shelf_faults (moment self.new).shelf_faults result }
        ensures late { (moment self.new).shelf_late
            ≡ late_after (moment self.old).shelf_late (moment self.old).shelf_faults };

    /// Takes the next unread bytes into the front of the buffer, and answers how many; no byte means the end of the
    /// file.
    fn read(&mut self, buf: &mut [u8]) -> Result<usize, Failed>
        requires room { 0 < length buf.old }
        requires not_ended { (moment self.old).shelf.ended ≡ false }
        ensures same { is_same self.old self.new }
        ensures only { OnlyReads (moment self.old) (moment self.new) }
        ensures bound { IfOk result (λ k. k ≤ length buf.old) }
        ensures bytes { Reads (moment self.old).shelf.rest (moment self.new).shelf.rest buf.old buf.new result }
        ensures ends { Ends (moment self.old).shelf.ended (moment self.new).shelf.ended result }
        ensures count { (moment self.new).shelf.opens ≡ (moment self.old).shelf.opens }
        ensures faults { HasCause (moment self.old).shelf_faults (moment self.new).shelf_faults result }
        ensures late { (moment self.new).shelf_late
            ≡ late_after (moment self.old).shelf_late (moment self.old).shelf_faults };

    /// Compares what is left of the file with the text of the mesh of these triangles, without view planes, as
    /// `mesh_compare::compare_heights`.
    fn compare_rest(
        &mut self,
        alloc: Global,
        grid: &Grid,
        leaves: &[Tri],
        spacing: u32,
    ) -> Result<Option<u64>, CompareFault>
        requires levels { All (λ a. level_of a ≤ 2 * grid.now.n) leaves.now }
        requires few { length leaves.now < 2 ^ 31 }
        requires spacing_low { 1 ≤ spacing }
        requires spacing_high { spacing ≤ GREATEST_SPACING }
        requires not_ended { (moment self.old).shelf.ended ≡ false }
        ensures same { is_same self.old self.new }
        ensures only { OnlyReads (moment self.old) (moment self.new) }
        ensures place { IfOk result (λ found. FindsDifference
            (mesh_text grid.now.n grid.now.heights spacing [] leaves.now) (moment self.old).shelf.rest found) }
        ensures ended { IfOk result (λ found. found ≡ None → (moment self.new).shelf.ended ≡ true) }
        ensures all_read { IfOk result (λ found. found ≡ None → (rest : List ℕ) →
            (moment self.old).shelf.rest ≡ Some rest →
            (moment self.new).shelf.rest ≡ Some []) }
        ensures calm { IfOk result (λ _. (moment self.new).shelf_faults ≡ (moment self.old).shelf_faults) }
        ensures failed { result ≡ Err CompareFaultSeen.Failed →
            Rose (moment self.old).shelf_faults (moment self.new).shelf_faults }
        ensures cut { result ≡ Err CompareFaultSeen.Failed → IsReadInPart
            (mesh_text grid.now.n grid.now.heights spacing [] leaves.now) (moment self.old).shelf.rest
            (moment self.new).shelf.rest }
        ensures goes_on { result ≡ Err CompareFaultSeen.Failed → (moment self.new).shelf.ended ≡ false }
        ensures no_memory { result ≡ Err CompareFaultSeen.NoMemory → moment self.new ≡ moment self.old }
        ensures told { StaysTold (moment self.old).shelf.rest (moment self.new).shelf.rest }
        ensures opens { (moment self.new).shelf.opens ≡ (moment self.old).shelf.opens }
        ensures in_time { IsInTime (moment self.old).shelf_late (moment self.old).shelf_faults
            (moment self.new).shelf_late };

    /// Writes a whole mesh, named by the prefix and the number.
    fn write_mesh(&mut self, view: &SparseView<'_>, prefix: &str, number: u32) -> Result<(), Failed>
        requires view { IsView view.now }
        requires idle { (moment self.old).under_way ≡ false }
        requires prefix_some { 0 < length prefix.now }
        requires prefix_short { length prefix.now ≤ LONGEST_PREFIX }
        requires number_low { 1 ≤ number }
        requires number_high { number ≤ GREATEST_NUMBER }
        ensures same { is_same self.old self.new }
        ensures does { Does (moment self.old) (moment self.new)
            (WholeMesh prefix.now number (view_text view.now) ∷ []) result };

    /// Writes a text to the report.
    fn tell(&mut self, text: &[u8]) -> Result<(), Failed>
        ensures same { is_same self.old self.new }
        ensures does { Does (moment self.old) (moment self.new) (ReportText text.now ∷ []) result };

    /// Writes the text of a certificate to the report.
    fn tell_cert(&mut self, cert: &Cert) -> Result<(), Failed>
        ensures same { is_same self.old self.new }
        ensures does { Does (moment self.old) (moment self.new) (ReportText (cert_text cert.now) ∷ []) result };

    /// Writes the text of a certificate of a fitted mesh to the report.
    fn tell_fit_cert(&mut self, cert: &FitCert) -> Result<(), Failed>
        ensures same { is_same self.old self.new }
        ensures does { Does (moment self.old) (moment self.new) (ReportText (fit_cert_text cert.now) ∷ []) result };

    /// Writes the text of a certificate of a fitted mesh that keeps points to the report.
    fn tell_kept_cert(&mut self, cert: &KeptCert) -> Result<(), Failed>
        ensures same { is_same self.old self.new }
        ensures does { Does (moment self.old) (moment self.new) (ReportText (kept_cert_text cert.now) ∷ []) result };

    // What is lent stays the same from call to call.
    ghost is_same_now: { (a : Self) → is_same a a };

    ghost is_same_then: { (a b c : Self) → is_same a b → is_same b c → is_same a c };
}

/// An outside of three objects that are lent: a shelf, a sink of meshes and a report.
#[derive(Drop)]
pub struct Lent<'f, 'm, 'r, F: Shelf, M: MeshSink, R: Sink> {
    /// Where files are read from.
    pub shelf: &'f mut F,
    /// Where meshes are written to.
    pub meshes: &'m mut M,
    /// Where the lines of the report are written to.
    pub report: &'r mut R,
}

impl<'f, 'm, 'r, F: Shelf, M: MeshSink, R: Sink> Outside for Lent<'f, 'm, 'r, F, M, R> {
    ghost use Rattle.std.proofs.Common.{refl, ◌∙◌};

    ghost moment = { λ o. moment F.Shelf M.MeshSink R.Sink o.shelf.now o.meshes.now o.report.now };

    ghost is_same = { λ a b. (b.shelf.ghost_name ≡ a.shelf.ghost_name) × (b.meshes.ghost_name ≡ a.meshes.ghost_name)
        × (b.report.ghost_name ≡ a.report.ghost_name) };

    ghost is_same_now = { λ a. (refl, refl, refl) };

    ghost is_same_then = { λ a b c p q. (q.0 ∙ p.0, q.1 ∙ p.1, q.2 ∙ p.2) };

    fn open_named(&mut self, name: &str) -> Result<(), Failed> {
        self.shelf.open_named(name)
    }

    fn read(&mut self, buf: &mut [u8]) -> Result<usize, Failed> {
        self.shelf.read(buf)
    }

    fn compare_rest(
        &mut self,
        alloc: Global,
        grid: &Grid,
        leaves: &[Tri],
        spacing: u32,
    ) -> Result<Option<u64>, CompareFault> {
        compare_heights(alloc, grid, leaves, spacing, self.shelf)
    }

    fn write_mesh(
        &mut self,
        view: &SparseView<'_>,
        prefix: &str,
        number: u32,
    ) -> Result<(), Failed> {
        write_sparse(view, prefix, number, self.meshes)
    }

    fn tell(&mut self, text: &[u8]) -> Result<(), Failed> {
        self.report.write(text)
    }

    fn tell_cert(&mut self, cert: &Cert) -> Result<(), Failed> {
        write_cert(cert, self.report)
    }

    fn tell_fit_cert(&mut self, cert: &FitCert) -> Result<(), Failed> {
        write_fit_cert(cert, self.report)
    }

    fn tell_kept_cert(&mut self, cert: &KeptCert) -> Result<(), Failed> {
        write_kept_cert(cert, self.report)
    }
}
