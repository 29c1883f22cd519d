//! Where meshes go to.

ghost use Rattle.std.specs.Prelude.{◌≡◌, ◌<◌, ◌≤◌, ℕ, List, Option, Bool, true, false, is_ok, is_err, length};
ghost use Rattle.roam_edge.specs.Fault.{HasCause, late_after};
ghost use Rattle.roam_edge.specs.MeshSink.{WrittenMesh, BeginsMesh, Writes, Finishes};
ghost use Rattle.roam_edge.specs.declared.mesh_sink.TheConstants.{LONGEST_PREFIX, GREATEST_NUMBER};

use crate::Failed;

/// The greatest length of a prefix, in bytes: with six digits and `.obj` a name has at most 210.
pub const LONGEST_PREFIX: usize = 200;

/// The greatest number of a mesh: a name has six digits.
pub const GREATEST_NUMBER: u32 = mesh_defs::GREATEST_NUMBER;

/// A sink of meshes, each named by a prefix and a number, written one after the other.
pub trait MeshSink {
    // The meshes in the order in which they were begun, where the sink tells them.
    ghost meshes: { Self → Option (List WrittenMesh) };

    // Whether a mesh was begun and not finished.
    ghost under_way: { Self → Bool };

    // How often the outside failed.
    ghost faults: { Self → ℕ };

    // Whether a call was made after one had failed.
    ghost late: { Self → Bool };

    /// BeginsMesh a mesh: its file is named by the prefix and the number.
    fn begin(&mut self, prefix: &str, number: u32) -> Result<(), Failed>
        requires idle { under_way self.old ≡ false }
        requires prefix_some { 0 < length prefix.now }
        requires prefix_short { length prefix.now ≤ LONGEST_PREFIX }
        requires number_low { 1 ≤ number }
        requires number_high { number ≤ GREATEST_NUMBER }
        ensures mesh { BeginsMesh (meshes self.old) (meshes self.new) prefix.now number result }
        ensures under_way { under_way self.new ≡ is_ok result }
        ensures faults { HasCause (faults self.old) (faults self.new) result }
        ensures late { late self.new ≡ late_after (late self.old) (faults self.old) };

    /// Appends a piece to the mesh that is under way.
    fn write(&mut self, piece: &[u8]) -> Result<(), Failed>
        requires { under_way self.old ≡ true }
        ensures mesh { Writes (meshes self.old) (meshes self.new) piece.now result }
        ensures under_way { under_way self.new ≡ under_way self.old }
        ensures faults { HasCause (faults self.old) (faults self.new) result }
        ensures late { late self.new ≡ late_after (late self.old) (faults self.old) };

    /// Finishes the mesh that is under way.
    fn finish(&mut self) -> Result<(), Failed>
        requires { under_way self.old ≡ true }
        ensures mesh { Finishes (meshes self.old) (meshes self.new) result }
        ensures under_way { under_way self.new ≡ is_err result }
        ensures faults { HasCause (faults self.old) (faults self.new) result }
        ensures late { late self.new ≡ late_after (late self.old) (faults self.old) };
}
