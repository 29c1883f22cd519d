//! Where report lines go to.

ghost use Rattle.std.specs.Prelude.{◌≡◌, ℕ, Bool, List, Option};
ghost use Rattle.roam_edge.specs.Fault.{HasCause, late_after};
ghost use Rattle.roam_edge.specs.Sink.{Appends};

use crate::Failed;

/// A sink of bytes.
pub trait Sink {
    // The bytes so far, where the sink tells them.
    ghost contents: { Self → Option (List ℕ) };

    // How often the outside failed.
    ghost faults: { Self → ℕ };

    // Whether a call was made after one had failed.
    ghost late: { Self → Bool };

    /// Appends a piece.
    fn write(&mut self, piece: &[u8]) -> Result<(), Failed>
        ensures bytes { Appends (contents self.old) (contents self.new) piece.now result }
        ensures faults { HasCause (faults self.old) (faults self.new) result }
        ensures late { late self.new ≡ late_after (late self.old) (faults self.old) };
}
