//! Where files are read from.

ghost use Rattle.std.specs.Prelude.{◌≡◌, ◌<◌, ◌≤◌, ℕ, List, Option, Bool, false, IfOk, is_err, length};
ghost use Rattle.roam_edge.specs.Fault.{HasCause, next_count, late_after};
ghost use Rattle.roam_edge.specs.Shelf.{NamedFile, Opens, Reads, Ends};

use crate::Failed;

/// A shelf of named files, of which one at a time is chosen and read from front to back.
pub trait Shelf {
    // The files, where the shelf tells them.
    ghost files: { Self → Option (List NamedFile) };

    // The unread bytes of the file chosen last, where the shelf tells them.
    ghost rest: { Self → Option (List ℕ) };

    // How often a file was opened by name, whatever the answer was.
    ghost opens: { Self → ℕ };

    // Whether nothing is left to read: nothing was chosen, or the end of the file was read.
    ghost ended: { Self → Bool };

    // How often the outside failed.
    ghost faults: { Self → ℕ };

    // Whether a call was made after one had failed.
    ghost late: { Self → Bool };

    /// Chooses the first file of this name, and leaves all its bytes unread.
    ///
    /// Whether a name that is not there is a file without bytes or a failure is the shelf's choice.
    fn open_named(&mut self, name: &str) -> Result<(), Failed>
        ensures opened { Opens (files self.old) (rest self.old) (rest self.new) name.now result }
        ensures ends { ended self.new ≡ is_err result }
        ensures count { opens self.new ≡ next_count (opens self.old) }
        ensures others { files self.new ≡ files self.old }
        ensures faults { HasCause (faults self.old) (faults self.new) result }
        ensures late { late self.new ≡ late_after (late self.old) (faults self.old) };

    /// Takes the next unread bytes into the front of the buffer, and answers how many.
    ///
    /// It may give fewer bytes than the buffer has room for; no byte means the end of the file.
    fn read(&mut self, buf: &mut [u8]) -> Result<usize, Failed>
        requires room { 0 < length buf.old }
        requires not_ended { ended self.old ≡ false }
        ensures bound { IfOk result (λ k. k ≤ length buf.old) }
        ensures bytes { Reads (rest self.old) (rest self.new) buf.old buf.new result }
        ensures ends { Ends (ended self.old) (ended self.new) result }
        ensures count { opens self.new ≡ opens self.old }
        ensures others { files self.new ≡ files self.old }
        ensures faults { HasCause (faults self.old) (faults self.new) result }
        ensures late { late self.new ≡ late_after (late self.old) (faults self.old) };
}
