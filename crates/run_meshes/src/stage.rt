//! How far a script was carried out.

ghost use Rattle.std.specs.Prelude.{◌≡◌, ◌+◌, ◌<◌, ◌++◌, ◌∷◌, [], ℕ, List, length, None, Err, IfSome};
ghost use Rattle.roam_script.specs.LineText.{line_in};
ghost use Rattle.roam_script.specs.declared.limits.Limits.{Limits};
ghost use Rattle.roam_script.specs.declared.limits.TheConstants.{MOST_LINES, MOST_LINE_BYTES};

use arrayvec::ArrayVec;
use roam_script::{MOST_LINE_BYTES, MOST_LINES, ScriptFault, line_laws};

/// Where a script has come to.
#[derive(Drop)]
pub(crate) struct Stage {
    /// The lines that were carried out.
    pub(crate) lines: u32,
    /// The bytes of the line that has begun.
    pub(crate) part: ArrayVec<u8, MOST_LINE_BYTES>,
}

impl Stage {
    /// Before the first line.
    pub(crate) fn new() -> Stage
        ensures lines { result.lines ≡ 0 }
        ensures part { result.part.items ≡ [] }
    {
        Stage {
            lines: 0,
            part: ArrayVec::new(),
        }
    }

    /// Why the line that has begun is refused with one more byte, whatever follows.
    pub(crate) fn settled_fault(&self) -> Option<ScriptFault>
        ensures some { IfSome result (λ fault. (limits : Limits) (byte : ℕ) (tail : List ℕ) →
            limits.line ≡ self.now.lines + 1 →
            line_in limits ((self.now.part.items ++ byte ∷ []) ++ tail) ≡ Err fault) }
        ensures lines { result ≡ None → self.now.lines < MOST_LINES }
        ensures room { result ≡ None → length self.now.part.items < MOST_LINE_BYTES }
    {
        line_laws();
        if self.lines >= MOST_LINES {
            Some(ScriptFault::TooManyLines)
        } else if self.part.is_full() {
            Some(ScriptFault::LineTooLong)
        } else {
            None
        }
    }

    /// Goes on behind the line that has begun, which was carried out.
    pub(crate) fn end_line(&mut self)
        requires { self.old.lines < MOST_LINES }
        ensures lines { self.new.lines ≡ self.old.lines + 1 }
        ensures part { self.new.part.items ≡ [] }
    {
        self.lines += 1;
        self.part.clear();
    }
}
