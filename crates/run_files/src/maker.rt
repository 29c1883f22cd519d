//! What makes the frames of a script, and shows them.

ghost use Rattle.std.specs.Prelude.{◌≡◌, ◌≢◌, ◌+◌, ◌<◌, ◌≤◌, ℕ, List, false};
ghost use Rattle.mesh_defs.specs.declared.level.TheConstants.{GREATEST_LEVEL};
ghost use Rattle.roam_script.specs.declared.limits.Limits.{Limits as LimitsSeen};
ghost use Rattle.roam_script.specs.declared.limits.TheConstants.{MOST_LINES};
ghost use Rattle.roam_script.specs.Laws.{LiesInRange};
ghost use Rattle.run_laws.specs.Picture.{Picture};
ghost use Rattle.run_laws.specs.Walk.{Walk, limits_of, after_line};
ghost use Rattle.run_words.specs.Words.{Show};
ghost use Rattle.run_laws.specs.Maker.{TakesFrame};
ghost use Rattle.run_laws.specs.Moment.{OnlyWrites};

use crate::outside::Outside;
use roam_edge::Failed;
use roam_script::{Limits, Line};

/// Carries out the lines of a script, one after the other: those that make a frame, and those that change what is seen.
pub trait FrameMaker {
    // It shows frames so, and has followed a walk whose frames showed these pictures.
    ghost follows: { Self → Show → Walk → List Picture → Type 0 };

    // After so many lines it can carry out one more.
    ghost is_ready: { Self → ℕ → Type 0 };

    // It can carry out each line that is accepted under these limits.
    ghost is_under: { Self → LimitsSeen → Type 0 };

    /// What the next line is read under, after so many lines.
    fn limits(&self, lines: u32) -> Limits
        requires { lines ≤ MOST_LINES }
        ensures under { is_under self.now result }
        ensures value { (show : Show) (walk : Walk) (pictures : List Picture) →
            follows self.now show walk pictures → lines ≡ walk.lines → result ≡ limits_of walk }
        ensures line { result.line ≡ lines + 1 }
        ensures level { result.n ≤ GREATEST_LEVEL };

    /// Applies a line that makes no frame.
    fn apply_line(&mut self, line: Line)
        requires other { line ≢ Line.Frame }
        requires ready { (lines : ℕ) × is_ready self.old lines × (lines < MOST_LINES) }
        requires ranges { (limits : LimitsSeen) × is_under self.old limits × LiesInRange limits line }
        ensures followed { (show : Show) (walk : Walk) (pictures : List Picture) →
            follows self.old show walk pictures → follows self.new show (after_line line walk) pictures }
        ensures ready { (lines : ℕ) → is_ready self.old lines → is_ready self.new (lines + 1) };

    /// Makes the frame of a line, and shows it.
    fn take_frame<O: Outside>(&mut self, outside: &mut O) -> Result<(), Failed>
        requires idle { (O.moment outside.old).under_way ≡ false }
        requires ready { (lines : ℕ) × is_ready self.old lines × (lines < MOST_LINES) }
        requires ranges { (limits : LimitsSeen) × is_under self.old limits × LiesInRange limits Line.Frame }
        ensures outcome { (show : Show) (walk : Walk) (pictures : List Picture) → follows self.old show walk pictures →
            TakesFrame (O.moment outside.old).sinks (O.moment outside.new).sinks
            show walk pictures (follows self.new) result }
        ensures ready { (lines : ℕ) → is_ready self.old lines → is_ready self.new (lines + 1) }
        ensures same { O.is_same outside.old outside.new }
        ensures only { OnlyWrites (O.moment outside.old) (O.moment outside.new) result };
}
