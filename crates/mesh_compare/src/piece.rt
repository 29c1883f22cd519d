//! Comparing a piece of the text with the next bytes of a file.

ghost use Rattle.std.specs.Prelude.{◌≡◌, None, false, IfOk, OnErr};
ghost use Rattle.roam_edge.specs.Fault.{HasCause, IsInTime};
ghost use Rattle.roam_edge.specs.Told.{StaysTold};
ghost use Rattle.mesh_compare.specs.Differs.{Matches, IsReadInPart, left_of};

use crate::window::Window;
use roam_edge::{Failed, Shelf};

/// The first place of a piece where the next bytes of a file differ from it or end, and none where they are the
/// piece, which is then behind.
pub(crate) fn match_piece<F: Shelf>(
    window: &mut Window,
    shelf: &mut F,
    piece: &[u8],
) -> Result<Option<usize>, Failed>
    requires { F.ended shelf.old ≡ false }
    ensures place { IfOk result (λ found. Matches piece.now (left_of window.old (F.rest shelf.old))
        (left_of window.new (F.rest shelf.new)) found) }
    ensures goes_on { IfOk result (λ found. found ≡ None → F.ended shelf.new ≡ false) }
    ensures cut { OnErr result (IsReadInPart piece.now (left_of window.old (F.rest shelf.old)) (F.rest shelf.new)) }
    ensures not_ended { OnErr result (F.ended shelf.new ≡ false) }
    ensures told { StaysTold (F.rest shelf.old) (F.rest shelf.new) }
    ensures files { F.files shelf.new ≡ F.files shelf.old }
    ensures opens { F.opens shelf.new ≡ F.opens shelf.old }
    ensures faults { HasCause (F.faults shelf.old) (F.faults shelf.new) result }
    ensures in_time { IsInTime (F.late shelf.old) (F.faults shelf.old) (F.late shelf.new) }
{
    for (i, byte) in piece.iter().enumerate() {
        match window.next(shelf)? {
            Some(next) if next == *byte => (),
            _ => return Ok(Some(i)),
        }
    }
    Ok(None)
}
