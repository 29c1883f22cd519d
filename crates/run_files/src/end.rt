//! The end of a run that tells one text.

ghost use Rattle.std.specs.Prelude.{◌≡◌, true};
ghost use Rattle.run_laws.specs.Promise.{is_complete};
ghost use Rattle.run_laws.specs.Leaving.{TellsLast};

use crate::outside::Outside;
use run_laws::Status;

/// Writes the last text of a run, which ends with this status unless the write fails.
pub fn end_with_text<O: Outside>(text: &[u8], status: Status, outside: &mut O) -> Status
    requires { is_complete status ≡ true }
    ensures same { O.is_same outside.old outside.new }
    ensures tells { TellsLast (O.moment outside.old) (O.moment outside.new) text.now status result }
{
    match outside.tell(text) {
        Ok(()) => status,
        Err(_) => Status::WriteFault,
    }
}
