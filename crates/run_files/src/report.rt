//! The lines of the report that tell of no frame.

ghost use Rattle.std.specs.Prelude.{◌≡◌, ◌+◌, ◌≤◌, ◌++◌, length, decimal};
ghost use Rattle.arrayvec.specs.ArrayVec.{array_vec_len};
ghost use Rattle.run_laws.specs.Maker.{refusal};
ghost use Rattle.run_laws.specs.ReportText.{grid_fault_text, grid_refusal, script_fault_text, line_refusal};
ghost use Rattle.run_files.specs.declared.text.TheConstants.{TEXT_ROOM};

use crate::text::Text;
use arrayvec::ArrayVec;
use pgm_grid::PgmFault;
use roam_num::{push_bytes, push_number};
use roam_script::ScriptFault;

/// The line of a grid that is refused.
pub fn grid_report(fault: PgmFault) -> Text
    ensures { result.items ≡ grid_refusal fault }
{
    let mut text = ArrayVec::new();
    push_bytes(&mut text, b"grid refused: ");
    push_grid_fault(&mut text, fault);
    push_bytes(&mut text, b"\n");
    text
}

/// The line of a script's line that is refused, which is counted from 1.
pub fn line_report(number: u32, fault: ScriptFault) -> Text
    ensures { result.items ≡ line_refusal (refusal number fault) }
{
    let mut text = ArrayVec::new();
    push_bytes(&mut text, b"line ");
    push_number(&mut text, u64::from(number));
    push_bytes(&mut text, b" refused: ");
    push_script_fault(&mut text, fault);
    push_bytes(&mut text, b"\n");
    text
}

/// Appends why a line is refused.
fn push_script_fault(text: &mut Text, fault: ScriptFault)
    requires room { array_vec_len text.old + 64 ≤ TEXT_ROOM }
    ensures items { text.new.items ≡ text.old.items ++ script_fault_text fault }
    ensures len { array_vec_len text.new ≤ array_vec_len text.old + 64 }
{
    match fault {
        ScriptFault::LineTooLong => push_bytes(text, b"line too long"),
        ScriptFault::UnknownCommand => push_bytes(text, b"unknown command"),
        ScriptFault::WrongFields => push_bytes(text, b"wrong fields"),
        ScriptFault::BadNumber { field } => {
            push_placed(text, b"bad number in field ", u64::from(field))
        }
        ScriptFault::OutOfRange { field } => {
            push_placed(text, b"out of range in field ", u64::from(field))
        }
        ScriptFault::TooManyLines => push_bytes(text, b"too many lines"),
        ScriptFault::TooManyFrames => push_bytes(text, b"too many frames"),
        ScriptFault::TooManyPlanes => push_bytes(text, b"too many planes"),
    }
}

/// Appends why a grid is refused.
fn push_grid_fault(text: &mut Text, fault: PgmFault)
    requires room { array_vec_len text.old + 64 ≤ TEXT_ROOM }
    ensures items { text.new.items ≡ text.old.items ++ grid_fault_text fault }
    ensures len { array_vec_len text.new ≤ array_vec_len text.old + 64 }
{
    match fault {
        PgmFault::BadMagic => push_bytes(text, b"bad magic"),
        PgmFault::BadHeader { at } => push_placed(text, b"bad header at ", at),
        PgmFault::HeaderTooLong => push_bytes(text, b"header too long"),
        PgmFault::BadMaxval => push_bytes(text, b"bad maxval"),
        PgmFault::NotSquare => push_bytes(text, b"not square"),
        PgmFault::BadSide => push_bytes(text, b"bad side"),
        PgmFault::Truncated => push_bytes(text, b"truncated"),
        PgmFault::BadSample { at } => push_placed(text, b"bad sample at ", at),
        PgmFault::AboveMaxval { index } => push_placed(text, b"above maxval at sample ", index),
        PgmFault::Trailing { at } => push_placed(text, b"trailing byte at ", at),
        PgmFault::NoMemory => push_bytes(text, b"out of memory"),
        PgmFault::TooLong => push_bytes(text, b"file too long"),
    }
}

/// Appends words, and the number of a place.
pub fn push_placed(text: &mut Text, words: &[u8], place: u64)
    requires short { length words.now ≤ 40 }
    requires room { array_vec_len text.old + 60 ≤ TEXT_ROOM }
    ensures items { text.new.items ≡ text.old.items ++ (words.now ++ decimal place) }
    ensures len { array_vec_len text.new ≤ array_vec_len text.old + 60 }
{
    push_bytes(text, words);
    push_number(text, place);
}
