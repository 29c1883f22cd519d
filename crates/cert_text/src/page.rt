//! A page of text on the stack, which is handed to the sink when it is full.

ghost use Rattle.std.specs.Prelude.{◌≡◌, ◌+◌, ◌<◌, ◌≤◌, ◌++◌, ◌∷◌, [], ℕ, List, Option, length, OnOk, OnErr};
ghost use Rattle.std.specs.List.{flat_map};
ghost use Rattle.arrayvec.specs.ArrayVec.{array_vec_len};
ghost use Rattle.roam_edge.specs.Fault.{HasCause, IsInTime};
ghost use Rattle.roam_edge.specs.Sink.{Appends};
ghost use Rattle.cert_text.specs.Lines.{ended, field_text};
ghost use Rattle.cert_text.specs.Page.{IsPut, IsWrittenInPart, Puts, Cuts};
ghost use Rattle.cert_text.specs.declared.page.TheConstants.{PAGE_ROOM, LONGEST_LINE};

use arrayvec::ArrayVec;
use roam_edge::{Failed, Sink};
use roam_num::{push_bytes, push_number};

/// How many bytes a page has room for: a piece that the sink gets is almost as long, but for the last.
pub(crate) const PAGE_ROOM: usize = 16384;

/// No line is longer: a word of at most 9 letters, three numbers of at most 21 bytes with their blanks, and an LF.
pub(crate) const LONGEST_LINE: usize = 80;

/// Text that the sink has not got yet.
pub(crate) type Page = ArrayVec<u8, PAGE_ROOM>;

/// What has a line of its own in a text.
pub(crate) trait PageLine: Copy {
    // The line, without its LF.
    ghost text: { Self → List ℕ };

    /// Appends the line, without its LF.
    fn push(self, page: &mut Page)
        requires room { array_vec_len page.old + LONGEST_LINE ≤ PAGE_ROOM }
        ensures items { page.new.items ≡ page.old.items ++ text self }
        ensures len { array_vec_len page.new < array_vec_len page.old + LONGEST_LINE };
}

/// Puts the lines of these on the page.
pub(crate) fn put_lines<L: PageLine, S: Sink>(
    page: &mut Page,
    lines: &[L],
    out: &mut S,
) -> Result<(), Failed>
    ensures ok { OnOk result (Puts (S.contents out.old) (S.contents out.new) page.old.items page.new.items
        (flat_map (λ line. ended (L.text line)) lines.now)) }
    ensures err { OnErr result (Cuts (S.contents out.old) (S.contents out.new) page.old.items
        (flat_map (λ line. ended (L.text line)) lines.now)) }
    ensures faults { HasCause (S.faults out.old) (S.faults out.new) result }
    ensures in_time { IsInTime (S.late out.old) (S.faults out.old) (S.late out.new) }
{
    for line in lines {
        put_line(page, *line, out)?;
    }
    Ok(())
}

/// Puts a line on the page, and behind it those of these.
pub(crate) fn put_headed<H: PageLine, L: PageLine, S: Sink>(
    page: &mut Page,
    head: H,
    lines: &[L],
    out: &mut S,
) -> Result<(), Failed>
    ensures ok { OnOk result (Puts (S.contents out.old) (S.contents out.new) page.old.items page.new.items
        (ended (H.text head) ++ flat_map (λ line. ended (L.text line)) lines.now)) }
    ensures err { OnErr result (Cuts (S.contents out.old) (S.contents out.new) page.old.items
        (ended (H.text head) ++ flat_map (λ line. ended (L.text line)) lines.now)) }
    ensures faults { HasCause (S.faults out.old) (S.faults out.new) result }
    ensures in_time { IsInTime (S.late out.old) (S.faults out.old) (S.late out.new) }
{
    put_line(page, head, out)?;
    put_lines(page, lines, out)
}

/// Puts a line on the page, which is handed to the sink first where it has no room for a longest line.
fn put_line<L: PageLine, S: Sink>(page: &mut Page, line: L, out: &mut S) -> Result<(), Failed>
    ensures ok { OnOk result (Puts (S.contents out.old) (S.contents out.new) page.old.items page.new.items
        (ended (L.text line))) }
    ensures err { OnErr result ((before : Option (List ℕ)) (text : List ℕ) →
        IsPut before (S.contents out.old) page.old.items text → IsWrittenInPart before (S.contents out.new) text) }
    ensures faults { HasCause (S.faults out.old) (S.faults out.new) result }
    ensures in_time { IsInTime (S.late out.old) (S.faults out.old) (S.late out.new) }
{
    make_room(page, out)?;
    line.push(page);
    push_bytes(page, b"\n");
    Ok(())
}

/// Hands a page to the sink that has no room for a longest line.
fn make_room<S: Sink>(page: &mut Page, out: &mut S) -> Result<(), Failed>
    ensures room { OnOk result (array_vec_len page.new + LONGEST_LINE ≤ PAGE_ROOM) }
    ensures ok { OnOk result ((before : Option (List ℕ)) (text : List ℕ) →
        IsPut before (S.contents out.old) page.old.items text → IsPut before (S.contents out.new) page.new.items text) }
    ensures err { OnErr result ((before : Option (List ℕ)) (text : List ℕ) →
        IsPut before (S.contents out.old) page.old.items text → IsWrittenInPart before (S.contents out.new) text) }
    ensures faults { HasCause (S.faults out.old) (S.faults out.new) result }
    ensures in_time { IsInTime (S.late out.old) (S.faults out.old) (S.late out.new) }
{
    if page.len() + LONGEST_LINE <= PAGE_ROOM {
        return Ok(());
    }
    out.write(page.as_slice())?;
    page.clear();
    Ok(())
}

/// Hands the page to the sink, unless it is empty.
pub(crate) fn put_rest<S: Sink>(page: &Page, out: &mut S) -> Result<(), Failed>
    ensures bytes { (before : Option (List ℕ)) (text : List ℕ) → IsPut before (S.contents out.old) page.now.items text →
        Appends before (S.contents out.new) text result }
    ensures faults { HasCause (S.faults out.old) (S.faults out.new) result }
    ensures in_time { IsInTime (S.late out.old) (S.faults out.old) (S.late out.new) }
{
    if page.is_empty() {
        return Ok(());
    }
    out.write(page.as_slice())
}

/// Appends a blank and a number.
pub(crate) fn push_field(page: &mut Page, number: u32)
    requires room { array_vec_len page.old + 21 ≤ PAGE_ROOM }
    ensures items { page.new.items ≡ page.old.items ++ field_text number }
    ensures len { array_vec_len page.new ≤ array_vec_len page.old + 21 }
{
    push_bytes(page, b" ");
    push_number(page, u64::from(number));
}
