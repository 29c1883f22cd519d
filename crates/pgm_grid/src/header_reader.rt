//! The reader of a header.

ghost use Rattle.std.specs.Prelude.{◌≡◌, ◌+◌, ◌≤◌, [], ◌∷◌, List, ℕ, IfOk, IfErr, OnErr, IfSome, IfNone};
ghost use Rattle.pgm_grid.specs.declared.header_fault.HeaderFault.{HeaderFault as Fault};
ghost use Rattle.pgm_grid.specs.declared.header_reader.TheConstants.{LAST_PLACE};
ghost use Rattle.pgm_grid.specs.AcceptedHeader.{IsHeader, Part, Whole, Bad};
ghost use Rattle.pgm_grid.specs.HeaderReading.{resume_header, header_of, header_taken, unfit};

use crate::accepted_header::{Header, judge};
use crate::header_fault::HeaderFault;
use crate::header_machine::{State, Step, step_from};
use std::marker::Model;

/// The most bytes of a header: a limit of this project's own, since comments may go on without end.
pub const MOST_HEADER_BYTES: u32 = 65_536;

/// The place of the last byte that a header may have.
pub const LAST_PLACE: u32 = MOST_HEADER_BYTES - 1;

/// A reader of the bytes of a PGM file's header, one after the other.
///
/// A byte that ends the header or is refused leaves it as it was.
/// Cost (not proved): a few steps a byte; takes no memory.
/// Source: Netpbm manual, "pgm"; where comments may stand, the one byte after the maxval and the limits
/// are this project's own.
#[derive(Drop)]
pub struct HeaderReader {
    /// What the bytes so far have come to.
    state: State,
    /// The place of the next byte.
    place: u32,
}

impl Model for HeaderReader {
    ghost use Rattle.pgm_grid.specs.HeaderReading.{HeaderProgress};

    ghost Value = { HeaderProgress };

    ghost use Rattle.pgm_grid.specs.HeaderInside.{header_progress_of, IsReader};

    ghost view = { header_progress_of };

    ghost invariant = { IsReader };
}

impl HeaderReader {
    /// A reader that has taken no byte.
    #[tactic(auto, using(crate::proofs::HeaderReadingLemmas::reads))]
    pub fn new() -> HeaderReader
        ensures value { (more : List ℕ) → resume_header result more ≡ header_of more }
        ensures count { header_taken result ≡ 0 }
        ensures refusable { (more : List ℕ) × (fault : Fault) × (resume_header result more ≡ Bad fault) }
    {
        HeaderReader {
            state: State::Start,
            place: 0,
        }
    }

    /// The place of the next byte, counted from 0: how many bytes were taken.
    #[tactic(auto, using(crate::proofs::HeaderReadingLemmas::taken_place))]
    pub fn place(&self) -> u32
        ensures value { result ≡ header_taken self.now }
        ensures bound { result ≤ LAST_PLACE }
    {
        self.place
    }

    /// Takes the next byte. `None`: the header goes on. A header: the byte ended it.
    #[tactic(auto, using(crate::proofs::HeaderReadingLemmas::reads))]
    pub fn take(&mut self, byte: u8) -> Result<Option<Header>, HeaderFault>
        // What the bytes mean together is not changed by taking them one by one.
        ensures goes_on { IfOk result (λ ended. IfNone ended
            ((more : List ℕ) → resume_header self.old (byte ∷ more) ≡ resume_header self.new more)) }
        // No byte so far is refused, or ends the header: what still comes decides.
        ensures part { IfOk result (λ ended. IfNone ended (resume_header self.new [] ≡ Part)) }
        ensures refusable { IfOk result (λ ended. IfNone ended
            ((more : List ℕ) × (fault : Fault) × (resume_header self.new more ≡ Bad fault))) }
        ensures count { IfOk result (λ ended. IfNone ended (header_taken self.new ≡ header_taken self.old + 1)) }
        ensures limit { IfOk result (λ ended. IfNone ended (header_taken self.new ≤ LAST_PLACE)) }
        // The header is that of the text, whatever follows, and what follows is left.
        ensures ends { IfOk result (λ ended. IfSome ended (λ header.
            (more : List ℕ) → resume_header self.old (byte ∷ more) ≡ Whole header more)) }
        ensures accepted { IfOk result (λ ended. IfSome ended IsHeader) }
        // The refusal is that of the text, whatever follows.
        ensures refusal { IfErr result (λ fault.
            (more : List ℕ) → resume_header self.old (byte ∷ more) ≡ Bad fault) }
        ensures ended_same { IfOk result (λ ended. IfSome ended (λ _. self.new ≡ self.old)) }
        ensures err_same { OnErr result (self.new ≡ self.old) }
    {
        match step_from(self.state, byte) {
            Step::Goes(state) => {
                if self.place == LAST_PLACE {
                    return Err(HeaderFault::HeaderTooLong);
                }
                self.state = state;
                self.place += 1;
                Ok(None)
            }
            Step::Ends(values) => match judge(values) {
                Ok(header) => Ok(Some(header)),
                Err(fault) => Err(fault),
            },
            Step::Fails => Err(unfit_at(self.place)),
        }
    }
}

/// The refusal of a byte at this place that continues no header.
fn unfit_at(place: u32) -> HeaderFault
    ensures { result ≡ unfit place }
{
    if place < 2 {
        HeaderFault::BadMagic
    } else {
        HeaderFault::BadHeader { at: place as u64 }
    }
}
