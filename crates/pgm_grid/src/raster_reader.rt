//! The reader of rasters.

ghost use Rattle.std.specs.Prelude.{◌≡◌, ◌+◌, ◌^◌, ◌<◌, ◌≤◌, [], ◌++◌, List, ℕ, Ok, Err, Some, None, IfSome, length};
ghost use Rattle.std.specs.Prelude.{vec_len, OnOk, IfOk, IfErr};
ghost use Rattle.pgm_grid.specs.RasterProgress.{resume_raster, raster_of, next_place, refusal_of, RasterStaysRefused};
ghost use Rattle.pgm_grid.specs.RasterProgress.{after, end_at, nothing_of, reads};
ghost use Rattle.pgm_grid.specs.RasterStage.{HasSampleRoom, IsPart, IsRasterPlace};
ghost use Rattle.pgm_grid.specs.declared.raster_plain.TheConstants.{MOST_BYTES};
ghost use Rattle.pgm_grid.specs.declared.raster_reader.TheConstants.{LAST_START};

use crate::raster_fault::RasterFault;
use crate::raster_form::RasterForm;
use crate::raster_part::{Digits, Limits, Part};
use crate::raster_plain::{end_digits, plain_within};
use crate::raster_raw::{bytes_after, words_after, words_after_half};
use mesh_defs::NoMemory;
use std::alloc::Global;
use std::marker::Model;

/// The last place where a raster may begin: a header has at most as many bytes.
pub const LAST_START: u64 = 65_536;

/// A reader of the bytes of a raster, in pieces of any length.
///
/// After a refusal it answers the same refusal from every later call.
/// Cost (not proved): raw samples by lanes, plain ones by a step a byte. Memory is taken by `new` alone.
/// Source: Netpbm manual, "pgm".
#[derive(Drop)]
pub struct RasterReader {
    /// The samples that are whole, with room for all.
    heights: Vec<u16>,
    /// What is wanted.
    limits: Limits,
    /// What has come of the next sample.
    part: Part,
    /// The place of the next byte in the file.
    at: u64,
    /// The first refusal.
    refused: Option<RasterFault>,
}

impl Model for RasterReader {
    ghost use Rattle.pgm_grid.specs.RasterProgress.{RasterProgress, ReadingSamples};

    ghost Value = { RasterProgress };

    ghost use Rattle.pgm_grid.specs.RasterStage.{raster_progress_of, IsRasterReader};

    ghost view = { λ r. raster_progress_of r.refused (ReadingSamples r.limits r.heights.items r.part r.at) };

    ghost invariant = { λ r. IsRasterReader r.refused r.limits r.heights r.part r.at };
}

impl RasterReader {
    /// A reader that has taken no byte of a raster of so many samples, none above `maxval`, whose first
    /// byte stands at this place of the file, counted from 0.
    ///
    /// The room for the samples is taken here. The one error is out of memory.
    pub fn new(
        alloc: Global,
        form: RasterForm,
        count: usize,
        maxval: u16,
        place: u64,
    ) -> Result<RasterReader, NoMemory>
        requires place_small { place ≤ LAST_START }
        requires count_small { count ≤ 2 ^ 23 }
        ensures value { IfOk result (λ reader. (more : List ℕ) →
            resume_raster reader more ≡ raster_of form count maxval place more) }
        ensures place { IfOk result (λ reader. next_place reader ≡ place) }
        ensures good { IfOk result (λ reader. refusal_of reader ≡ None) }
    {
        let part = match form {
            RasterForm::Bytes => Part::Bytes,
            RasterForm::Words => Part::Words(None),
            RasterForm::Plain => Part::Plain(Digits::NONE),
        };
        Ok(RasterReader {
            heights: Vec::with_capacity(alloc, count)?,
            limits: Limits { count, maxval },
            part,
            at: place,
            refused: None,
        })
    }

    /// The place of the next byte in the file, and 0 after a refusal.
    pub fn place(&self) -> u64
        ensures value { result ≡ next_place self.now }
    {
        match self.refused {
            Some(_) => 0,
            None => self.at,
        }
    }

    /// Takes further bytes of the file.
    ///
    /// A refusal comes with the piece that brings the byte that is refused.
    pub fn feed(&mut self, piece: &[u8]) -> Result<(), RasterFault>
        // What the bytes mean together is not changed by where they are cut.
        ensures ok { OnOk result ((more : List ℕ) →
            resume_raster self.old (piece.now ++ more) ≡ resume_raster self.new more) }
        ensures place { OnOk result (next_place self.new ≡ next_place self.old + length piece.now) }
        ensures limit { OnOk result (next_place self.new ≤ MOST_BYTES) }
        // No byte so far is refused: what still comes decides.
        ensures unsettled { OnOk result ((fault : RasterFault) → ¬ RasterStaysRefused self.new fault) }
        // The refusal is that of the file, whatever still comes.
        ensures refusal { IfErr result (λ fault. (more : List ℕ) →
            resume_raster self.old (piece.now ++ more) ≡ Err fault) }
        ensures err { IfErr result (λ fault. RasterStaysRefused self.new fault) }
        ensures good { OnOk result (refusal_of self.new ≡ None) }
        ensures bad { IfErr result (λ fault. refusal_of self.new ≡ Some fault) }
        ensures sticks { IfSome (refusal_of self.old) (λ fault. result ≡ Err fault) }
    {
        if let Some(fault) = self.refused {
            return Err(fault);
        }
        match part_after(&mut self.heights, self.limits, self.part, self.at, piece) {
            Ok(part) => {
                self.part = part;
                self.at += piece.len() as u64;
                Ok(())
            }
            Err(fault) => {
                self.refused = Some(fault);
                Err(fault)
            }
        }
    }

    /// Ends the bytes of the file, and answers the samples in file order.
    pub fn finish(self) -> Result<Vec<u16>, RasterFault>
        ensures ok { IfOk result (λ heights. resume_raster self [] ≡ Ok heights.items) }
        ensures err { IfErr result (λ fault. resume_raster self [] ≡ Err fault) }
    {
        if let Some(fault) = self.refused {
            return Err(fault);
        }
        last_answer(self.heights, self.limits, self.part)
    }
}

/// What further bytes make of a part of a sample.
fn part_after(
    heights: &mut Vec<u16>,
    limits: Limits,
    part: Part,
    at: u64,
    piece: &[u8],
) -> Result<Part, RasterFault>
    requires room { HasSampleRoom limits heights.old }
    requires part { IsPart limits (vec_len heights.old) part }
    requires place { IsRasterPlace limits (vec_len heights.old) part at }
    ensures ok { IfOk result (λ next. (more : List ℕ) →
        reads limits heights.old.items part at (piece.now ++ more)
        ≡ reads limits heights.new.items next (at + length piece.now) more) }
    ensures err { IfErr result (λ fault. (more : List ℕ) →
        reads limits heights.old.items part at (piece.now ++ more) ≡ Err fault) }
    ensures valid { OnOk result (HasSampleRoom limits heights.new) }
    ensures part { IfOk result (λ next. IsPart limits (vec_len heights.new) next) }
    ensures place { IfOk result (λ next. IsRasterPlace limits (vec_len heights.new) next (at + length piece.now)) }
{
    match part {
        Part::Bytes => {
            bytes_after(heights, limits, at, piece)?;
            Ok(Part::Bytes)
        }
        Part::Words(None) => Ok(Part::Words(words_after(heights, limits, at, piece)?)),
        Part::Words(Some(high)) => Ok(Part::Words(words_after_half(
            heights, limits, at, high, piece,
        )?)),
        Part::Plain(digits) => Ok(Part::Plain(plain_within(heights, limits, at, digits, piece)?)),
    }
}

/// Ends the sample that is not whole, if the end of the file can end it.
fn end_part(heights: &mut Vec<u16>, limits: Limits, part: Part) -> Result<(), RasterFault>
    requires room { HasSampleRoom limits heights.old }
    requires part { IsPart limits (vec_len heights.old) part }
    ensures ok { OnOk result ((at : ℕ) → reads limits heights.old.items part at []
        ≡ after heights.new.items (end_at limits (length heights.new.items))) }
    ensures err { IfErr result (λ fault. (at : ℕ) → reads limits heights.old.items part at [] ≡ Err fault) }
{
    match part {
        Part::Bytes | Part::Words(_) => Ok(()),
        Part::Plain(digits) => end_digits(heights, limits, digits),
    }
}

/// The answer if no byte comes any more.
fn last_answer(heights: Vec<u16>, limits: Limits, part: Part) -> Result<Vec<u16>, RasterFault>
    requires room { HasSampleRoom limits heights }
    requires part { IsPart limits (vec_len heights) part }
    ensures ok { IfOk result (λ all. (at : ℕ) → reads limits heights.items part at [] ≡ Ok all.items) }
    ensures err { IfErr result (λ fault. (at : ℕ) → reads limits heights.items part at [] ≡ Err fault) }
{
    let mut heights = heights;
    end_part(&mut heights, limits, part)?;
    if heights.len() < limits.count {
        return Err(RasterFault::Truncated);
    }
    Ok(heights)
}
