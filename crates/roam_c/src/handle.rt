//! The handle of C: a struct of the caller's that owns a value on the heap or is empty.

ghost use Rattle.std.specs.Prelude.{◌≡◌, ◌≢◌, ◌⊎◌, Option, Some, None, MatchOption};
ghost use Rattle.roam_embed.specs.declared.answer.Answer.{Answer};
ghost use Rattle.roam_c.specs.declared.kept.Kept.{Kept};
ghost use Rattle.roam_c.specs.Held.{held_if, is_mark};

use crate::kept::Kept;
use crate::mark::MARK;
use roam_embed::Answer;
use std::alloc::Global;
use std::marker::Model;
use std::mem::replace;
use std::ptr::null_mut;

/// What C holds: the mark of a full handle, or any other number, and where its value is on the heap.
///
/// C has a struct of its own for each kind of value, all of this form. A struct of zeros is an empty handle, and so is
/// nearly every one that nobody has written. `value` is what clauses see: what is kept, or none.
#[repr(C)]
pub struct Handle {
    pub(crate) mark: u64,
    pub(crate) at: *mut u8,
    pub ghost value: { Option Kept },
}

impl Model for Handle {
    ghost also_owns = { λ h. held_if (is_mark h.mark) h.at h.value };
}

// What is kept names no thread, so a handle may move from one to another, and be used by one at a time.
unsafe impl Send for Handle {}

/// The pointer of an empty handle.
fn nowhere() -> *mut u8 {
    null_mut()
}

/// An empty handle.
fn hollow(at: *mut u8) -> Handle
    ensures { result.value ≡ None }
{
    Handle { mark: 0, at }
}

/// A handle that owns this.
fn around(b: Box<Kept>) -> Handle
    ensures { result.value ≡ Some b.value }
{
    let at = Box::into_raw(b);
    Handle {
        mark: MARK,
        at: at as *mut u8,
    }
}

/// What the handle owned, if it was full.
fn open(h: Handle, alloc: Global) -> Option<Box<Kept>>
    ensures { MatchOption result (h.value ≡ None) (λ b. h.value ≡ Some b.value) }
{
    let Handle { mark, at } = h;
    if mark == MARK {
        Some(unsafe { Box::from_raw(alloc, at as *mut Kept) })
    } else {
        None
    }
}

/// Takes what is kept out of the handle, which is empty then.
pub(crate) fn take(h: &mut Handle, alloc: Global) -> Option<Box<Kept>>
    ensures value { MatchOption result (h.old.value ≡ None) (λ b. h.old.value ≡ Some b.value) }
    ensures empty { h.new.value ≡ None }
{
    let empty = hollow(nowhere());
    open(replace(h, empty), alloc)
}

/// Puts this into the handle, and lets go of what was there.
pub(crate) fn put(h: &mut Handle, b: Box<Kept>, alloc: Global)
    ensures { h.new.value ≡ Some b.value }
{
    let _was = open(replace(h, around(b)), alloc);
}

/// Puts a new value into the handle, and lets go of what was there. Where memory runs out, the handle is as before.
pub(crate) fn hold(h: &mut Handle, kept: Kept, alloc: Global) -> Answer
    ensures answer { (result ≡ Answer.Done) ⊎ (result ≡ Answer.NoMemory) }
    ensures held { result ≡ Answer.Done → h.new.value ≡ Some kept }
    ensures same { result ≢ Answer.Done → h.new.value ≡ h.old.value }
{
    match Box::new(alloc, kept) {
        Ok(b) => {
            put(h, b, alloc);
            Answer::Done
        }
        Err(_) => Answer::NoMemory,
    }
}

/// The number of what a call answers that makes a value of this kind, which goes into a handle. What was there is let go
/// of; after a refusal the handle is as before.
macro_rules! fill {
    ($kind:ident, $handle:ident, $alloc:ident, $made:expr) => {
        match $made {
            Ok(made) => {
                $crate::handle::hold($handle, $crate::kept::Kept::$kind(made), $alloc).number()
            }
            Err(refusal) => refusal.number(),
        }
    };
}

pub(crate) use fill;

/// The number of what a call of `roam_embed` answers, made on the value of a handle where that is of this kind. The
/// value goes back into the handle. A handle that is empty, or has a value of another kind, is as before.
macro_rules! on {
    ($kind:ident, $handle:ident, $alloc:ident, |$value:ident| $call:expr) => {
        match $crate::handle::take($handle, $alloc) {
            Some(mut kept) => match kept.as_mut() {
                $crate::kept::Kept::$kind($value) => {
                    let answer = $call;
                    $crate::handle::put($handle, kept, $alloc);
                    answer.number()
                }
                _ => {
                    $crate::handle::put($handle, kept, $alloc);
                    roam_embed::Answer::IsEmpty.number()
                }
            },
            None => roam_embed::Answer::IsEmpty.number(),
        }
    };
}

pub(crate) use on;

/// The number of what a call answers that lets go of a value of this kind, and leaves its handle empty. A handle that is
/// empty, or has a value of another kind, is as before.
macro_rules! close {
    ($kind:ident, $handle:ident, $alloc:ident) => {
        match $crate::handle::take($handle, $alloc) {
            Some(closed) => match closed.as_ref() {
                $crate::kept::Kept::$kind(_) => roam_embed::Answer::Done.number(),
                _ => {
                    $crate::handle::put($handle, closed, $alloc);
                    roam_embed::Answer::IsEmpty.number()
                }
            },
            None => roam_embed::Answer::IsEmpty.number(),
        }
    };
}

pub(crate) use close;

/// The handle, which any thread may be given.
///
/// Nothing calls it: it is the place at which the proof that a handle is `Send` is asked for.
pub fn crossing(h: Handle) -> Handle
    ensures { result ≡ h }
{
    sent(h)
}

/// The value, if threads may hand it over.
fn sent<T: Send>(it: T) -> T
    ensures { result ≡ it }
{
    it
}
