//! The two errors of the outside: a call that failed, and memory that was not there.

use std::alloc::{AllocError, AllocFailed};

/// A call of an outside object failed; the object's count of faults rose in that call.
#[derive(Debug, Clone, Copy, PartialEq, Eq)]
pub struct Failed;

/// Memory that the call needs could not be had.
#[derive(Debug, Clone, Copy, PartialEq, Eq)]
pub struct NoMemory;

impl From<AllocError> for NoMemory {
    fn from(_error: AllocError) -> Self {
        NoMemory
    }
}

impl<T: Drop> From<AllocFailed<T>> for NoMemory {
    fn from(_error: AllocFailed<T>) -> Self {
        NoMemory
    }
}
