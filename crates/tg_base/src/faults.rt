use std::alloc::{AllocError, AllocFailed};

/// Out of memory. It says nothing of the arguments, and no clause ties it to one.
#[derive(Clone, Copy, Debug, PartialEq, Eq)]
pub struct Memory;

/// A read or a write that failed.
#[derive(Clone, Copy, Debug, PartialEq, Eq)]
pub struct Failed;

impl From<AllocError> for Memory {
    fn from(_e: AllocError) -> Memory {
        Memory
    }
}

impl<T: Drop> From<AllocFailed<T>> for Memory {
    fn from(_e: AllocFailed<T>) -> Memory {
        Memory
    }
}
