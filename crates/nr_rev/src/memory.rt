//! The error for running out of memory.

use std::alloc::{AllocError, AllocFailed};

/// Memory ran out: the error of a call that can fail for no other reason. The field is private, so
/// a `Memory` can only be made from the library's own error. Any function can make that error, and
/// no contract prevents it; a rule of the repository (`python3 scripts/pages.py refused`) finds
/// each place in the program where that happens.
#[derive(Clone, Copy, Debug, PartialEq, Eq)]
pub struct Memory(AllocError);

impl From<AllocError> for Memory {
    fn from(refused: AllocError) -> Memory {
        Memory(refused)
    }
}

/// Drops the value that was not stored.
impl<T: Drop> From<AllocFailed<T>> for Memory {
    fn from(refused: AllocFailed<T>) -> Memory {
        Memory(refused.into())
    }
}
