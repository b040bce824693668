// Why a line has no answer.
use std::alloc::{AllocError, AllocFailed};

// A text that is no part of a case: no number, no bytes, no name.
#[derive(Clone, Copy, Debug, PartialEq, Eq)]
pub struct NoLine;

#[derive(Clone, Copy, Debug, PartialEq, Eq)]
pub enum Trouble {
    NoLine,
    OutOfMemory,
}

impl From<NoLine> for Trouble {
    fn from(_e: NoLine) -> Trouble {
        Trouble::NoLine
    }
}

impl From<AllocError> for Trouble {
    fn from(_e: AllocError) -> Trouble {
        Trouble::OutOfMemory
    }
}

impl<T: Drop> From<AllocFailed<T>> for Trouble {
    fn from(_e: AllocFailed<T>) -> Trouble {
        Trouble::OutOfMemory
    }
}
