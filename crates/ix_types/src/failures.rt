//! Why a call gave nothing though its arguments were right: memory was wanting, or the outside failed.
use std::alloc::{AllocError, AllocFailed};
use std::error::Error;
use std::fmt;

/// Memory was wanting.
#[derive(Clone, Copy, Debug, Drop, PartialEq, Eq)]
pub struct Memory;

/// Something outside the program failed.
#[derive(Clone, Copy, Debug, Drop, PartialEq, Eq)]
pub struct Failed;

impl fmt::Display for Memory {
    fn fmt<W: fmt::Write>(&self, f: &mut fmt::Formatter<W>) -> fmt::Result {
        write!(f, "memory")
    }
}

impl Error for Memory {}

impl fmt::Display for Failed {
    fn fmt<W: fmt::Write>(&self, f: &mut fmt::Formatter<W>) -> fmt::Result {
        write!(f, "failed")
    }
}

impl Error for Failed {}

impl From<AllocError> for Memory {
    fn from(_wanting: AllocError) -> Memory {
        Memory
    }
}

impl<T: Drop> From<AllocFailed<T>> for Memory {
    fn from(_wanting: AllocFailed<T>) -> Memory {
        Memory
    }
}
