use std::alloc::{AllocError, AllocFailed};

/// Memory ran out. What was asked for was not done.
#[derive(Clone, Copy, Debug, PartialEq, Eq)]
pub struct NoMemory;

impl From<AllocError> for NoMemory {
    fn from(_: AllocError) -> Self {
        NoMemory
    }
}

impl<T: Drop> From<AllocFailed<T>> for NoMemory {
    fn from(_: AllocFailed<T>) -> Self {
        NoMemory
    }
}

/// Something outside the program failed: a source, a sink, a disk. Its count of faults rose in the call that
/// answered this.
#[derive(Clone, Copy, Debug, PartialEq, Eq)]
pub struct Failed;
