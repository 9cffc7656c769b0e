ghost use Rattle.std.specs.Prelude.{◌≡◌};
ghost use Rattle.trace_script.specs.declared.fault.CutFault.TheVariants as cuts;
ghost use Rattle.trace_script.specs.declared.fault.LineFault.TheVariants as faults;

use bus_types::NoMemory as OutOfMemory;
use std::alloc::{AllocError, AllocFailed};

/// Why a line was not read.
#[derive(Clone, Copy, Debug, PartialEq, Eq)]
pub enum LineFault {
    /// The text is outside the grammar of lines.
    BadLine,
    /// Memory ran out.
    NoMemory,
}

impl From<AllocError> for LineFault {
    ghost from_gives = { λ _ e. e ≡ faults.NoMemory };

    fn from(_: AllocError) -> Self {
        LineFault::NoMemory
    }
}

impl<T: Drop> From<AllocFailed<T>> for LineFault {
    ghost from_gives = { λ _ e. e ≡ faults.NoMemory };

    fn from(_: AllocFailed<T>) -> Self {
        LineFault::NoMemory
    }
}

impl From<OutOfMemory> for LineFault {
    ghost from_gives = { λ _ e. e ≡ faults.NoMemory };

    fn from(_: OutOfMemory) -> Self {
        LineFault::NoMemory
    }
}

/// Why an input was not cut into lines any further.
#[derive(Clone, Copy, Debug, PartialEq, Eq)]
pub enum CutFault {
    /// The line of this number, counted from 1, is too long.
    TooLong(u64),
    /// Memory ran out.
    NoMemory,
}

impl From<AllocError> for CutFault {
    ghost from_gives = { λ _ e. e ≡ cuts.NoMemory };

    fn from(_: AllocError) -> Self {
        CutFault::NoMemory
    }
}
