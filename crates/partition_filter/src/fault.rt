ghost use Rattle.std.specs.Prelude.{◌≡◌};
ghost use Rattle.partition_filter.specs.declared.fault.FilterFault.TheVariants as faults;

use bus_types::NoMemory as OutOfMemory;
use std::alloc::{AllocError, AllocFailed};

/// Why a filter was not read. Nothing is kept of it.
#[derive(Clone, Copy, Debug, PartialEq, Eq)]
pub enum FilterFault {
    /// The text is no filter.
    BadFilter {
        /// 4,096 where the text has more bytes than that; else the place of the first byte of the first rule that is
        /// no rule, whose source isn't above the one before it, or that is the 65th, where the text is split at `;`.
        place: u64,
    },
    /// Memory ran out.
    NoMemory,
}

impl From<AllocError> for FilterFault {
    ghost from_gives = { λ _ e. e ≡ faults.NoMemory };

    fn from(_: AllocError) -> Self {
        FilterFault::NoMemory
    }
}

impl<T: Drop> From<AllocFailed<T>> for FilterFault {
    ghost from_gives = { λ _ e. e ≡ faults.NoMemory };

    fn from(_: AllocFailed<T>) -> Self {
        FilterFault::NoMemory
    }
}

impl From<OutOfMemory> for FilterFault {
    ghost from_gives = { λ _ e. e ≡ faults.NoMemory };

    fn from(_: OutOfMemory) -> Self {
        FilterFault::NoMemory
    }
}
