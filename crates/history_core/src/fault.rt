use bus_io::WriteFault as SinkFault;
use bus_types::NoMemory as OutOfMemory;
use std::alloc::{AllocError, AllocFailed};

/// Why a bus took no line.
#[derive(Clone, Copy, Debug, PartialEq, Eq)]
pub enum StepFault {
    /// The line is against a rule in this state of the bus, or has a number outside the ranges of the grammar. Bus and
    /// output are as before.
    BadLine,
    /// The output failed. The bus isn't used again.
    WriteFault {
        /// How many bytes of the line's text went out: the first ones, and no others.
        written: u64,
    },
    /// Memory ran out. Nothing was written, and the bus isn't used again.
    NoMemory,
}

impl From<AllocError> for StepFault {
    ghost use Rattle.std.specs.Prelude.{◌≡◌};
    ghost use Rattle.history_core.specs.declared.fault.StepFault.TheVariants as faults;

    ghost from_gives = { λ _ e. e ≡ faults.NoMemory };

    fn from(_: AllocError) -> Self {
        StepFault::NoMemory
    }
}

impl<T: Drop> From<AllocFailed<T>> for StepFault {
    ghost use Rattle.std.specs.Prelude.{◌≡◌};
    ghost use Rattle.history_core.specs.declared.fault.StepFault.TheVariants as faults;

    ghost from_gives = { λ _ e. e ≡ faults.NoMemory };

    fn from(_: AllocFailed<T>) -> Self {
        StepFault::NoMemory
    }
}

impl From<OutOfMemory> for StepFault {
    ghost use Rattle.std.specs.Prelude.{◌≡◌};
    ghost use Rattle.history_core.specs.declared.fault.StepFault.TheVariants as faults;

    ghost from_gives = { λ _ e. e ≡ faults.NoMemory };

    fn from(_: OutOfMemory) -> Self {
        StepFault::NoMemory
    }
}

impl From<SinkFault> for StepFault {
    ghost use Rattle.std.specs.Prelude.{◌≡◌};
    ghost use Rattle.history_core.specs.declared.fault.StepFault.TheVariants as faults;

    ghost from_gives = { λ f e. e ≡ faults.WriteFault f.written };

    fn from(fault: SinkFault) -> Self {
        StepFault::WriteFault {
            written: fault.written,
        }
    }
}
