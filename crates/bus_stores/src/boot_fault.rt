use bus_types::NoMemory as OutOfMemory;

/// Why a bootstrap did not do what it was asked.
#[derive(Clone, Copy, Debug, PartialEq, Eq)]
pub enum BootFault {
    /// The log failed. It comes only where its count of faults rose.
    LogFailed,
    /// The keeper failed. It comes only where its count of faults rose.
    StoreFailed,
    /// An earlier call met a fault of the log or the keeper. A call on the parts alone never answers it.
    Halted,
    /// Memory ran out.
    NoMemory,
}

impl From<OutOfMemory> for BootFault {
    ghost use Rattle.std.specs.Prelude.{◌≡◌};
    ghost use Rattle.bus_stores.specs.declared.boot_fault.BootFault.TheVariants as faults;

    ghost from_gives = { λ _ e. e ≡ faults.NoMemory };

    fn from(_: OutOfMemory) -> Self {
        BootFault::NoMemory
    }
}
