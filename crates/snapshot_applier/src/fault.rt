use bus_types::NoMemory as OutOfMemory;

/// Why a text gave no boot mark.
#[derive(Clone, Copy, Debug, PartialEq, Eq)]
pub enum BootTextFault {
    /// It is no boot mark's text.
    BadMark,
    /// Memory ran out.
    NoMemory,
}

impl From<OutOfMemory> for BootTextFault {
    ghost use Rattle.std.specs.Prelude.{◌≡◌};
    ghost use Rattle.snapshot_applier.specs.declared.fault.BootTextFault.TheVariants as faults;

    ghost from_gives = { λ _ e. e ≡ faults.NoMemory };

    fn from(_: OutOfMemory) -> Self {
        BootTextFault::NoMemory
    }
}
