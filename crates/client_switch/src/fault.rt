use bus_stores::StoreFault;
use bus_types::NoMemory;
use bus_wire::BadReply;
use checkpoint::MarkFault;

/// Why no client was opened. The keeper's rows and mark are as before.
#[derive(Clone, Copy, Debug, PartialEq, Eq)]
pub enum ClientOpen {
    /// The stored text is no mark's.
    BadMark,
    /// The store failed.
    StoreFault,
    /// Memory ran out.
    NoMemory,
}

impl From<StoreFault> for ClientOpen {
    ghost use Rattle.std.specs.Prelude.{◌≡◌};
    ghost use Rattle.client_switch.specs.Opening.{open_fault};

    ghost from_gives = { λ f e. e ≡ open_fault f };

    fn from(fault: StoreFault) -> Self {
        match fault {
            StoreFault::Failed => ClientOpen::StoreFault,
            StoreFault::NoMemory => ClientOpen::NoMemory,
        }
    }
}

impl From<MarkFault> for ClientOpen {
    ghost use Rattle.std.specs.Prelude.{◌≡◌};
    ghost use Rattle.client_switch.specs.Opening.{read_fault};

    ghost from_gives = { λ f e. e ≡ read_fault f };

    fn from(fault: MarkFault) -> Self {
        match fault {
            MarkFault::BadMark => ClientOpen::BadMark,
            MarkFault::NoMemory => ClientOpen::NoMemory,
        }
    }
}

/// Why a client asks nothing. It is as before.
#[derive(Clone, Copy, Debug, PartialEq, Eq)]
pub enum AskRefusal {
    /// It met a fault of its keeper: open another one over what the keeper holds.
    Halted,
    /// Memory ran out.
    NoMemory,
}

impl From<NoMemory> for AskRefusal {
    ghost use Rattle.std.specs.Prelude.{◌≡◌};
    ghost use Rattle.client_switch.specs.declared.fault.AskRefusal.TheVariants as faults;

    ghost from_gives = { λ _ e. e ≡ faults.NoMemory };

    fn from(_: NoMemory) -> Self {
        AskRefusal::NoMemory
    }
}

/// Why a client took no reply. All but `StoreFault` leave the client, and the rows and the mark of its keeper, as before.
#[derive(Clone, Copy, Debug, PartialEq, Eq)]
pub enum TakeFault {
    /// It met a fault of its keeper: open another one over what the keeper holds.
    Halted,
    /// The bytes are no lawful reply to what was asked. The consumer was told nothing.
    BadReply {
        /// The place of the first item that can't stand, or is missing or cut.
        place: u64,
    },
    /// The consumer refused a callback, and was told to go back.
    Refused {
        /// The SCN that was told with the callback.
        scn: u64,
    },
    /// The commit failed: the keeper is as before it or as after it, and the client asks and takes nothing from then on.
    StoreFault,
    /// Memory ran out. The consumer was told to go back.
    NoMemory,
}

impl From<BadReply> for TakeFault {
    ghost use Rattle.std.specs.Prelude.{◌≡◌};
    ghost use Rattle.client_switch.specs.declared.fault.TakeFault.TheVariants as faults;

    ghost from_gives = { λ f e. e ≡ faults.BadReply f.place };

    fn from(fault: BadReply) -> Self {
        TakeFault::BadReply { place: fault.place }
    }
}
