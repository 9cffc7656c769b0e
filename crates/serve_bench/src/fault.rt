use bus_types::NoMemory;
use client_switch::{AskRefusal, ClientOpen, TakeFault};
use std::alloc::{AllocError, AllocFailed};
use std::io;

/// Why windows were not served or polled.
#[derive(Clone, Copy, Debug, PartialEq, Eq)]
pub(crate) enum Fault {
    /// Memory ran out.
    NoMemory,
    /// A client was not opened, or took no reply.
    Client,
}

impl From<NoMemory> for Fault {
    fn from(_: NoMemory) -> Fault {
        Fault::NoMemory
    }
}

impl From<AllocError> for Fault {
    fn from(_: AllocError) -> Fault {
        Fault::NoMemory
    }
}

impl<T: Drop> From<AllocFailed<T>> for Fault {
    fn from(_: AllocFailed<T>) -> Fault {
        Fault::NoMemory
    }
}

impl From<AskRefusal> for Fault {
    fn from(_: AskRefusal) -> Fault {
        Fault::Client
    }
}

impl From<ClientOpen> for Fault {
    fn from(_: ClientOpen) -> Fault {
        Fault::Client
    }
}

impl From<TakeFault> for Fault {
    fn from(_: TakeFault) -> Fault {
        Fault::Client
    }
}

impl From<Fault> for io::Error {
    fn from(fault: Fault) -> io::Error {
        match fault {
            Fault::NoMemory => io::ErrorKind::OutOfMemory.into(),
            Fault::Client => io::ErrorKind::InvalidData.into(),
        }
    }
}
