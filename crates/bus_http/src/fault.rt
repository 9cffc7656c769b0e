ghost use Rattle.std.specs.Prelude.{◌≡◌};
ghost use Rattle.bus_http.specs.declared.fault.QueryFault.TheVariants as queries;
ghost use Rattle.bus_http.specs.declared.fault.HeadFault.TheVariants as heads;
ghost use Rattle.bus_http.specs.Head.{fault_of};

use bus_types::NoMemory as OutOfMemory;

/// Why a request was not read. The first that applies is told.
#[derive(Clone, Copy, Debug, PartialEq, Eq)]
pub enum RequestFault {
    /// The source failed: its count rose.
    ReadFault,
    /// At least 16,384 bytes of the request came, and the first 16,384 hold no end of a head.
    HeadTooLong,
    /// The head is none of the grammar, it says that a body follows, or the input ended within it.
    BadHead,
    /// The method isn't GET.
    BadMethod,
    /// The path is none of the side's.
    NoSuchPath,
    /// A parameter is missing, repeated or not of its grammar.
    BadQuery {
        /// The number of the first such parameter, counted from 0 in the path's order.
        name: u8,
    },
    /// Memory ran out. The request stands where it stood.
    NoMemory,
}

/// Why a query isn't one of a path.
#[derive(Clone, Copy, Debug, PartialEq, Eq)]
pub(crate) enum QueryFault {
    /// This parameter is at fault.
    BadQuery { name: u8 },
    /// Memory ran out.
    NoMemory,
}

impl From<OutOfMemory> for QueryFault {
    ghost from_gives = { λ _ e. e ≡ queries.NoMemory };

    fn from(_: OutOfMemory) -> Self {
        QueryFault::NoMemory
    }
}

/// Why a head isn't a request.
#[derive(Clone, Copy, Debug, PartialEq, Eq)]
pub(crate) enum HeadFault {
    /// It is none of the grammar, or says that a body follows.
    BadHead,
    /// The method isn't GET.
    BadMethod,
    /// The path is none of the side's.
    NoSuchPath,
    /// This parameter is at fault.
    BadQuery { name: u8 },
    /// Memory ran out.
    NoMemory,
}

impl From<QueryFault> for HeadFault {
    ghost from_gives = { λ fault e. e ≡ fault_of fault };

    fn from(fault: QueryFault) -> Self {
        match fault {
            QueryFault::BadQuery { name } => HeadFault::BadQuery { name },
            QueryFault::NoMemory => HeadFault::NoMemory,
        }
    }
}
