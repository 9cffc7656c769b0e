ghost use Rattle.std.specs.Prelude.{◌≡◌};
ghost use Rattle.bootstrap_node.specs.Statuses.{open_status, status_of, stop_of};

use bootstrap_core::{BootOpen, TakeLog};
use bus_node::NodeStatus;
use bus_types::NoMemory as OutOfMemory;

/// Why the run of an opened bootstrap stopped before its defined end.
#[derive(Clone, Copy, Debug, PartialEq, Eq)]
pub(crate) enum Stop {
    /// What the relay wrote is no answer.
    BadAnswer,
    /// What the relay answered is no lawful reply, or its windows don't follow the log.
    BadReply {
        /// The place of the first item that can't stand.
        place: u64,
    },
    /// The link failed: its count rose.
    LinkFault,
    /// The log or the keeper failed: its count rose.
    StoreFault,
    /// The output failed: its count rose.
    WriteFault,
    /// Memory ran out.
    NoMemory,
}

impl From<OutOfMemory> for Stop {
    ghost use Rattle.std.specs.Prelude.{◌≡◌};
    ghost use Rattle.bootstrap_node.specs.declared.stop.Stop.TheVariants as stops;

    ghost from_gives = { λ _ e. e ≡ stops.NoMemory };

    fn from(_: OutOfMemory) -> Self {
        Stop::NoMemory
    }
}

/// Why what a log took of a reply ends the rounds, where it does.
pub(crate) fn stop_of(took: Result<u64, TakeLog>) -> Option<Stop>
    ensures { result ≡ stop_of took }
{
    match took {
        Ok(_) => None,
        Err(TakeLog::BadReply { place }) => Some(Stop::BadReply { place }),
        Err(TakeLog::Gap { .. }) => None,
        Err(TakeLog::Full { .. }) => None,
        Err(TakeLog::LogFailed) => Some(Stop::StoreFault),
        Err(TakeLog::Halted) => Some(Stop::StoreFault),
        Err(TakeLog::NoMemory) => Some(Stop::NoMemory),
    }
}

/// The status of a run that ended so.
pub(crate) fn status_of(ended: Result<(), Stop>) -> NodeStatus
    ensures { result ≡ status_of ended }
{
    match ended {
        Ok(()) => NodeStatus::Done,
        Err(Stop::BadAnswer) => NodeStatus::BadAnswer,
        Err(Stop::BadReply { place }) => NodeStatus::BadReply { place },
        Err(Stop::LinkFault) => NodeStatus::LinkFault,
        Err(Stop::StoreFault) => NodeStatus::StoreFault,
        Err(Stop::WriteFault) => NodeStatus::WriteFault,
        Err(Stop::NoMemory) => NodeStatus::NoMemory,
    }
}

/// The status of a run that opened no bootstrap.
pub(crate) fn open_status(fault: BootOpen) -> NodeStatus
    ensures { result ≡ open_status fault }
{
    match fault {
        BootOpen::BadMark => NodeStatus::BadMark,
        BootOpen::Ahead { applied, high } => NodeStatus::Ahead { applied, high },
        BootOpen::Hole { base, floor } => NodeStatus::Hole { base, floor },
        BootOpen::LogFailed => NodeStatus::StoreFault,
        BootOpen::StoreFailed => NodeStatus::StoreFault,
        BootOpen::NoMemory => NodeStatus::NoMemory,
    }
}
