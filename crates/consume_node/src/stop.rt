ghost use Rattle.std.specs.Prelude.{◌≡◌};
ghost use Rattle.consume_node.specs.Failing.{stop_status};

use bus_node::{ExchangeFault, NodeStatus};
use bus_stores::StoreFault as KeeperFault;
use bus_types::NoMemory as OutOfMemory;
use client_switch::ClientOpen;

/// Why a consumer ended before it was done.
#[derive(Clone, Copy, Debug, PartialEq, Eq)]
pub(crate) enum Stop {
    /// The link failed.
    LinkFault,
    /// What a peer wrote is no answer.
    BadAnswer,
    /// What a peer answered is no lawful reply: the place of its first item that can't stand.
    BadReply(u64),
    /// The keeper failed.
    StoreFault,
    /// The stored mark is no mark's text.
    BadMark,
    /// The output failed.
    WriteFault,
    /// Memory ran out.
    NoMemory,
}

impl Stop {
    /// The status of a node that ends by it.
    pub fn status(self) -> NodeStatus
        ensures { result ≡ stop_status self }
    {
        match self {
            Stop::LinkFault => NodeStatus::LinkFault,
            Stop::BadAnswer => NodeStatus::BadAnswer,
            Stop::BadReply(place) => NodeStatus::BadReply { place },
            Stop::StoreFault => NodeStatus::StoreFault,
            Stop::BadMark => NodeStatus::BadMark,
            Stop::WriteFault => NodeStatus::WriteFault,
            Stop::NoMemory => NodeStatus::NoMemory,
        }
    }
}

impl From<OutOfMemory> for Stop {
    ghost use Rattle.std.specs.Prelude.{◌≡◌};
    ghost use Rattle.consume_node.specs.declared.stop.Stop.TheVariants as stops;

    ghost from_gives = { λ _ e. e ≡ stops.NoMemory };

    fn from(_: OutOfMemory) -> Self {
        Stop::NoMemory
    }
}

impl From<ExchangeFault> for Stop {
    ghost use Rattle.std.specs.Prelude.{◌≡◌};
    ghost use Rattle.consume_node.specs.Failing.{exchange_stop};

    ghost from_gives = { λ f e. e ≡ exchange_stop f };

    fn from(fault: ExchangeFault) -> Self {
        match fault {
            ExchangeFault::LinkFault => Stop::LinkFault,
            ExchangeFault::BadAnswer => Stop::BadAnswer,
            ExchangeFault::NoMemory => Stop::NoMemory,
        }
    }
}

impl From<ClientOpen> for Stop {
    ghost use Rattle.std.specs.Prelude.{◌≡◌};
    ghost use Rattle.consume_node.specs.Failing.{open_stop};

    ghost from_gives = { λ f e. e ≡ open_stop f };

    fn from(fault: ClientOpen) -> Self {
        match fault {
            ClientOpen::BadMark => Stop::BadMark,
            ClientOpen::StoreFault => Stop::StoreFault,
            ClientOpen::NoMemory => Stop::NoMemory,
        }
    }
}

impl From<KeeperFault> for Stop {
    ghost use Rattle.std.specs.Prelude.{◌≡◌};
    ghost use Rattle.consume_node.specs.Failing.{store_stop};

    ghost from_gives = { λ f e. e ≡ store_stop f };

    fn from(fault: KeeperFault) -> Self {
        match fault {
            KeeperFault::Failed => Stop::StoreFault,
            KeeperFault::NoMemory => Stop::NoMemory,
        }
    }
}
