//! Links, which connect to ports and listen at them, and doors, which accept connections: as traits, in memory and over TCP.
//! It stands on `bus_io` for connections. The layers above make their connections through the traits, and never learn whether a
//! peer is one of a network or a list in memory.
#![tactic(auto)]

mod fail;
mod fault;
mod gathering;
mod kept;
mod link;
mod memory_door;
mod memory_link;
mod opening;
mod returned;
mod tcp;

pub use fail::LinkFail;
pub use fault::OpenFault;
pub use gathering::Gathering;
pub use link::{Accept, Link};
pub use memory_door::MemoryDoor;
pub use memory_link::MemoryLink;
pub use tcp::{TcpDoor, TcpLink};
