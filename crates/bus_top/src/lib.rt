//! The top of the program: `trace` reads a script, hands each line to its bus, and writes what the lines print; `node` runs the
//! relay, the bootstrap or the consumer that some words start. It stands on `history_core` for the bus and for what a script
//! means, on `trace_script` for the lines, on `relay_node`, `bootstrap_node` and `consume_node` for the nodes, and on `bus_io`
//! and `bus_link` for what is read, written and connected.
#![tactic(auto)]

mod call;
mod session;
mod starting;
mod status;

pub use bus_node::NodeStatus;
use byte_ring::ByteRing;
pub use call::trace;
pub use starting::{Outside, node};
pub use status::Status;

/// The bus of a script, whose relay keeps its windows in one circle of bytes.
pub type Bus = history_core::Bus<ByteRing>;
