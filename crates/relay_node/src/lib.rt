//! A relay as a node: it publishes the windows of its input on a shared ring, and then serves them over the connections of one
//! door. It stands on `trace_script` for the lines of the input, on `range_ring` and `relay_server` for the ring and what it
//! replies, and on `bus_node` for the words, the status and the door. The layer above calls `run_relay`.
#![tactic(auto)]

mod feed;
mod laws;
mod line;
mod naming;
mod past;
mod publisher;
mod reading;
mod relay;
mod relaying;
mod serving;

pub use bus_node::{NodeStatus, RelayWords};
pub use laws::worked_inputs;
pub use relay::run_relay;
