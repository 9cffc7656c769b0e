//! What the nodes of the bus share: the words that start one, how one ends, one exchange with a peer, and the serving of the
//! connections of a door. It stands on `bus_link` for connections, on `bus_http` for requests and answers, on `clap` for the
//! values that words name, and on `trace_script` and `partition_filter` for what these hold. The nodes stand on it: `relay_node`,
//! `bootstrap_node` and `consume_node`.
#![tactic(auto)]

mod door;
mod exchanging;
mod laws;
mod options;
mod status;
mod words;

pub use bus_http::ServeEnd;
pub use door::{DoorEnd, Serves, serve_door};
pub use exchanging::{ExchangeFault, exchange};
pub use laws::{plain_words, worked_words};
pub use status::NodeStatus;
pub use words::{BootstrapWords, ConsumeWords, NodeWords, RelayWords, WordsFault, read_words};
