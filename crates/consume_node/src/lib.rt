//! A consumer as a node: a client that polls a relay and a bootstrap over a link, and commits what it takes in a keeper. It
//! stands on `client_switch` for the client, on `bus_node` for the exchanges with its peers, and on `consumer_lines` for what
//! it prints. The layer above hands in the link, the keeper and the output, and calls `run_consumer`.
#![tactic(auto)]

mod node;
mod poll;
mod show;
mod stop;

pub use node::run_consumer;
