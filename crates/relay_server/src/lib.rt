//! A relay, served over connections from a ring that other threads share. It stands on `range_ring` for what a pass opens of a ring,
//! and on `bus_http` for the requests and answers of a connection. The layers above serve each connection by `serve_relay`.
#![tactic(auto)]

mod serving;
mod stream;
mod turning;

pub use bus_http::ServeEnd;
pub use serving::serve_relay;
