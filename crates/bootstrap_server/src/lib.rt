//! A bootstrap behind a lock, served over connections. It stands on `bootstrap_core` for what replies and on `bus_http` for the
//! requests and answers of a connection. The layers above serve each connection by `serve_bootstrap`.
#![tactic(auto)]

mod locked;
mod serving;

pub use bus_http::ServeEnd;
pub use serving::serve_bootstrap;
