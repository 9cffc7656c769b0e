//! A bootstrap as a node: it opens over a log and a keeper, makes rounds with its relay, and is served over connections. It stands
//! on `bootstrap_core` for the bootstrap, on `bootstrap_server` for how it is served, and on `bus_node` for exchanges, doors and
//! statuses. The layer above runs it by `run_bootstrap`.
#![tactic(auto)]

mod held;
mod printing;
mod rounds;
mod run;
mod serving;
mod stop;

pub use run::run_bootstrap;
