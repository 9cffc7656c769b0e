//! A consumer's client: what it asks of the bus, and what it makes of each reply, with one commit of rows and mark
//! together. It stands on `bus_wire` for asks and lawful replies, `dispatcher` for callbacks, `bus_stores` for the
//! keeper and `checkpoint` for marks. The layers above carry the bytes between a `Client` and a relay or a bootstrap.
#![tactic(auto)]

mod changes;
mod client;
mod fault;
mod laws;
mod turn;
mod wish;
mod worked;

pub use client::{Client, Took};
pub use fault::{AskRefusal, ClientOpen, TakeFault};
pub use laws::{
    a_lawful_reply_sets_no_client_back, a_true_reply_keeps_rows_right,
    rows_stay_right_while_the_source_commits,
};
pub use wish::Wish;
pub use worked::worked_moves;
