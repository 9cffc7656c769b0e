//! A bootstrap: its log of windows and the table that it keeps beside it. It stands on `snapshot_applier` for the table and
//! the boot mark, on `window_stream` and `bus_wire` for the relay's replies, on `snapshot_scan` and `delta_consolidate` for
//! chunks, and on `bus_stores` for log and keeper. The layers above open a `Boot` over a log and a keeper, hand it the relay's
//! replies by `take_log`, let it `apply` and `trim`, and ask it by `answer`, or through the trait `Replies`.
#![tactic(auto)]

mod answering;
mod boot;
mod fault;
mod first;
mod logging;
mod moving;
mod replaying;
mod replies;

pub use boot::Boot;
pub use bus_stores::BootFault;
pub use fault::{BootOpen, TakeLog};
pub use replies::Replies;
