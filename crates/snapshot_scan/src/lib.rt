//! The reply of a bootstrap to a consumer that scans its table: the next chunk of rows, in order of source and key. It
//! stands on `bus_stores` for the keeper of the rows, on `event_codec` for the bytes and on `partition_filter` for the
//! rows that are meant. The layer above calls `chunk` with the SCN that the rows stand at.
#![tactic(auto)]

mod filling;
mod laws;
mod pages;
mod scan;

pub use bus_stores::BootFault;
pub use laws::{a_scan_gives_the_view, worked_chunks};
pub use scan::chunk;
