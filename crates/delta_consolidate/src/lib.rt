//! The reply of a bootstrap to a consumer that comes from an older SCN: the next chunk of the last changes of its rows, in order of
//! source and key. It stands on `bus_stores` for the log of windows, on `event_codec` for the bytes and on `partition_filter`
//! for the rows that are meant. The layer above calls `delta` with the SCNs that the consumer comes from and goes to.
#![tactic(auto)]

mod chunk;
mod filling;
mod gathering;
mod latest;
mod laws;

pub use bus_stores::BootFault;
pub use chunk::delta;
pub use laws::{
    a_log_has_the_last_changes_of_its_timeline, last_changes_lead_to_the_table, worked_deltas,
};
