//! A relay's buffer as a list of windows: the simple form of the ring, for a trace and for one thread. It stands on
//! `bus_types`, on the bytes of `event_codec` and on the sinks of `bus_io`. The layers above publish windows to a
//! `PlainBuffer` and serve its answers from it; contracts see it as the `Relay` of `bus_types`.
#![tactic(auto)]

mod buffer;
mod kept;
mod run;
mod send;

pub use buffer::PlainBuffer;
pub use event_codec::Served;
