//! A relay's buffer as one circle of bytes with an index from SCNs to windows. All its memory is taken when it is made, and
//! what it serves is sent from its own bytes. It stands on `bus_types`, on the bytes of `event_codec`, on `scn_index` and on
//! the `Buffer` of `relay_core`. The layers above publish windows to a `ByteRing` and serve its answers from it; contracts
//! see it as the `Relay` of `bus_types`, as they see `plain_buffer`'s.
#![tactic(auto)]

mod buffer;
mod circle;
mod event;
mod halves;
mod index;
mod kept;
mod ring;
mod run;
mod send;
mod write;

pub use ring::ByteRing;
