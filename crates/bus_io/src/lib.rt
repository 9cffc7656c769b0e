//! The outside of the bus as traits, a source of bytes, a sink of bytes and a connection that is both, each with counts of
//! its faults. It stands on `bus_types`. The layers above read and write through the traits and through `write_all`, and
//! never learn whether the bytes are those of a file, a terminal, a socket or a list in memory.
#![tactic(auto)]

mod conn;
mod growing;
mod memory;
mod pair;
mod sink;
mod source;
mod standard;
mod stream;
mod write;

pub use conn::Conn;
pub use growing::GrowingSink;
pub use memory::{MemorySink, MemorySource};
pub use pair::MemoryConn;
pub use sink::Sink;
pub use source::Source;
pub use standard::{Reading, Writing};
pub use stream::Streaming;
pub use write::{WriteFault, write_all};
