//! The source: the list of the windows that were committed, in order. It stands on `bus_types`. The layers above
//! commit to it and read the windows after an SCN; it is a timeline by its type.
#![tactic(auto)]

mod past;
mod queue;
mod source;

pub use queue::CommitQueue;
pub use source::{CommitFault, SourceDb};
