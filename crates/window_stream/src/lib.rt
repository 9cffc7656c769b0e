//! A stream of windows, split into its windows in whatever pieces it comes. It stands on `event_codec`. The layers
//! above feed a `Splitter` the pieces and take the windows that became whole; how the stream was cut doesn't matter.
#![tactic(auto)]

mod decode;
mod laws;
mod scan;
mod splitter;

pub use laws::a_stream_is_split_in_one_way;
pub use splitter::{SplitFault, Splitter};
