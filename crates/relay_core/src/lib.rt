//! A relay's replies as bytes, over any buffer of windows that keeps the rule of a relay. It stands on `plain_buffer` for
//! the buffer and on `event_codec` for the bytes of answers. The layers above give a buffer the windows, and ask
//! `relay_answer` for the bytes that go to a consumer.
#![tactic(auto)]

mod answer;
mod buffer;

pub use answer::relay_answer;
pub use buffer::Buffer;
pub use event_codec::Served;
