//! What a client asks of the bus, and exactly which replies are lawful, as bytes (`specs/Lawful.antt`). It stands on
//! `bus_types`, `event_codec` and `partition_filter`. The layers above ask by `Ask`, write answers by `answer_bytes` and
//! `close_bytes`, and take the bytes of a reply only by `check_reply`, or by `read_reply` to read them.
#![tactic(auto)]

mod ask;
mod check;
mod fault;
mod items;
mod laws;
mod run;

pub use ask::Ask;
pub use check::{check_reply, read_reply};
pub use event_codec::{Answer, ReplyView, Shape, answer_bytes, close_bytes};
pub use fault::BadReply;
pub use laws::{a_bootstrap_answers_lawfully, a_relay_answers_lawfully, a_reply_has_one_shape};
