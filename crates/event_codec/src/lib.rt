//! The bytes of windows and of the frames that end or replace the items of a reply, written and read in place. It stands
//! on `bus_types`. The layers above append windows by `write_window` and `write_filtered`, read items where they stand by
//! `EventView::at`, `mark_at` and `answer_at`, and ask by `item_front` what can stand next in a stream (`specs/`).
#![tactic(auto)]

mod answer;
mod close;
mod event;
mod head;
mod item;
mod laws;
mod lent;
mod mark;
mod number;
mod reply;
mod write;

pub use answer::{Answer, answer_at, answer_bytes};
pub use bus_types::Accepts;
pub use close::{CLOSING_SIZE, Close, close_bytes};
pub use event::EventView;
pub use item::{Events, Follows, Item, item_front};
pub use laws::{a_frame_is_read_in_one_way, a_stream_is_read_in_one_way, no_window_begins_another};
pub use lent::{Run, WindowView, Windows};
pub use mark::{MARK_SIZE, mark_at, mark_bytes};
pub use reply::{ReplyView, Served, Shape};
pub use write::{event_head, write_filtered, write_window};
